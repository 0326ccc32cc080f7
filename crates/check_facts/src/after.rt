//! What statements do to what is known of one configuration field.
ghost use Rattle.std.specs.Prelude.{◌≡◌, ◌<◌, ◌≤◌, ◌+◌, ◌^◌, if◌then◌else◌, IsTrue, IfOk, length, zero};
ghost use Rattle.exo_tree.specs.Tree.{block};
ghost use Rattle.exo_tree.specs.PlainPlace.{branch_taken};
ghost use Rattle.exo_tree.specs.PlainStatement.{statement};
ghost use Rattle.exo_meaning.specs.Units.{levels, step_levels, is_short};
ghost use Rattle.meaning_laws.specs.KnownFields.{UnknownAt, path_in};
ghost use Rattle.affine_places.specs.Rules.{block_keeps_rules, statement_keeps_rules};
ghost use Rattle.check_facts.specs.Values.{plain_value};
ghost use Rattle.check_facts.specs.Walks.{telling_of, kept_value, value_after, value_at_end};

use crate::agreement::is_same_value;
use crate::basis::Basis;
use crate::value::{Right, Value};
use crate::writes::{call_writes, writes};
use affine_places::AtEntry;
use exo_tree::{Block, Branch, FieldId, Path, Step, Stmt};
use std::alloc::{AllocError, Global};

/// The path of the statement of that number in a branch of the statement at a path.
pub(crate) fn path_in(outer: &Path, branch: Branch, k: usize) -> Path
    requires room { length outer.now < 32 }
    requires number { k < 2 ^ 31 }
    ensures { result ≡ path_in outer.now (branch_taken branch) k }
{
    let mut path = outer.duplicate();
    path.push(Step {
        branch,
        index: k as u32,
    });
    path
}

/// A value on which the ends of two branches agree, else one that the statement at the path makes unknown.
fn kept<'a>(
    basis: &Basis<'_, '_>,
    alloc: Global,
    path: &Path,
    one: Value<'a>,
    other: &Value<'a>,
) -> Result<Value<'a>, AllocError>
    ensures { IfOk result
        (λ v. plain_value v
        ≡ kept_value (telling_of basis.now) path.now (plain_value one.entry)
        (plain_value other.now)) }
{
    let at = AtEntry {
        fields: &basis.unit.fields,
        roots: basis.roots,
    };
    if is_same_value(alloc, &at, &one, other)? {
        Ok(one)
    } else {
        Ok(Value::Unknown(path.duplicate()))
    }
}

/// The value, or one that the statement at the path makes unknown, where it may write the field.
fn unless_written<'a>(may: bool, path: &Path, value: Value<'a>) -> Value<'a>
    ensures { plain_value result ≡ (if may then UnknownAt path.now else plain_value value.entry) }
{
    if may {
        Value::Unknown(path.duplicate())
    } else {
        value
    }
}

/// What is known of a field after the statement at a path.
#[cycle(after)]
pub(crate) fn after<'a>(
    basis: &Basis<'_, '_>,
    alloc: Global,
    f: FieldId,
    path: &Path,
    s: &'a Stmt,
    value: Value<'a>,
) -> Result<Value<'a>, AllocError>
    requires field { f.0 < basis.now.count }
    requires rules { IsTrue (statement_keeps_rules (statement s.now)) }
    requires room { length path.now + step_levels (statement s.now) ≤ 32 }
    ensures { IfOk result
        (λ v. plain_value v
        ≡ value_after (telling_of basis.now) f.0 path.now (statement s.now)
        (plain_value value.entry)) }
{
    match s {
        Stmt::Config(g, a) => {
            if f.0 == g.0 {
                Ok(Value::Written(Right { side: a }))
            } else {
                Ok(value)
            }
        }
        Stmt::If(_, a, b) => {
            let other = at_end(basis, alloc, f, path, Branch::Else, b, value.duplicate())?;
            let one = at_end(basis, alloc, f, path, Branch::Main, a, value)?;
            kept(basis, alloc, path, one, &other)
        }
        Stmt::For(_, _, _, b) => Ok(unless_written(writes(b, basis.writes, f), path, value)),
        Stmt::Call(k, _) => Ok(unless_written(call_writes(*k, basis.writes, f), path, value)),
        Stmt::Assign(_, _, _) => Ok(value),
        Stmt::Reduce(_, _, _) => Ok(value),
        Stmt::Pass => Ok(value),
        Stmt::Alloc(_, _, _, _) => Ok(value),
        Stmt::View(_, _, _) => Ok(value),
    }
}

/// What is known of it at the end of a branch of the statement at a path.
#[cycle(after)]
fn at_end<'a>(
    basis: &Basis<'_, '_>,
    alloc: Global,
    f: FieldId,
    outer: &Path,
    branch: Branch,
    b: &'a Block,
    value: Value<'a>,
) -> Result<Value<'a>, AllocError>
    requires field { f.0 < basis.now.count }
    requires rules { IsTrue (block_keeps_rules (block b.now)) }
    requires short { IsTrue (is_short (block b.now)) }
    requires room { length outer.now + levels (block b.now) ≤ 32 }
    ensures { IfOk result
        (λ v. plain_value v
        ≡ value_at_end (telling_of basis.now) f.0 outer.now (branch_taken branch) zero (block b.now)
        (plain_value value.entry)) }
{
    let mut now = value;
    for k in 0..b.len() {
        let path = path_in(outer, branch, k);
        now = after(basis, alloc, f, &path, b.statement(k), now)?;
    }
    Ok(now)
}
