//! The walk over the statements of a piece.
ghost use Rattle.std.specs.Prelude.{◌≡◌, ◌++◌, ◌≤◌, length, slice_range, OnOk};
ghost use Rattle.exo_tree.specs.Tree.{block};
ghost use Rattle.exo_tree.specs.PlainStatement.{statement};
ghost use Rattle.exo_effects.specs.PlainUses.{plain_uses};
ghost use Rattle.exo_effects.specs.PlainWalk.{inside_of, step_uses, block_uses, guarded, IsLeft};

use crate::access::{Access, Mode};
use crate::guards::Guard;
use crate::inside::{EffectSite, Inside};
use crate::plain::is_plain_condition;
use crate::uses::{put_call, put_cell, put_reads};
use exo_tree::{Block, Stmt};
use std::alloc::{AllocError, Global};

/// Puts the uses of the statements of a block from an index up to another last. Their names end with them.
#[cycle(walk)]
pub(crate) fn walk_part<'a>(
    alloc: Global,
    out: &mut Vec<Access<'a>>,
    site: &EffectSite,
    inside: &mut Inside<'a>,
    b: &'a Block,
    from: usize,
    to: usize,
) -> Result<(), AllocError>
    requires ordered { from ≤ to }
    requires within { to ≤ length b.now }
    ensures uses { OnOk result
        (plain_uses out.new.items
        ≡ plain_uses out.old.items
        ++ block_uses site.now (inside_of inside.old) (block (slice_range b.now from to))) }
    ensures kept { OnOk result (IsLeft inside.old inside.new) }
{
    let known = inside.parts.len();
    for k in from..to {
        let s = b.statement(k);
        walk_statement(alloc, out, site, inside, s)?;
        inside.parts.pass_inside(alloc, s)?;
    }
    inside.parts.truncate(known);
    Ok(())
}

/// Puts the uses of a block inside a loop or branch last; `says` is whether that says something.
#[cycle(walk)]
fn walk_under<'a>(
    alloc: Global,
    out: &mut Vec<Access<'a>>,
    site: &EffectSite,
    inside: &mut Inside<'a>,
    guard: Guard<'a>,
    says: bool,
    b: &'a Block,
) -> Result<(), AllocError>
    ensures uses { OnOk result
        (plain_uses out.new.items
        ≡ plain_uses out.old.items
        ++ block_uses site.now (guarded says guard.entry (inside_of inside.old)) (block b.now)) }
    ensures kept { OnOk result (IsLeft inside.old inside.new) }
{
    let around = inside.guards.len();
    inside.enter(guard, says)?;
    walk_part(alloc, out, site, inside, b, 0, b.len())?;
    inside.guards.truncate(around);
    Ok(())
}

/// Puts the uses of a statement last.
#[cycle(walk)]
fn walk_statement<'a>(
    alloc: Global,
    out: &mut Vec<Access<'a>>,
    site: &EffectSite,
    inside: &mut Inside<'a>,
    s: &'a Stmt,
) -> Result<(), AllocError>
    ensures uses { OnOk result
        (plain_uses out.new.items
        ≡ plain_uses out.old.items ++ step_uses site.now (inside_of inside.old) (statement s.now)) }
    ensures kept { OnOk result (IsLeft inside.old inside.new) }
{
    match s {
        Stmt::Assign(x, at, e) => {
            put_cell(alloc, out, site, inside, Mode::Write, *x, at)?;
            put_reads(alloc, out, site, inside, e)
        }
        Stmt::Reduce(x, at, e) => {
            put_cell(alloc, out, site, inside, Mode::Reduce, *x, at)?;
            put_reads(alloc, out, site, inside, e)
        }
        Stmt::If(c, a, b) => {
            let says = is_plain_condition(c);
            walk_under(alloc, out, site, inside, Guard::Holds(c), says, a)?;
            walk_under(alloc, out, site, inside, Guard::Fails(c), says, b)
        }
        Stmt::For(i, lo, hi, b) => {
            walk_under(alloc, out, site, inside, Guard::Loop(i.id, lo, hi), true, b)
        }
        Stmt::Call(k, args) => put_call(alloc, out, site, inside, *k, args),
        _ => Ok(()),
    }
}
