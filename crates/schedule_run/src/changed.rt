//! The one store in which two bodies differ.
ghost use Rattle.std.specs.Prelude.{◌≡◌, true, take, drop, IfSome};
ghost use Rattle.exo_tree.specs.Tree.{block};
ghost use Rattle.exo_tree.specs.PlainBinder.{binding};
ghost use Rattle.exo_tree.specs.PlainPlace.{branch_taken};
ghost use Rattle.exo_tree.specs.PlainStatement.{statement};
ghost use Rattle.schedule_laws.specs.Owed.Stores.{IsStore, StoreChanged};
ghost use Rattle.schedule_run.specs.Changed as plain;
ghost use Rattle.schedule_run.specs.Changed.{ChangedAt, ChangedIn};

use exo_tree::{Binder, Block, Branch, Path, Stmt};
use loop_rewrites::nest::{same_condition, same_control, same_statement};

/// Whether two binders are the same.
fn same_binder(a: &Binder, b: &Binder) -> bool
    ensures { result ≡ plain.same_binder (binding a.now) (binding b.now) }
{
    a.id.0 == b.id.0 && a.name.as_str() == b.name.as_str()
}

/// Whether the binders of statements that are the same but for these have the same names.
#[cycle(names)]
fn same_names(a: &Stmt, b: &Stmt) -> bool
    ensures { result ≡ plain.same_names (statement a.now) (statement b.now) }
{
    match (a, b) {
        (Stmt::If(_, a, b), Stmt::If(_, p, q)) => all_same_names(a, p) && all_same_names(b, q),
        (Stmt::For(i, _, _, b), Stmt::For(j, _, _, c)) => {
            same_binder(i, j) && all_same_names(b, c)
        }
        (Stmt::Alloc(x, _, _, _), Stmt::Alloc(y, _, _, _)) => same_binder(x, y),
        (Stmt::View(w, _, _), Stmt::View(v, _, _)) => same_binder(w, v),
        _ => true,
    }
}

/// The same of each statement of two blocks.
#[cycle(names)]
#[tactic(auto, using(crate::proofs::SameNames::other_length, crate::proofs::SameNames::all_same))]
fn all_same_names(one: &Block, other: &Block) -> bool
    ensures { result ≡ plain.all_same_names (block one.now) (block other.now) }
{
    let count = one.len();
    if count != other.len() {
        return false;
    }
    for k in 0..count {
        if !same_names(one.statement(k), other.statement(k)) {
            return false;
        }
    }
    true
}

/// Whether two statements are the same.
fn is_same(a: &Stmt, b: &Stmt) -> bool
    ensures { result ≡ plain.is_same (statement a.now) (statement b.now) }
{
    same_statement(a, b) && same_names(a, b)
}

/// How many statements come first that both blocks have.
fn same_first(old: &Block, new: &Block) -> usize
    ensures { take result old.now ≡ take result new.now }
{
    let count = old.len().min(new.len());
    for k in 0..count {
        if !is_same(old.statement(k), new.statement(k)) {
            return k;
        }
    }
    count
}

/// Whether two blocks have the same statements from an index on.
fn same_from(old: &Block, new: &Block, from: usize) -> bool
    ensures { result ≡ true → drop from old.now ≡ drop from new.now }
{
    let count = old.len();
    if count != new.len() {
        return false;
    }
    for k in from..count {
        if !is_same(old.statement(k), new.statement(k)) {
            return false;
        }
    }
    true
}

/// Whether a statement is an assignment or a reduction.
fn is_store(s: &Stmt) -> bool
    ensures { result ≡ true → IsStore (statement s.now) }
{
    match s {
        Stmt::Assign(_, _, _) => true,
        Stmt::Reduce(_, _, _) => true,
        _ => false,
    }
}

/// The path itself where both statements are stores.
fn if_stores(path: &Path, a: &Stmt, b: &Stmt) -> Option<Path>
    ensures { IfSome result (λ found.
        ChangedAt path.now found (statement a.now) (statement b.now)) }
{
    if is_store(a) && is_store(b) {
        Some(path.duplicate())
    } else {
        None
    }
}

/// The path of the one store in which two blocks differ that stand in a branch at the path; None
/// where they are the same, where more than a store differs, and where the path is too long.
#[cycle(changed)]
fn changed_in(outer: &Path, branch: Branch, old: &Block, new: &Block) -> Option<Path>
    ensures { IfSome result (λ found.
        ChangedIn outer.now (branch_taken branch) found (block old.now) (block new.now)) }
{
    let index = same_first(old, new);
    if index >= old.len() || index >= new.len() || index > 2147483647 || outer.len() >= 32 {
        return None;
    }
    if !same_from(old, new, index + 1) {
        return None;
    }
    let path = outer.below(branch, index as u32);
    changed_at(&path, old.statement(index), new.statement(index))
}

/// The same of two statements with that path.
#[cycle(changed)]
fn changed_at(path: &Path, a: &Stmt, b: &Stmt) -> Option<Path>
    ensures { IfSome result (λ found.
        ChangedAt path.now found (statement a.now) (statement b.now)) }
{
    match (a, b) {
        (Stmt::For(i, lo, hi, b), Stmt::For(j, low, high, c)) => {
            if same_binder(i, j) && same_control(lo, low) && same_control(hi, high) {
                return changed_in(path, Branch::Main, b, c);
            }
            None
        }
        (Stmt::If(c, a, b), Stmt::If(d, p, q)) => {
            if !same_condition(c, d) {
                return None;
            }
            if same_from(b, q, 0) {
                return changed_in(path, Branch::Main, a, p);
            }
            if same_from(a, p, 0) {
                return changed_in(path, Branch::Else, b, q);
            }
            None
        }
        (a, b) => if_stores(path, a, b),
    }
}

/// The path of the one store in which two bodies differ, where all else is the same. None promises
/// nothing.
pub(crate) fn changed_store(old: &Block, new: &Block) -> Option<Path>
    ensures { IfSome result (λ path. StoreChanged path (block old.now) (block new.now)) }
{
    changed_in(&Path::new(), Branch::Main, old, new)
}
