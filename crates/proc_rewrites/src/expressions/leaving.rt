//! Where statements go that stay when passes are deleted.
ghost use Rattle.std.specs.Prelude.{◌≡◌, [], ◌∷◌, ◌++◌, ◌<◌, Some, IfOk, OnOk};
ghost use Rattle.exo_tree.specs.Tree.{block};
ghost use Rattle.exo_tree.specs.PlainPlace.{branch_taken};
ghost use Rattle.exo_tree.specs.PlainStatement.{statement};
ghost use Rattle.cursor_forward.specs.Shifts as shifts;
ghost use Rattle.proc_laws.specs.Expression.Passes as passes;
ghost use Rattle.proc_laws.specs.Expression.Passes.{shifted_block, shifted_statement};
ghost use Rattle.proc_rewrites.specs.Expressions.Passing as passing;

use cursor_forward::{Shift, Shifts};
use exo_tree::{Block, Branch, Path, Step, Stmt};
use std::alloc::AllocError;

/// The path to a statement of a block of the statement at a path. A path that the program cannot hold is answered as
/// want of memory: no tree that fits in has one.
fn down(path: &Path, branch: Branch, index: usize) -> Result<Path, AllocError>
    ensures { IfOk result (λ p. p ≡ passes.down path.now (branch_taken branch) index) }
{
    if path.len() >= 32 || index > 4294967295 {
        return Err(AllocError);
    }
    let mut longer = path.duplicate();
    longer.push(Step {
        branch,
        index: index as u32,
    });
    Ok(longer)
}

/// A statement goes by itself.
fn put_alone(out: &mut Shifts, from: Path, to: Path) -> Result<(), AllocError>
    ensures { OnOk result (out.new ≡ out.old ++ shifts.alone from (Some to) ∷ []) }
{
    out.push(Shift {
        from,
        count: 1,
        whole: false,
        to: Some(to),
    })
}

/// Whether a block is one `pass`.
#[tactic(auto, using(crate::proofs::OfExpressions::Left::one_pass, crate::proofs::OfExpressions::Left::many_passes))]
fn is_one_pass(b: &Block) -> bool
    ensures { result ≡ passes.is_one_pass (block b.now) }
{
    if b.len() != 1 {
        return false;
    }
    is_pass(b.statement(0))
}

/// Puts where the statements of a block go that was and is the branch of the statements at `from` and at `to`.
#[cycle(leaving)]
#[tactic(auto, using(crate::proofs::OfExpressions::Left::shifted_all, crate::proofs::OfExpressions::Left::shifted_one))]
pub(crate) fn put_block(
    out: &mut Shifts,
    from: &Path,
    to: &Path,
    branch: Branch,
    b: &Block,
) -> Result<(), AllocError>
    ensures { OnOk result (out.new ≡ out.old ++ shifted_block from.now to.now (branch_taken branch) (block b.now)) }
{
    if is_one_pass(b) {
        return put_alone(out, down(from, branch, 0)?, down(to, branch, 0)?);
    }
    put_all(out, from, to, branch, b)
}

/// The same of a block that is not one `pass`.
#[cycle(leaving)]
#[tactic(auto, using(crate::proofs::OfExpressions::Left::told_more, crate::proofs::OfExpressions::Left::told_all))]
fn put_all(
    out: &mut Shifts,
    from: &Path,
    to: &Path,
    branch: Branch,
    b: &Block,
) -> Result<(), AllocError>
    ensures { OnOk result (out.new ≡ out.old ++ passes.shifted from.now to.now (branch_taken branch) 0 0 (block b.now)) }
{
    let mut next = 0;
    for k in 0..b.len() {
        let s = b.statement(k);
        put_statement(out, &down(from, branch, k)?, &down(to, branch, next)?, s)?;
        next = behind(s, next);
    }
    Ok(())
}

/// The number of the statement behind one, by that one's.
fn behind(s: &Stmt, index: usize) -> usize
    requires { index < 18446744073709551615 }
    ensures { result ≡ passes.behind (statement s.now) index }
{
    match s {
        Stmt::Pass => index,
        _ => index + 1,
    }
}

/// Whether a statement is a `pass`.
fn is_pass(s: &Stmt) -> bool
    ensures { result ≡ passing.is_pass (statement s.now) }
{
    match s {
        Stmt::Pass => true,
        _ => false,
    }
}

/// Puts where a statement goes, from one path to another, and what is below it.
#[cycle(leaving)]
fn put_statement(out: &mut Shifts, from: &Path, to: &Path, s: &Stmt) -> Result<(), AllocError>
    ensures { OnOk result (out.new ≡ out.old ++ shifted_statement from.now to.now (statement s.now)) }
{
    match s {
        Stmt::Pass => Ok(()),
        Stmt::If(_, a, b) => {
            put_alone(out, from.duplicate(), to.duplicate())?;
            put_block(out, from, to, Branch::Main, a)?;
            put_block(out, from, to, Branch::Else, b)
        }
        Stmt::For(_, _, _, b) => {
            put_alone(out, from.duplicate(), to.duplicate())?;
            put_block(out, from, to, Branch::Main, b)
        }
        _ => put_alone(out, from.duplicate(), to.duplicate()),
    }
}
