//! Pairs of statements.
ghost use Rattle.std.specs.Prelude.{◌≡◌, false, ◌++◌, map, IfOk, OnOk};
ghost use Rattle.exo_tree.specs.Places as places;
ghost use Rattle.exo_tree.specs.PlainPlace.{branch_taken};
ghost use Rattle.exo_tree.specs.PlainStatement.{statement};
ghost use Rattle.exo_tree.specs.Tree.{block};
ghost use Rattle.exo_tree.specs.Places.{path_below};
ghost use Rattle.match_laws.specs.Pairs as plain;
ghost use Rattle.block_matches.specs.Pairs.PlainPair.{plain_pair};
ghost use Rattle.block_matches.specs.Pairs.Walks.{below, both_bind, in_walk};

use crate::pairs::pair::{Pair, push, push_numbers, push_unlike};
use crate::pairs::walk::PairWalk;
use exo_tree::{Block, Branch, Path, Step, Stmt};
use std::alloc::{AllocError, Global};

/// The path of a statement in a branch of the statement at a path. Where no path leads there it is
/// answered as want of memory.
fn into(outer: &Path, branch: Branch, index: usize) -> Result<Path, AllocError>
    ensures { IfOk result (λ p. p ≡ path_below outer.now (branch_taken branch) index) }
{
    if outer.len() == 32 || index > 4294967295 {
        return Err(AllocError);
    }
    let mut path = outer.duplicate();
    path.push(Step {
        branch,
        index: index as u32,
    });
    Ok(path)
}

impl PairWalk<'_> {
    /// Two blocks, in a branch of the statement at a path.
    #[cycle(walk)]
    pub(crate) fn push_block<'b>(
        &self,
        alloc: Global,
        out: &mut Vec<Pair<'b>>,
        outer: &Path,
        branch: Branch,
        body: &'b Block,
        against: &'b Block,
    ) -> Result<(), AllocError>
        ensures { OnOk result (map plain_pair out.new.items
            ≡ map plain_pair out.old.items ++ in_walk plain.blocks_paired self.now
            (below outer.now) (branch_taken branch) 0 (block body.now) (block against.now)) }
    {
        let common = body.len().min(against.len());
        for k in 0..common {
            let at = into(outer, branch, k)?;
            let s = body.statement(k);
            let t = against.statement(k);
            self.push_statement(alloc, out, &at, s, t)?;
        }
        if body.len() == against.len() {
            return Ok(());
        }
        let at = into(outer, branch, common)?;
        push_unlike(out, &at)
    }

    /// Two statements, the first at a path.
    #[cycle(walk)]
    fn push_statement<'b>(
        &self,
        alloc: Global,
        out: &mut Vec<Pair<'b>>,
        at: &Path,
        s: &'b Stmt,
        t: &'b Stmt,
    ) -> Result<(), AllocError>
        ensures { OnOk result (map plain_pair out.new.items
            ≡ map plain_pair out.old.items ++ in_walk plain.statements_paired self.now
            (below at.now) (statement s.now) (statement t.now)) }
    {
        match (s, t) {
            (Stmt::If(c, a, b), Stmt::If(r, d, e)) => {
                push(out, Pair::Truths(at.duplicate(), false, c, r))?;
                self.push_block(alloc, out, at, Branch::Main, a, d)?;
                self.push_block(alloc, out, at, Branch::Else, b, e)
            }
            (Stmt::For(i, lo, hi, b), Stmt::For(j, l, h, d)) => {
                push_numbers(out, at, true, lo, l)?;
                push_numbers(out, at, true, hi, h)?;
                push(out, Pair::Binders(i.id, j.id))?;
                self.push_block(alloc, out, at, Branch::Main, b, d)
            }
            (Stmt::Alloc(x, cell, dims, m), Stmt::Alloc(y, other, extents, n)) => {
                if *cell != *other || m.0 != n.0 {
                    return push_unlike(out, at);
                }
                self.push_controls(out, at, dims.as_slice(), extents.as_slice())?;
                push(out, Pair::Binders(x.id, y.id))
            }
            (Stmt::View(w, x, cs), Stmt::View(v, y, ds)) => {
                self.push_windows(alloc, out, at, *x, cs, *y, ds)?;
                push(out, Pair::Binders(w.id, v.id))
            }
            _ => self.push_plain(alloc, out, at, s, t),
        }
    }

    /// Two statements of which not both bind in one form.
    fn push_plain<'b>(
        &self,
        alloc: Global,
        out: &mut Vec<Pair<'b>>,
        at: &Path,
        s: &'b Stmt,
        t: &'b Stmt,
    ) -> Result<(), AllocError>
        requires { both_bind (statement s.now) (statement t.now) ≡ false }
        ensures { OnOk result (map plain_pair out.new.items
            ≡ map plain_pair out.old.items ++ in_walk plain.statements_paired self.now
            (below at.now) (statement s.now) (statement t.now)) }
    {
        match (s, t) {
            (Stmt::Assign(x, es, e), Stmt::Assign(y, gs, d)) => {
                self.push_access(alloc, out, at, *x, es, *y, gs)?;
                self.push_data(alloc, out, at, e, d)
            }
            (Stmt::Reduce(x, es, e), Stmt::Reduce(y, gs, d)) => {
                self.push_access(alloc, out, at, *x, es, *y, gs)?;
                self.push_data(alloc, out, at, e, d)
            }
            (Stmt::Config(f, a), Stmt::Config(g, b)) if f.0 == g.0 => {
                self.push_argument(alloc, out, at, true, a, b)
            }
            (Stmt::Pass, Stmt::Pass) => Ok(()),
            (Stmt::Call(k, args), Stmt::Call(m, others)) if k.0 == m.0 => {
                self.push_arguments(alloc, out, at, args.as_slice(), others.as_slice())
            }
            _ => push_unlike(out, at),
        }
    }
}
