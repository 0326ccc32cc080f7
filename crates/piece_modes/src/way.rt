//! Names on the way to a place: which are bound there, and the buffers for which they stand.
ghost use Rattle.std.specs.Prelude.{◌≡◌, ◌≤◌, ◌∷◌, [], length, map, take, IfOk, OnOk};
ghost use Rattle.exo_tree.specs.Tree.{block};
ghost use Rattle.exo_tree.specs.Tree as tree;
ghost use Rattle.exo_tree.specs.Places.{opened, opened_in};
ghost use Rattle.exo_tree.specs.PlainParam.{parameter};
ghost use Rattle.exo_tree.specs.PlainPlace.{step_taken};
ghost use Rattle.exo_tree.specs.PlainProcedure.{procedure};
ghost use Rattle.exo_tree.specs.PlainStatement.{statement};
ghost use Rattle.piece_modes.specs.Way as plain;
ghost use Rattle.piece_modes.specs.Way.{LeadsTo};
ghost use Rattle.piece_modes.specs.PlainWay.{plain_way};

use exo_modes::{Alias, root, set_root};
use exo_tree::{Block, Branch, Param, Path, Proc, Step, Stmt};
use std::alloc::{AllocError, Global};

/// Names on the way to a place.
#[derive(Drop)]
pub(crate) struct Way {
    /// Names that stand for parts of buffers with other names.
    pub(crate) aliases: Vec<Alias>,
    /// The names that are bound.
    pub(crate) names: Vec<u32>,
}

/// The ids of parameters.
fn ids_of(alloc: Global, params: &[Param]) -> Result<Vec<u32>, AllocError>
    ensures { IfOk result
        (λ v. v.items ≡ map (λ (q : tree.Param). q.binder.id) (map parameter params.now)) }
{
    let mut ids = Vec::new(alloc);
    for p in params {
        ids.push(p.binder.id.0)?;
    }
    Ok(ids)
}

impl Way {
    /// At the start of a body.
    fn at_start(alloc: Global, params: &[Param]) -> Result<Way, AllocError>
        ensures { IfOk result (λ w. plain_way w ≡ plain.at_start (map parameter params.now)) }
    {
        let names = ids_of(alloc, params)?;
        let aliases = Vec::new(alloc);
        Ok(Way { aliases, names })
    }

    /// Past a statement.
    fn pass(&mut self, s: &Stmt) -> Result<(), AllocError>
        ensures { OnOk result
            (plain_way self.new ≡ plain.passed (statement s.now) (plain_way self.old)) }
    {
        match s {
            Stmt::Alloc(x, _, _, _) => {
                set_root(&mut self.aliases, x.id.0, x.id.0)?;
                self.names.push(x.id.0)?;
                Ok(())
            }
            Stmt::View(w, x, _) => {
                let buffer = root(&self.aliases, x.0);
                set_root(&mut self.aliases, w.id.0, buffer)?;
                self.names.push(w.id.0)?;
                Ok(())
            }
            _ => Ok(()),
        }
    }

    /// Into a block of a statement.
    fn enter(&mut self, s: &Stmt) -> Result<(), AllocError>
        ensures { OnOk result
            (plain_way self.new ≡ plain.entered (statement s.now) (plain_way self.old)) }
    {
        match s {
            Stmt::For(i, _, _, _) => {
                self.names.push(i.id.0)?;
                Ok(())
            }
            _ => Ok(()),
        }
    }

    /// Past the first statements of a block.
    fn pass_first(&mut self, b: &Block, to: usize) -> Result<(), AllocError>
        requires { to ≤ length b.now }
        ensures { OnOk result
            (plain_way self.new ≡ plain.passed_all (take to b.now) (plain_way self.old)) }
    {
        for k in 0..to {
            self.pass(b.statement(k))?;
        }
        Ok(())
    }

    /// To so many statements of a block; false exactly where they are not there.
    fn arrive(&mut self, b: &Block, step: Step, count: usize) -> Result<bool, AllocError>
        ensures { IfOk result (λ there.
            LeadsTo (opened_in count (step_taken step ∷ []) (block b.now)) there
            (plain_way self.old)
            (plain_way self.new)) }
    {
        let from = step.index as usize;
        if from > b.len() || count > b.len() - from {
            return Ok(false);
        }
        self.pass_first(b, from)?;
        Ok(true)
    }

    /// Down to so many statements from a path on; false exactly where they are not there.
    #[cycle(descend)]
    fn descend(
        &mut self,
        b: &Block,
        step: Step,
        rest: &[Step],
        count: usize,
    ) -> Result<bool, AllocError>
        ensures { IfOk result (λ there. LeadsTo
            (opened_in count (step_taken step ∷ map step_taken rest.now) (block b.now)) there
            (plain_way self.old)
            (plain_way self.new)) }
    {
        let Some((next, more)) = rest.split_first() else {
            return self.arrive(b, step, count);
        };
        let index = step.index as usize;
        let Some(s) = b.get(index) else {
            return Ok(false);
        };
        let Some(inner) = s.block(next.branch) else {
            return Ok(false);
        };
        self.pass_first(b, index)?;
        self.enter(s)?;
        self.descend(inner, *next, more, count)
    }

    /// To so many statements of a body from a path on; false exactly where they are not there.
    fn find(&mut self, body: &Block, path: &Path, count: usize) -> Result<bool, AllocError>
        ensures { IfOk result (λ there. LeadsTo (opened count path.now (block body.now)) there
            (plain_way self.old) (plain_way self.new)) }
    {
        let Some((step, rest)) = path.as_slice().split_first() else {
            return Ok(false);
        };
        match step.branch {
            Branch::Main => self.descend(body, *step, rest, count),
            Branch::Else => Ok(false),
        }
    }

    /// The way to so many statements of a procedure from a path on; where they are not there, that
    /// to the start of its body.
    pub(crate) fn to(alloc: Global, p: &Proc, path: &Path, count: u32) -> Result<Way, AllocError>
        ensures { IfOk result (λ w. plain_way w ≡ plain.way_to count path.now (procedure p.now)) }
    {
        let mut way = Way::at_start(alloc, p.params.as_slice())?;
        if way.find(&p.body, path, count as usize)? {
            return Ok(way);
        }
        Way::at_start(alloc, p.params.as_slice())
    }
}
