//! New ids for those of a procedure.
ghost use Rattle.std.specs.Prelude.{◌≡◌, map, IfOk, OnOk};
ghost use Rattle.exo_tree.specs.Tree.{block};
ghost use Rattle.exo_tree.specs.PlainParam.{parameter};
ghost use Rattle.exo_tree.specs.PlainProcedure.{procedure};
ghost use Rattle.exo_tree.specs.PlainStatement.{statement};
ghost use Rattle.exo_tree.specs.Renaming.{binders, binders_below};
ghost use Rattle.match_laws.specs.Inline.FreshCallee.{ids_of};
ghost use Rattle.match_laws.specs.Inline.InlineRule.{param_ids};
ghost use Rattle.call_rewrites.specs.Numbered.{numbered_from, with_id, with_ids, number_of};
ghost use Rattle.call_rewrites.specs.PlainIds.{numbered};

use exo_tree::{Block, Id, Param, Proc, Stmt};
use indexmap::IndexMap;
use std::alloc::{AllocError, Global};

/// The ids that were met, each with its new number; each later one is given the next.
pub(crate) struct NewIds {
    pub(crate) table: IndexMap<u32, u32>,
    pub(crate) next: u32,
}

impl Drop for NewIds {
    fn drop(self) {
        let Self { table: _, next: _ } = self;
    }
}

impl NewIds {
    /// No id was met. The first one will get that number.
    fn starting(alloc: Global, first: u32) -> NewIds
        ensures { numbered result ≡ numbered_from first }
    {
        NewIds {
            table: IndexMap::new(alloc),
            next: first,
        }
    }

    /// An id that is met: where it comes again it keeps its number. Numbers that the program
    /// cannot hold are answered as want of memory.
    #[tactic(auto, unfolding(crate::specs::Numbered::with_id))]
    fn meet(&mut self, x: Id) -> Result<(), AllocError>
        ensures { OnOk result (numbered self.new ≡ with_id x.0 (numbered self.old)) }
    {
        let Some(next) = self.next.checked_add(1) else {
            return Err(AllocError);
        };
        if self.table.get(&x.0).is_none() {
            self.table.insert(x.0, self.next)?;
        }
        self.next = next;
        Ok(())
    }

    /// The new number of an id; one that was not met stays.
    pub(crate) fn id(&self, x: Id) -> Id
        ensures { result.0 ≡ number_of (numbered self.now) x.0 }
    {
        match self.table.get(&x.0) {
            Some(n) => Id(*n),
            None => x,
        }
    }

    /// The ids that a block binds are met in preorder.
    #[cycle(binders)]
    #[tactic(auto, using(crate::proofs::Numbers::met_both))]
    fn meet_block(&mut self, b: &Block) -> Result<(), AllocError>
        ensures { OnOk result (numbered self.new
            ≡ with_ids (binders (block b.now)) (numbered self.old)) }
    {
        for k in 0..b.len() {
            self.meet_statement(b.statement(k))?;
        }
        Ok(())
    }

    /// The same of one statement.
    #[cycle(binders)]
    #[tactic(auto, using(crate::proofs::Numbers::met_both, crate::proofs::Numbers::met_first, crate::proofs::Numbers::met_one))]
    fn meet_statement(&mut self, s: &Stmt) -> Result<(), AllocError>
        ensures { OnOk result (numbered self.new
            ≡ with_ids (binders_below (statement s.now)) (numbered self.old)) }
    {
        match s {
            Stmt::If(_, a, b) => {
                self.meet_block(a)?;
                self.meet_block(b)?;
                Ok(())
            }
            Stmt::For(i, _, _, b) => {
                self.meet(i.id)?;
                self.meet_block(b)?;
                Ok(())
            }
            Stmt::Alloc(x, _, _, _) | Stmt::View(x, _, _) => {
                self.meet(x.id)?;
                Ok(())
            }
            _ => Ok(()),
        }
    }

    /// The ids of parameters are met.
    #[tactic(auto, using(crate::proofs::Numbers::met_first))]
    fn meet_params(&mut self, params: &[Param]) -> Result<(), AllocError>
        ensures { OnOk result (numbered self.new
            ≡ with_ids (param_ids (map parameter params.now)) (numbered self.old)) }
    {
        match params.split_first() {
            None => Ok(()),
            Some((p, rest)) => {
                self.meet(p.binder.id)?;
                self.meet_params(rest)?;
                Ok(())
            }
        }
    }

    /// New ids for all of a procedure: for the binders of its body in preorder, and behind them for
    /// its parameters.
    #[tactic(auto, using(crate::proofs::Numbers::met_both))]
    pub(crate) fn of(alloc: Global, first: u32, q: &Proc) -> Result<NewIds, AllocError>
        ensures { IfOk result (λ t. numbered t
            ≡ with_ids (ids_of (procedure q.now)) (numbered_from first)) }
    {
        let mut ids = NewIds::starting(alloc, first);
        ids.meet_block(&q.body)?;
        ids.meet_params(q.params.as_slice())?;
        Ok(ids)
    }
}
