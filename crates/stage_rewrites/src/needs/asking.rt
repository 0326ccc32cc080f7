//! What is asked of the accesses of a statement.
ghost use Rattle.std.specs.Prelude.{◌≡◌, ◌==◌, cond, [], ◌++◌, map, IfOk, OnOk};
ghost use Rattle.exo_tree.specs.PlainArgument.{argument};
ghost use Rattle.exo_tree.specs.PlainControl.{control, coordinate};
ghost use Rattle.exo_tree.specs.PlainDatum.{datum};
ghost use Rattle.exo_tree.specs.PlainStatement.{statement};
ghost use Rattle.buffer_laws.specs.StageMem.{asked_of_indices, asked_of_coords};
ghost use Rattle.buffer_laws.specs.StageMem.{asked_of_datum, asked_of_arguments};
ghost use Rattle.buffer_laws.specs.StageMem.{asked_of_statement};
ghost use Rattle.stage_rewrites.specs.Needs.Single.{asked_of_store, asked_of_argument};
ghost use Rattle.match_laws.specs.Names.{whole_of};

use crate::needs::sides::{push_coords, push_indices};
use exo_tree::{Arg, Conds, Coord, Coords, Ctrl, DataExpr, Id, Indices, Stmt};
use std::alloc::{AllocError, Global};

/// The window of all of a buffer of these dimensions.
fn whole_coords(alloc: Global, dims: &[Ctrl]) -> Result<Coords, AllocError>
    ensures { IfOk result (λ cs. cs ≡ whole_of (map control dims.now)) }
{
    let mut coords = Coords::new(alloc);
    for d in dims {
        coords.push(Coord::Span(Ctrl::Lit(0), d.duplicate(alloc)?))?;
    }
    Ok(coords)
}

/// Of which name accesses are looked for, its dimensions, and the window in which they are to lie.
#[derive(Clone, Copy)]
pub(crate) struct Asking<'a> {
    pub(crate) x: Id,
    pub(crate) dims: &'a [Ctrl],
    pub(crate) window: &'a [Coord],
}

impl Asking<'_> {
    /// What is asked of an access of the cell of a name.
    #[tactic(auto, using(crate::proofs::OfNeeds::Pairs::of_it, crate::proofs::OfNeeds::Pairs::of_another))]
    fn push_cell(
        &self,
        alloc: Global,
        asked: &mut Conds,
        y: Id,
        at: &Indices,
    ) -> Result<(), AllocError>
        ensures { OnOk result (asked.new ≡ asked.old ++ cond (y.0 == self.now.x.0)
            (asked_of_indices (map coordinate self.now.window.now) at.now) []) }
    {
        if y.0 == self.x.0 {
            return push_indices(alloc, asked, self.window, at.as_slice());
        }
        Ok(())
    }

    /// What is asked of a window of a name.
    #[tactic(auto, using(crate::proofs::OfNeeds::Pairs::of_it, crate::proofs::OfNeeds::Pairs::of_another))]
    fn push_window(
        &self,
        alloc: Global,
        asked: &mut Conds,
        y: Id,
        at: &Coords,
    ) -> Result<(), AllocError>
        ensures { OnOk result (asked.new ≡ asked.old ++ cond (y.0 == self.now.x.0)
            (asked_of_coords (map coordinate self.now.window.now) at.now) []) }
    {
        if y.0 == self.x.0 {
            return push_coords(alloc, asked, self.window, at.as_slice());
        }
        Ok(())
    }

    /// What is asked of the reads of an expression.
    fn push_reads(&self, alloc: Global, asked: &mut Conds, e: &DataExpr) -> Result<(), AllocError>
        ensures { OnOk result (asked.new ≡ asked.old ++ asked_of_datum self.now.x.0
            (map control self.now.dims.now) (map coordinate self.now.window.now) (datum e.now)) }
    {
        match e {
            DataExpr::Lit(_) => Ok(()),
            DataExpr::Read(y, at) => self.push_cell(alloc, asked, *y, at),
            DataExpr::Neg(a) => self.push_reads(alloc, asked, a),
            DataExpr::Relu(a) => self.push_reads(alloc, asked, a),
            DataExpr::Add(a, b) => {
                self.push_reads(alloc, asked, a)?;
                self.push_reads(alloc, asked, b)
            }
            DataExpr::Sub(a, b) => {
                self.push_reads(alloc, asked, a)?;
                self.push_reads(alloc, asked, b)
            }
            DataExpr::Mul(a, b) => {
                self.push_reads(alloc, asked, a)?;
                self.push_reads(alloc, asked, b)
            }
            DataExpr::Select(a, b, c, d) => {
                self.push_reads(alloc, asked, a)?;
                self.push_reads(alloc, asked, b)?;
                self.push_reads(alloc, asked, c)?;
                self.push_reads(alloc, asked, d)
            }
        }
    }

    /// What is asked of a store and of the reads of its right side.
    fn push_store(
        &self,
        alloc: Global,
        asked: &mut Conds,
        y: Id,
        at: &Indices,
        e: &DataExpr,
    ) -> Result<(), AllocError>
        ensures { OnOk result (asked.new ≡ asked.old ++ asked_of_store self.now.x.0
            (map control self.now.dims.now) (map coordinate self.now.window.now) y.0 at.now
            (datum e.now)) }
    {
        self.push_cell(alloc, asked, y, at)?;
        self.push_reads(alloc, asked, e)
    }

    /// What is asked of an argument.
    fn push_argument(&self, alloc: Global, asked: &mut Conds, a: &Arg) -> Result<(), AllocError>
        ensures { OnOk result (asked.new ≡ asked.old ++ asked_of_argument self.now.x.0
            (map control self.now.dims.now) (map coordinate self.now.window.now)
            (argument a.now)) }
    {
        match a {
            Arg::Ctrl(_) => Ok(()),
            Arg::Cond(_) => Ok(()),
            Arg::Whole(y) => {
                let all = whole_coords(alloc, self.dims)?;
                self.push_window(alloc, asked, *y, &all)
            }
            Arg::Window(y, at) => self.push_window(alloc, asked, *y, at),
        }
    }

    /// What is asked of arguments.
    #[tactic(auto, using(crate::proofs::OfNeeds::Pairs::argument_more))]
    fn push_arguments(
        &self,
        alloc: Global,
        asked: &mut Conds,
        args: &[Arg],
    ) -> Result<(), AllocError>
        ensures { OnOk result (asked.new ≡ asked.old ++ asked_of_arguments self.now.x.0
            (map control self.now.dims.now) (map coordinate self.now.window.now)
            (map argument args.now)) }
    {
        match args.split_first() {
            None => Ok(()),
            Some((a, rest)) => {
                self.push_argument(alloc, asked, a)?;
                self.push_arguments(alloc, asked, rest)
            }
        }
    }

    /// What is asked of a statement itself.
    pub(crate) fn push_own(
        &self,
        alloc: Global,
        asked: &mut Conds,
        s: &Stmt,
    ) -> Result<(), AllocError>
        ensures { OnOk result (asked.new ≡ asked.old ++ asked_of_statement self.now.x.0
            (map control self.now.dims.now) (map coordinate self.now.window.now)
            (statement s.now)) }
    {
        match s {
            Stmt::Assign(y, at, e) => self.push_store(alloc, asked, *y, at, e),
            Stmt::Reduce(y, at, e) => self.push_store(alloc, asked, *y, at, e),
            Stmt::View(_, y, at) => self.push_window(alloc, asked, *y, at),
            Stmt::Call(_, args) => self.push_arguments(alloc, asked, args.as_slice()),
            Stmt::Config(_, _) | Stmt::Pass | Stmt::Alloc(_, _, _, _) => Ok(()),
            Stmt::If(_, _, _) | Stmt::For(_, _, _, _) => Ok(()),
        }
    }
}
