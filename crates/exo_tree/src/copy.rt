//! Copies of trees. A copy is the same plain tree.
ghost use Rattle.std.specs.Prelude.{◌≡◌, IfOk};
ghost use Rattle.exo_tree.specs.PlainControl.{control, condition, coordinate};
ghost use Rattle.exo_tree.specs.PlainDatum.{datum};
ghost use Rattle.exo_tree.specs.PlainArgument.{argument};
ghost use Rattle.exo_tree.specs.PlainStatement.{statement};

use crate::argument::{Arg, Args};
use crate::binder::Binder;
use crate::block::{Block, Stmt};
use crate::control::{Cond, Coord, Ctrl};
use crate::data::DataExpr;
use crate::leaves::Leaves;
use crate::list::{Coords, Indices};
use crate::number::Id;
use std::alloc::{AllocError, Global};

/// Each name stands for itself.
struct Same;

impl Leaves for Same {
    ghost use Rattle.exo_tree.specs.Mapped.{unchanged};

    ghost leaves = { λ s. unchanged };

    fn variable(&self, _alloc: Global, x: Id) -> Result<Ctrl, AllocError> {
        Ok(Ctrl::Var(x))
    }

    fn name(&self, x: Id) -> Id {
        x
    }

    fn binder(&self, alloc: Global, b: &Binder) -> Result<Binder, AllocError> {
        b.duplicate(alloc)
    }
}

impl Ctrl {
    #[tactic(auto, using(crate::proofs::Unchanged::same_control))]
    pub fn duplicate(&self, alloc: Global) -> Result<Ctrl, AllocError>
        ensures { IfOk result (λ e. control e ≡ control self.now) }
    {
        self.mapped(alloc, &Same)
    }
}

impl Cond {
    #[tactic(auto, using(crate::proofs::Unchanged::same_condition))]
    pub fn duplicate(&self, alloc: Global) -> Result<Cond, AllocError>
        ensures { IfOk result (λ c. condition c ≡ condition self.now) }
    {
        self.mapped(alloc, &Same)
    }
}

impl Coord {
    #[tactic(auto, using(crate::proofs::Unchanged::same_coord))]
    pub fn duplicate(&self, alloc: Global) -> Result<Coord, AllocError>
        ensures { IfOk result (λ c. coordinate c ≡ coordinate self.now) }
    {
        self.mapped(alloc, &Same)
    }
}

impl DataExpr {
    #[tactic(auto, using(crate::proofs::Unchanged::same_datum))]
    pub fn duplicate(&self, alloc: Global) -> Result<DataExpr, AllocError>
        ensures { IfOk result (λ e. datum e ≡ datum self.now) }
    {
        self.mapped(alloc, &Same)
    }
}

impl Arg {
    #[tactic(auto, using(crate::proofs::Unchanged::same_argument))]
    pub fn duplicate(&self, alloc: Global) -> Result<Arg, AllocError>
        ensures { IfOk result (λ a. argument a ≡ argument self.now) }
    {
        self.mapped(alloc, &Same)
    }
}

impl Indices {
    #[tactic(auto, using(crate::proofs::Unchanged::same_controls))]
    pub fn duplicate(&self, alloc: Global) -> Result<Indices, AllocError>
        ensures { IfOk result (λ l. l ≡ self.now) }
    {
        self.mapped(alloc, &Same)
    }
}

impl Coords {
    #[tactic(auto, using(crate::proofs::Unchanged::same_coords))]
    pub fn duplicate(&self, alloc: Global) -> Result<Coords, AllocError>
        ensures { IfOk result (λ l. l ≡ self.now) }
    {
        self.mapped(alloc, &Same)
    }
}

impl Args {
    #[tactic(auto, using(crate::proofs::Unchanged::same_arguments))]
    pub fn duplicate(&self, alloc: Global) -> Result<Args, AllocError>
        ensures { IfOk result (λ l. l ≡ self.now) }
    {
        self.mapped(alloc, &Same)
    }
}

impl Stmt {
    #[tactic(auto, using(crate::proofs::Unchanged::same_statement))]
    pub fn duplicate(&self, alloc: Global) -> Result<Stmt, AllocError>
        ensures { IfOk result (λ s. statement s ≡ statement self.now) }
    {
        self.mapped(alloc, &Same)
    }
}
