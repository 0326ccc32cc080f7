//! Copies of expressions and arguments with other names, or with expressions for variables.
ghost use Rattle.std.specs.Prelude.{◌≡◌, map, IfOk};
ghost use Rattle.exo_tree.specs.PlainControl.{control, condition, coordinate};
ghost use Rattle.exo_tree.specs.PlainDatum.{datum};
ghost use Rattle.exo_tree.specs.PlainArgument.{argument};
ghost use Rattle.exo_tree.specs.Mapped.{mapped_control, mapped_condition, mapped_datum};
ghost use Rattle.exo_tree.specs.Mapped.{mapped_coord, mapped_argument};

use crate::argument::{Arg, Args};
use crate::control::{Cond, Coord, Ctrl};
use crate::data::DataExpr;
use crate::leaves::Leaves;
use crate::list::{Coords, Indices};
use std::alloc::{AllocError, Global};

impl Ctrl {
    /// A copy with what stands for its names.
    #[cycle(mapped)]
    pub fn mapped<L: Leaves>(&self, alloc: Global, leaves: &L) -> Result<Ctrl, AllocError>
        ensures { IfOk result (λ e. control e
            ≡ mapped_control (L.leaves leaves.now) (control self.now)) }
    {
        match self {
            Ctrl::Lit(n) => Ok(Ctrl::Lit(*n)),
            Ctrl::Var(x) => leaves.variable(alloc, *x),
            Ctrl::Field(f) => Ok(Ctrl::Field(*f)),
            Ctrl::Stride(x, k) => Ok(Ctrl::Stride(leaves.name(*x), *k)),
            Ctrl::Neg(a) => Ok(Ctrl::Neg(a.boxed(alloc, leaves)?)),
            Ctrl::Add(a, b) => {
                let (left, right) = a.boxed_with(alloc, leaves, b)?;
                Ok(Ctrl::Add(left, right))
            }
            Ctrl::Sub(a, b) => {
                let (left, right) = a.boxed_with(alloc, leaves, b)?;
                Ok(Ctrl::Sub(left, right))
            }
            Ctrl::Mul(a, b) => {
                let (left, right) = a.boxed_with(alloc, leaves, b)?;
                Ok(Ctrl::Mul(left, right))
            }
            Ctrl::Div(a, n) => Ok(Ctrl::Div(a.boxed(alloc, leaves)?, *n)),
            Ctrl::Mod(a, n) => Ok(Ctrl::Mod(a.boxed(alloc, leaves)?, *n)),
        }
    }

    /// The same in a box.
    #[cycle(mapped)]
    fn boxed<L: Leaves>(&self, alloc: Global, leaves: &L) -> Result<Box<Ctrl>, AllocError>
        ensures { IfOk result (λ e. control e.value
            ≡ mapped_control (L.leaves leaves.now) (control self.now)) }
    {
        Ok(Box::new(alloc, self.mapped(alloc, leaves)?)?)
    }

    /// The same of this expression and another.
    #[cycle(mapped)]
    fn boxed_with<L: Leaves>(
        &self,
        alloc: Global,
        leaves: &L,
        other: &Ctrl,
    ) -> Result<(Box<Ctrl>, Box<Ctrl>), AllocError>
        ensures first { IfOk result (λ p. control p.0.value
            ≡ mapped_control (L.leaves leaves.now) (control self.now)) }
        ensures second { IfOk result (λ p. control p.1.value
            ≡ mapped_control (L.leaves leaves.now) (control other.now)) }
    {
        let first = self.boxed(alloc, leaves)?;
        Ok((first, other.boxed(alloc, leaves)?))
    }

    /// Copies of this expression and another.
    pub(crate) fn mapped_with<L: Leaves>(
        &self,
        alloc: Global,
        leaves: &L,
        other: &Ctrl,
    ) -> Result<(Ctrl, Ctrl), AllocError>
        ensures first { IfOk result (λ p. control p.0
            ≡ mapped_control (L.leaves leaves.now) (control self.now)) }
        ensures second { IfOk result (λ p. control p.1
            ≡ mapped_control (L.leaves leaves.now) (control other.now)) }
    {
        let first = self.mapped(alloc, leaves)?;
        Ok((first, other.mapped(alloc, leaves)?))
    }
}

impl Cond {
    /// A copy with what stands for its names.
    #[cycle(mapped)]
    pub fn mapped<L: Leaves>(&self, alloc: Global, leaves: &L) -> Result<Cond, AllocError>
        ensures { IfOk result (λ c. condition c
            ≡ mapped_condition (L.leaves leaves.now) (condition self.now)) }
    {
        match self {
            Cond::True => Ok(Cond::True),
            Cond::False => Ok(Cond::False),
            Cond::Var(x) => Ok(Cond::Var(leaves.name(*x))),
            Cond::Field(f) => Ok(Cond::Field(*f)),
            Cond::Lt(a, b) => {
                let (left, right) = a.mapped_with(alloc, leaves, b)?;
                Ok(Cond::Lt(left, right))
            }
            Cond::Le(a, b) => {
                let (left, right) = a.mapped_with(alloc, leaves, b)?;
                Ok(Cond::Le(left, right))
            }
            Cond::Gt(a, b) => {
                let (left, right) = a.mapped_with(alloc, leaves, b)?;
                Ok(Cond::Gt(left, right))
            }
            Cond::Ge(a, b) => {
                let (left, right) = a.mapped_with(alloc, leaves, b)?;
                Ok(Cond::Ge(left, right))
            }
            Cond::Eq(a, b) => {
                let (left, right) = a.mapped_with(alloc, leaves, b)?;
                Ok(Cond::Eq(left, right))
            }
            Cond::And(a, b) => {
                let (left, right) = a.boxed_with(alloc, leaves, b)?;
                Ok(Cond::And(left, right))
            }
            Cond::Or(a, b) => {
                let (left, right) = a.boxed_with(alloc, leaves, b)?;
                Ok(Cond::Or(left, right))
            }
        }
    }

    /// The same in a box.
    #[cycle(mapped)]
    fn boxed<L: Leaves>(&self, alloc: Global, leaves: &L) -> Result<Box<Cond>, AllocError>
        ensures { IfOk result (λ c. condition c.value
            ≡ mapped_condition (L.leaves leaves.now) (condition self.now)) }
    {
        Ok(Box::new(alloc, self.mapped(alloc, leaves)?)?)
    }

    /// The same of this condition and another.
    #[cycle(mapped)]
    fn boxed_with<L: Leaves>(
        &self,
        alloc: Global,
        leaves: &L,
        other: &Cond,
    ) -> Result<(Box<Cond>, Box<Cond>), AllocError>
        ensures first { IfOk result (λ p. condition p.0.value
            ≡ mapped_condition (L.leaves leaves.now) (condition self.now)) }
        ensures second { IfOk result (λ p. condition p.1.value
            ≡ mapped_condition (L.leaves leaves.now) (condition other.now)) }
    {
        let first = self.boxed(alloc, leaves)?;
        Ok((first, other.boxed(alloc, leaves)?))
    }
}

impl Coord {
    /// A copy with what stands for its names.
    pub fn mapped<L: Leaves>(&self, alloc: Global, leaves: &L) -> Result<Coord, AllocError>
        ensures { IfOk result (λ c. coordinate c
            ≡ mapped_coord (L.leaves leaves.now) (coordinate self.now)) }
    {
        match self {
            Coord::At(a) => Ok(Coord::At(a.mapped(alloc, leaves)?)),
            Coord::Span(a, b) => {
                let (low, high) = a.mapped_with(alloc, leaves, b)?;
                Ok(Coord::Span(low, high))
            }
        }
    }
}

impl DataExpr {
    /// A copy with what stands for its names.
    #[cycle(mapped)]
    pub fn mapped<L: Leaves>(&self, alloc: Global, leaves: &L) -> Result<DataExpr, AllocError>
        ensures { IfOk result (λ e. datum e ≡ mapped_datum (L.leaves leaves.now) (datum self.now)) }
    {
        match self {
            DataExpr::Lit(n) => Ok(DataExpr::Lit(*n)),
            DataExpr::Read(x, at) => Ok(DataExpr::Read(leaves.name(*x), at.mapped(alloc, leaves)?)),
            DataExpr::Neg(a) => Ok(DataExpr::Neg(a.boxed(alloc, leaves)?)),
            DataExpr::Add(a, b) => {
                let (left, right) = a.boxed_with(alloc, leaves, b)?;
                Ok(DataExpr::Add(left, right))
            }
            DataExpr::Sub(a, b) => {
                let (left, right) = a.boxed_with(alloc, leaves, b)?;
                Ok(DataExpr::Sub(left, right))
            }
            DataExpr::Mul(a, b) => {
                let (left, right) = a.boxed_with(alloc, leaves, b)?;
                Ok(DataExpr::Mul(left, right))
            }
            DataExpr::Relu(a) => Ok(DataExpr::Relu(a.boxed(alloc, leaves)?)),
            DataExpr::Select(x, v, y, z) => {
                let (x, v) = x.boxed_with(alloc, leaves, v)?;
                let (y, z) = y.boxed_with(alloc, leaves, z)?;
                Ok(DataExpr::Select(x, v, y, z))
            }
        }
    }

    /// The same in a box.
    #[cycle(mapped)]
    fn boxed<L: Leaves>(&self, alloc: Global, leaves: &L) -> Result<Box<DataExpr>, AllocError>
        ensures { IfOk result (λ e. datum e.value
            ≡ mapped_datum (L.leaves leaves.now) (datum self.now)) }
    {
        Ok(Box::new(alloc, self.mapped(alloc, leaves)?)?)
    }

    /// The same of this expression and another.
    #[cycle(mapped)]
    fn boxed_with<L: Leaves>(
        &self,
        alloc: Global,
        leaves: &L,
        other: &DataExpr,
    ) -> Result<(Box<DataExpr>, Box<DataExpr>), AllocError>
        ensures first { IfOk result (λ p. datum p.0.value
            ≡ mapped_datum (L.leaves leaves.now) (datum self.now)) }
        ensures second { IfOk result (λ p. datum p.1.value
            ≡ mapped_datum (L.leaves leaves.now) (datum other.now)) }
    {
        let first = self.boxed(alloc, leaves)?;
        Ok((first, other.boxed(alloc, leaves)?))
    }
}

impl Arg {
    /// A copy with what stands for its names.
    pub fn mapped<L: Leaves>(&self, alloc: Global, leaves: &L) -> Result<Arg, AllocError>
        ensures { IfOk result (λ a. argument a
            ≡ mapped_argument (L.leaves leaves.now) (argument self.now)) }
    {
        match self {
            Arg::Ctrl(a) => Ok(Arg::Ctrl(a.mapped(alloc, leaves)?)),
            Arg::Cond(c) => Ok(Arg::Cond(c.mapped(alloc, leaves)?)),
            Arg::Whole(x) => Ok(Arg::Whole(leaves.name(*x))),
            Arg::Window(x, at) => Ok(Arg::Window(leaves.name(*x), at.mapped(alloc, leaves)?)),
        }
    }
}

impl Indices {
    /// A copy with what stands for its names.
    pub fn mapped<L: Leaves>(&self, alloc: Global, leaves: &L) -> Result<Indices, AllocError>
        ensures { IfOk result (λ l. l ≡ map (mapped_control (L.leaves leaves.now)) self.now) }
    {
        let mut made = Indices::new(alloc);
        for item in self.as_slice() {
            made.push(item.mapped(alloc, leaves)?)?;
        }
        Ok(made)
    }
}

impl Coords {
    /// A copy with what stands for its names.
    pub fn mapped<L: Leaves>(&self, alloc: Global, leaves: &L) -> Result<Coords, AllocError>
        ensures { IfOk result (λ l. l ≡ map (mapped_coord (L.leaves leaves.now)) self.now) }
    {
        let mut made = Coords::new(alloc);
        for item in self.as_slice() {
            made.push(item.mapped(alloc, leaves)?)?;
        }
        Ok(made)
    }
}

impl Args {
    /// A copy with what stands for its names.
    pub fn mapped<L: Leaves>(&self, alloc: Global, leaves: &L) -> Result<Args, AllocError>
        ensures { IfOk result (λ l. l ≡ map (mapped_argument (L.leaves leaves.now)) self.now) }
    {
        let mut made = Args::new(alloc);
        for item in self.as_slice() {
            made.push(item.mapped(alloc, leaves)?)?;
        }
        Ok(made)
    }
}
