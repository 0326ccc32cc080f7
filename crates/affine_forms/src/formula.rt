//! Formulas over atoms: what is known and what is claimed of control values.
ghost use Rattle.std.specs.Prelude.{◌≡◌, IfOk, IsTrue, pos, negsuc};
ghost use Rattle.affine_forms.specs.Atoms.{constantly, only};
ghost use Rattle.affine_forms.specs.Formulas as plain;
ghost use Rattle.affine_forms.specs.Formulas.{row, less, at_most, equal, moved, negation};
ghost use Rattle.affine_forms.specs.TermBounds.{is_kept_atom};
ghost use Rattle.affine_forms.specs.PlainAtoms.{plain_atom};
ghost use Rattle.affine_forms.specs.PlainFormulas.{plain_formula};

use crate::atom::Atom;
use crate::linear::Linear;
use crate::sum::{Equation, Sum};
use std::alloc::{AllocError, Global};

/// What holds of atoms.
pub enum Formula {
    /// A row: the sum is at least 0.
    AtLeastZero(Sum),
    /// An equation: the sum is 0.
    IsZero(Equation),
    /// Both hold.
    Both(Box<Formula>, Box<Formula>),
    /// One of them holds.
    Either(Box<Formula>, Box<Formula>),
}

impl Drop for Formula {
    fn drop(self) {
        match self {
            Self::AtLeastZero(_) | Self::IsZero(_) | Self::Both(_, _) | Self::Either(_, _) => {}
        }
    }
}

impl Formula {
    /// What always holds: the constant row 0.
    pub fn always(alloc: Global) -> Formula
        ensures { plain_formula result ≡ row (constantly (pos 0)) }
    {
        Formula::AtLeastZero(Sum::number(alloc, 0))
    }

    /// What never holds: the constant row -1.
    pub fn never(alloc: Global) -> Formula
        ensures { plain_formula result ≡ row (constantly (negsuc 0)) }
    {
        Formula::AtLeastZero(Sum::number(alloc, -1))
    }

    /// An atom of kind bool is set: the row of the atom less 1.
    pub fn is_set(alloc: Global, atom: Atom) -> Result<Formula, AllocError>
        requires { IsTrue (is_kept_atom (plain_atom atom)) }
        ensures { IfOk result (λ f. plain_formula f ≡ row (moved (pos 1) (only (plain_atom atom)))) }
    {
        Ok(Formula::AtLeastZero(Sum::less_one(alloc, atom)?))
    }

    /// The first form is less than the second.
    pub fn less(alloc: Global, a: &Linear, b: &Linear) -> Result<Formula, AllocError>
        ensures { IfOk result (λ f. plain_formula f ≡ less a.now b.now) }
    {
        Ok(Formula::AtLeastZero(Sum::strict_difference(alloc, b, a)?))
    }

    /// The first form is at most the second.
    pub fn at_most(alloc: Global, a: &Linear, b: &Linear) -> Result<Formula, AllocError>
        ensures { IfOk result (λ f. plain_formula f ≡ at_most a.now b.now) }
    {
        Ok(Formula::AtLeastZero(Sum::difference(alloc, b, a)?))
    }

    /// The forms have one value.
    pub fn equal(alloc: Global, a: &Linear, b: &Linear) -> Result<Formula, AllocError>
        ensures { IfOk result (λ f. plain_formula f ≡ equal a.now b.now) }
    {
        Ok(Formula::IsZero(Equation::difference(alloc, a, b)?))
    }

    /// Both formulas hold.
    pub fn both(alloc: Global, f: Formula, g: Formula) -> Result<Formula, AllocError>
        ensures { IfOk result (λ h. plain_formula h ≡ plain.Both (plain_formula f) (plain_formula g)) }
    {
        let left = Box::new(alloc, f)?;
        Ok(Formula::Both(left, Box::new(alloc, g)?))
    }

    /// One of the formulas holds.
    pub fn either(alloc: Global, f: Formula, g: Formula) -> Result<Formula, AllocError>
        ensures { IfOk result (λ h. plain_formula h ≡ plain.Either (plain_formula f) (plain_formula g)) }
    {
        let left = Box::new(alloc, f)?;
        Ok(Formula::Either(left, Box::new(alloc, g)?))
    }

    /// The formula that holds where this one does not: a row's opposite less 1, for an equation less or greater,
    /// and `either` and `both` exchanged.
    pub fn negated(&self, alloc: Global) -> Result<Formula, AllocError>
        ensures { IfOk result (λ f. plain_formula f ≡ negation (plain_formula self.now)) }
    {
        match self {
            Formula::AtLeastZero(sum) => Ok(Formula::AtLeastZero(sum.denied(alloc)?)),
            Formula::IsZero(sum) => {
                let less = sum.below(alloc)?;
                let above = Formula::AtLeastZero(sum.above(alloc)?);
                let below = Formula::AtLeastZero(less);
                Formula::either(alloc, below, above)
            }
            Formula::Both(f, g) => {
                let left = f.negated(alloc)?;
                let right = g.negated(alloc)?;
                Formula::either(alloc, left, right)
            }
            Formula::Either(f, g) => {
                let left = f.negated(alloc)?;
                let right = g.negated(alloc)?;
                Formula::both(alloc, left, right)
            }
        }
    }
}
