//! The sums of rows and equations.
ghost use Rattle.std.specs.Prelude.{◌≡◌, IfOk, IsTrue, pos, negsuc, ◌^◌};
ghost use Rattle.affine_forms.specs.Atoms as plain;
ghost use Rattle.affine_forms.specs.Atoms.{scaled, constantly, only, terms_added, present};
ghost use Rattle.affine_forms.specs.Forms.{is_within, are_within};
ghost use Rattle.affine_forms.specs.Formulas.{moved, difference, is_row_constant};
ghost use Rattle.affine_forms.specs.TermBounds.{is_kept_atom, are_distinct, are_present};
ghost use Rattle.affine_forms.specs.PlainAtoms.{plain_atom};

use crate::atom::{Atom, Terms};
use crate::linear::{Draft, Linear};
use std::alloc::{AllocError, Global};
use std::marker::Model;

/// What a row speaks of: a constant from -2^64 to 2^64 - 1, and a weighed sum with coefficients of at most 2^64 in size.
/// Each atom stands once, with a coefficient other than 0.
pub struct Sum {
    constant: i128,
    terms: Terms,
}

impl Drop for Sum {
    fn drop(self) {
        let Self {
            constant: _,
            terms: _,
        } = self;
    }
}

impl Model for Sum {
    ghost use Rattle.std.specs.Prelude.{IsTrue, ◌^◌};
    ghost use Rattle.affine_forms.specs.Atoms as plain;
    ghost use Rattle.affine_forms.specs.AtomCodes.{linear_code};
    ghost use Rattle.affine_forms.specs.Forms.{are_within};
    ghost use Rattle.affine_forms.specs.Formulas.{is_row_constant};
    ghost use Rattle.affine_forms.specs.TermBounds.{are_distinct, are_present};

    ghost Value = { plain.Linear };

    ghost coded = { linear_code };

    ghost view = { λ s. record { constant = s.constant; terms = s.terms } };

    ghost invariant = { λ s. IsTrue (is_row_constant s.constant)
        × IsTrue (are_within (2 ^ 64) s.terms)
        × IsTrue (are_distinct s.terms)
        × IsTrue (are_present s.terms) };
}

/// The terms of two forms, without those that cancel.
fn terms_left(alloc: Global, left: &Linear, opposite: &Draft) -> Result<Terms, AllocError>
    ensures value { IfOk result (λ t. t ≡ present (terms_added left.now.terms opposite.now.terms)) }
    ensures narrow { IfOk result (λ t. IsTrue (are_within (2 ^ 64) t)) }
    ensures distinct { IfOk result (λ t. IsTrue (are_distinct t)) }
    ensures present { IfOk result (λ t. IsTrue (are_present t)) }
{
    let mut terms = left.terms().duplicate(alloc)?;
    terms.add(alloc, opposite.terms())?;
    let kept = terms.present(alloc)?;
    Ok(kept)
}

impl Sum {
    /// A number alone.
    pub fn number(alloc: Global, n: i128) -> Sum
        requires { IsTrue (is_row_constant n) }
        ensures { result ≡ constantly n }
    {
        Sum {
            constant: n,
            terms: Terms::new(alloc),
        }
    }

    /// An atom less 1.
    pub fn less_one(alloc: Global, atom: Atom) -> Result<Sum, AllocError>
        requires { IsTrue (is_kept_atom (plain_atom atom)) }
        ensures { IfOk result (λ s. s ≡ moved (pos 1) (only (plain_atom atom))) }
    {
        Ok(Sum {
            constant: -1,
            terms: Terms::single(alloc, atom)?,
        })
    }

    /// One form less another.
    pub fn difference(alloc: Global, left: &Linear, right: &Linear) -> Result<Sum, AllocError>
        ensures { IfOk result (λ s. s ≡ difference left.now right.now) }
    {
        let opposite = right.negated(alloc)?;
        Ok(Sum {
            constant: left.constant() + opposite.constant(),
            terms: terms_left(alloc, left, &opposite)?,
        })
    }

    /// One form less another, less 1.
    pub fn strict_difference(
        alloc: Global,
        left: &Linear,
        right: &Linear,
    ) -> Result<Sum, AllocError>
        ensures { IfOk result (λ s. s ≡ moved (pos 1) (difference left.now right.now)) }
    {
        let opposite = right.negated(alloc)?;
        Ok(Sum {
            constant: left.constant() + opposite.constant() - 1,
            terms: terms_left(alloc, left, &opposite)?,
        })
    }

    /// The sum that is at least 0 where this one is not: its opposite less 1.
    pub fn denied(&self, alloc: Global) -> Result<Sum, AllocError>
        ensures { IfOk result (λ s. s ≡ moved (pos 1) (scaled (negsuc 0) self.now)) }
    {
        Ok(Sum {
            constant: -self.constant - 1,
            terms: self.terms.scaled(alloc, -1)?,
        })
    }

    /// The constant.
    pub fn constant(&self) -> i128
        ensures value { result ≡ self.now.constant }
        ensures narrow { IsTrue (is_row_constant result) }
    {
        self.constant
    }

    /// The weighed sum.
    pub fn terms(&self) -> &Terms
        ensures value { result.now ≡ self.now.terms }
        ensures narrow { IsTrue (are_within (2 ^ 64) result.now) }
        ensures distinct { IsTrue (are_distinct result.now) }
        ensures present { IsTrue (are_present result.now) }
    {
        &self.terms
    }
}

/// What an equation speaks of: a constant of at most 2^63 in size, and a weighed sum as in a row.
pub struct Equation {
    constant: i128,
    terms: Terms,
}

impl Drop for Equation {
    fn drop(self) {
        let Self {
            constant: _,
            terms: _,
        } = self;
    }
}

impl Model for Equation {
    ghost use Rattle.std.specs.Prelude.{IsTrue, ◌^◌};
    ghost use Rattle.affine_forms.specs.Atoms as plain;
    ghost use Rattle.affine_forms.specs.AtomCodes.{linear_code};
    ghost use Rattle.affine_forms.specs.Forms.{is_within, are_within};
    ghost use Rattle.affine_forms.specs.TermBounds.{are_distinct, are_present};

    ghost Value = { plain.Linear };

    ghost coded = { linear_code };

    ghost view = { λ s. record { constant = s.constant; terms = s.terms } };

    ghost invariant = { λ s. IsTrue (is_within (2 ^ 63) s.constant)
        × IsTrue (are_within (2 ^ 64) s.terms)
        × IsTrue (are_distinct s.terms)
        × IsTrue (are_present s.terms) };
}

impl Equation {
    /// One form less another.
    pub fn difference(alloc: Global, left: &Linear, right: &Linear) -> Result<Equation, AllocError>
        ensures { IfOk result (λ s. s ≡ difference left.now right.now) }
    {
        let opposite = right.negated(alloc)?;
        Ok(Equation {
            constant: left.constant() + opposite.constant(),
            terms: terms_left(alloc, left, &opposite)?,
        })
    }

    /// The sum that is at least 0 where this one is less: its opposite less 1.
    pub fn below(&self, alloc: Global) -> Result<Sum, AllocError>
        ensures { IfOk result (λ s. s ≡ moved (pos 1) (scaled (negsuc 0) self.now)) }
    {
        Ok(Sum {
            constant: -self.constant - 1,
            terms: self.terms.scaled(alloc, -1)?,
        })
    }

    /// The sum that is at least 0 where this one is greater: itself less 1.
    pub fn above(&self, alloc: Global) -> Result<Sum, AllocError>
        ensures { IfOk result (λ s. s ≡ moved (pos 1) self.now) }
    {
        Ok(Sum {
            constant: self.constant - 1,
            terms: self.terms.duplicate(alloc)?,
        })
    }

    /// The constant.
    pub fn constant(&self) -> i128
        ensures value { result ≡ self.now.constant }
        ensures narrow { IsTrue (is_within (2 ^ 63) result) }
    {
        self.constant
    }

    /// The weighed sum.
    pub fn terms(&self) -> &Terms
        ensures value { result.now ≡ self.now.terms }
        ensures narrow { IsTrue (are_within (2 ^ 64) result.now) }
        ensures distinct { IsTrue (are_distinct result.now) }
        ensures present { IsTrue (are_present result.now) }
    {
        &self.terms
    }
}
