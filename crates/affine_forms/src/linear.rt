//! Affine forms: a constant and a weighed sum of atoms.
ghost use Rattle.std.specs.Prelude.{◌≡◌, IfOk, IsTrue, negsuc, pos, true, ◌^◌, ◌&&◌};
ghost use Rattle.std.specs.Int.{is_positive};
ghost use Rattle.affine_forms.specs.Atoms as plain;
ghost use Rattle.affine_forms.specs.Atoms.{added, scaled, subtracted, constantly, only, quotient};
ghost use Rattle.affine_forms.specs.Forms.{is_within, is_short, are_short, is_short_form, without_zeros};
ghost use Rattle.affine_forms.specs.TermBounds.{is_kept_atom, are_distinct, are_present};
ghost use Rattle.affine_forms.specs.PlainAtoms.{plain_atom};
ghost use Rattle.affine_forms.specs.Outcomes.{Formed};

use crate::atom::{Atom, Terms, is_short};
use crate::error::FormError;
use crate::quotient::Quotient;
use std::alloc::{AllocError, Global};
use std::marker::Model;

/// An affine form in the making: numbers of at most 2^62 in size, and each atom once.
/// A term that cancelled keeps its place with the coefficient 0, and takes it again where its atom comes again.
pub struct Draft {
    constant: i128,
    terms: Terms,
}

impl Drop for Draft {
    fn drop(self) {
        let Self {
            constant: _,
            terms: _,
        } = self;
    }
}

impl Model for Draft {
    ghost use Rattle.std.specs.Prelude.{IsTrue};
    ghost use Rattle.affine_forms.specs.Atoms as plain;
    ghost use Rattle.affine_forms.specs.AtomCodes.{linear_code};
    ghost use Rattle.affine_forms.specs.Forms.{is_short_form};
    ghost use Rattle.affine_forms.specs.TermBounds.{are_distinct};

    ghost Value = { plain.Linear };

    ghost coded = { linear_code };

    ghost view = { λ l. record { constant = l.constant; terms = l.terms } };

    ghost invariant = { λ l. IsTrue (is_short_form (record { constant = l.constant; terms = l.terms })) × IsTrue (are_distinct l.terms) };
}

impl Draft {
    /// The form of that constant and sum, where their numbers fit.
    fn new(constant: i128, terms: Terms) -> Result<Draft, FormError>
        requires { IsTrue (are_distinct terms) }
        ensures { Formed result (is_short_form (record { constant = constant; terms = terms }))
            (record { constant = constant; terms = terms }) }
    {
        if is_short(constant) && terms.are_short() {
            Ok(Draft { constant, terms })
        } else {
            Err(FormError::WideNumber)
        }
    }

    /// The constant.
    pub fn constant(&self) -> i128
        ensures value { result ≡ self.now.constant }
        ensures short { IsTrue (is_short result) }
    {
        self.constant
    }

    /// The weighed sum.
    pub fn terms(&self) -> &Terms
        ensures value { result.now ≡ self.now.terms }
        ensures short { IsTrue (are_short result.now) }
        ensures distinct { IsTrue (are_distinct result.now) }
    {
        &self.terms
    }

    /// A number alone.
    pub fn constantly(alloc: Global, n: i128) -> Result<Draft, FormError>
        ensures { Formed result (is_short_form (constantly n)) (constantly n) }
    {
        Draft::new(n, Terms::new(alloc))
    }

    /// An atom alone.
    pub fn only(alloc: Global, atom: Atom) -> Result<Draft, AllocError>
        requires { IsTrue (is_kept_atom (plain_atom atom)) }
        ensures { IfOk result (λ l. l ≡ only (plain_atom atom)) }
    {
        Ok(Draft {
            constant: 0,
            terms: Terms::single(alloc, atom)?,
        })
    }

    /// The form with each number multiplied.
    pub fn scaled(&self, alloc: Global, by: i128) -> Result<Draft, FormError>
        requires { IsTrue (is_within (2 ^ 63) by) }
        ensures { Formed result (is_short_form (scaled by self.now)) (scaled by self.now) }
    {
        let terms = self.terms.scaled(alloc, by)?;
        Draft::new(by * self.constant, terms)
    }

    /// The sum of two forms: a term joins that of the same atom, or stands at the end.
    pub fn plus(self, alloc: Global, other: &Draft) -> Result<Draft, FormError>
        ensures { Formed result (is_short_form (added self other.now)) (added self other.now) }
    {
        let Draft {
            constant,
            mut terms,
        } = self;
        terms.add(alloc, &other.terms)?;
        Draft::new(constant + other.constant, terms)
    }

    /// The form of the opposite numbers.
    pub fn negated(&self, alloc: Global) -> Result<Draft, AllocError>
        ensures { IfOk result (λ l. l ≡ scaled (negsuc 0) self.now) }
    {
        Ok(Draft {
            constant: -self.constant,
            terms: self.terms.scaled(alloc, -1)?,
        })
    }

    /// The difference of two forms.
    pub fn minus(self, alloc: Global, other: &Draft) -> Result<Draft, FormError>
        ensures { Formed result (is_short_form (subtracted self other.now)) (subtracted self other.now) }
    {
        let opposite = other.negated(alloc)?;
        self.plus(alloc, &opposite)
    }

    /// The terms of the quotient by a literal: those that it divides, and a quotient atom of the rest.
    fn quotient_terms(&self, alloc: Global, by: i64) -> Result<Terms, AllocError>
        requires { IsTrue (is_positive by) }
        ensures { IfOk result (λ t. t ≡ (quotient self.now by).terms) }
    {
        let literal = by as i128;
        let mut terms = self.terms.divided(alloc, literal)?;
        let rest = self.terms.undivided(alloc, literal)?;
        if !rest.is_empty() {
            let atom = Quotient::new(alloc, self.constant.rem_euclid(literal), &rest, by)?;
            terms.join(alloc, 1, &Atom::Quotient(atom))?;
        }
        Ok(terms)
    }

    /// The quotient by a literal: what it divides is taken out, and the rest becomes a quotient atom.
    pub fn quotient(&self, alloc: Global, by: i64) -> Result<Draft, FormError>
        requires { IsTrue (is_positive by) }
        ensures { Formed result (is_short_form (quotient self.now by)) (quotient self.now by) }
    {
        let terms = self.quotient_terms(alloc, by)?;
        Draft::new(self.constant.div_euclid(by as i128), terms)
    }

    /// The quotient by a literal, multiplied by it again.
    pub fn multiple(&self, alloc: Global, by: i64) -> Result<Draft, FormError>
        requires { IsTrue (is_positive by) }
        ensures { Formed result
            (is_short_form (quotient self.now by)
            && is_short_form (scaled by (quotient self.now by)))
            (scaled by (quotient self.now by)) }
    {
        let q = self.quotient(alloc, by)?;
        q.scaled(alloc, by as i128)
    }

    /// The form without the terms that cancelled.
    pub fn without_zeros(&self, alloc: Global) -> Result<Linear, AllocError>
        ensures { IfOk result (λ l. l ≡ without_zeros self.now) }
    {
        Ok(Linear {
            constant: self.constant,
            terms: self.terms.present(alloc)?,
        })
    }
}

/// An affine form: a constant and a weighed sum of atoms, with numbers of at most 2^62 in size.
/// Each atom stands once, with a coefficient other than 0.
pub struct Linear {
    constant: i128,
    terms: Terms,
}

impl Drop for Linear {
    fn drop(self) {
        let Self {
            constant: _,
            terms: _,
        } = self;
    }
}

impl Model for Linear {
    ghost use Rattle.std.specs.Prelude.{IsTrue};
    ghost use Rattle.affine_forms.specs.Atoms as plain;
    ghost use Rattle.affine_forms.specs.AtomCodes.{linear_code};
    ghost use Rattle.affine_forms.specs.Forms.{is_short_form};
    ghost use Rattle.affine_forms.specs.TermBounds.{are_distinct, are_present};

    ghost Value = { plain.Linear };

    ghost coded = { linear_code };

    ghost view = { λ l. record { constant = l.constant; terms = l.terms } };

    ghost invariant = { λ l. IsTrue (is_short_form (record {
      constant = l.constant;
      terms = l.terms;
    }))
        × IsTrue (are_distinct l.terms)
        × IsTrue (are_present l.terms) };
}

impl Linear {
    /// The constant.
    pub fn constant(&self) -> i128
        ensures value { result ≡ self.now.constant }
        ensures short { IsTrue (is_short result) }
    {
        self.constant
    }

    /// The weighed sum.
    pub fn terms(&self) -> &Terms
        ensures value { result.now ≡ self.now.terms }
        ensures short { IsTrue (are_short result.now) }
        ensures distinct { IsTrue (are_distinct result.now) }
        ensures present { IsTrue (are_present result.now) }
    {
        &self.terms
    }

    pub fn duplicate(&self, alloc: Global) -> Result<Linear, AllocError>
        ensures { IfOk result (λ l. l ≡ self.now) }
    {
        Ok(Linear {
            constant: self.constant,
            terms: self.terms.duplicate(alloc)?,
        })
    }

    /// An atom alone.
    pub fn only(alloc: Global, atom: Atom) -> Result<Linear, AllocError>
        requires { IsTrue (is_kept_atom (plain_atom atom)) }
        ensures { IfOk result (λ l. l ≡ only (plain_atom atom)) }
    {
        Ok(Linear {
            constant: 0,
            terms: Terms::single(alloc, atom)?,
        })
    }

    /// The form of the opposite numbers.
    pub fn negated(&self, alloc: Global) -> Result<Draft, AllocError>
        ensures { IfOk result (λ l. l ≡ scaled (negsuc 0) self.now) }
    {
        Ok(Draft {
            constant: -self.constant,
            terms: self.terms.scaled(alloc, -1)?,
        })
    }
}
