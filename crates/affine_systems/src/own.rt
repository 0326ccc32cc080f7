//! What an atom is, said in rows.
ghost use Rattle.std.specs.Prelude.{◌≡◌, ◌^◌, ◌-ℤ◌, IfOk, IsTrue, pos};
ghost use Rattle.std.specs.Int.{is_positive};
ghost use Rattle.affine_forms.specs.Atoms.{only, constantly, scaled, subtracted};
ghost use Rattle.affine_forms.specs.Forms.{is_within, are_within, are_short};
ghost use Rattle.affine_forms.specs.Formulas.{moved};
ghost use Rattle.affine_forms.specs.TermBounds.{is_kept_atom, are_distinct};
ghost use Rattle.affine_forms.specs.PlainAtoms.{plain_atom};

use affine_forms::{Atom, Terms};
use std::alloc::{AllocError, Global};
use std::marker::Model;

/// A row that says what an atom is: its sum is at least 0.
pub struct OwnRow {
    constant: i128,
    terms: Terms,
}

impl Drop for OwnRow {
    fn drop(self) {
        let Self {
            constant: _,
            terms: _,
        } = self;
    }
}

impl Model for OwnRow {
    ghost use Rattle.std.specs.Prelude.{IsTrue, ◌^◌};
    ghost use Rattle.affine_forms.specs.Atoms as plain;
    ghost use Rattle.affine_forms.specs.AtomCodes.{linear_code};
    ghost use Rattle.affine_forms.specs.Forms.{is_within, are_within};
    ghost use Rattle.affine_forms.specs.TermBounds.{are_distinct};

    ghost Value = { plain.Linear };

    ghost coded = { linear_code };

    ghost view = { λ r. record { constant = r.constant; terms = r.terms } };

    ghost invariant = { λ r. IsTrue (is_within (2 ^ 66) r.constant)
        × IsTrue (are_within (2 ^ 64) r.terms)
        × IsTrue (are_distinct r.terms) };
}

impl OwnRow {
    /// The constant.
    pub fn constant(&self) -> i128
        ensures value { result ≡ self.now.constant }
        ensures narrow { IsTrue (is_within (2 ^ 66) result) }
    {
        self.constant
    }

    /// The weighed sum.
    pub fn terms(&self) -> &Terms
        ensures value { result.now ≡ self.now.terms }
        ensures narrow { IsTrue (are_within (2 ^ 64) result.now) }
        ensures distinct { IsTrue (are_distinct result.now) }
    {
        &self.terms
    }

    /// The atom is at least 1.
    pub fn at_least_one(alloc: Global, atom: &Atom) -> Result<OwnRow, AllocError>
        requires { IsTrue (is_kept_atom (plain_atom atom.now)) }
        ensures { IfOk result (λ r. r ≡ moved (pos 1) (only (plain_atom atom.now))) }
    {
        Ok(OwnRow {
            constant: -1,
            terms: Terms::single(alloc, atom.duplicate(alloc)?)?,
        })
    }

    /// The atom is at least 0.
    pub fn at_least_zero(alloc: Global, atom: &Atom) -> Result<OwnRow, AllocError>
        requires { IsTrue (is_kept_atom (plain_atom atom.now)) }
        ensures { IfOk result (λ r. r ≡ only (plain_atom atom.now)) }
    {
        Ok(OwnRow {
            constant: 0,
            terms: Terms::single(alloc, atom.duplicate(alloc)?)?,
        })
    }

    /// The atom is at most 1.
    pub fn at_most_one(alloc: Global, atom: &Atom) -> Result<OwnRow, AllocError>
        requires { IsTrue (is_kept_atom (plain_atom atom.now)) }
        ensures { IfOk result (λ r. r ≡ subtracted (constantly (pos 1)) (only (plain_atom atom.now))) }
    {
        Ok(OwnRow {
            constant: 1,
            terms: Terms::weighed(alloc, -1, atom.duplicate(alloc)?)?,
        })
    }

    /// The literal times the quotient is at most what is divided.
    pub fn not_above(
        alloc: Global,
        n: i128,
        terms: &Terms,
        by: i64,
        quotient: &Atom,
    ) -> Result<OwnRow, AllocError>
        requires positive { IsTrue (is_positive by) }
        requires constant { IsTrue (is_within (2 ^ 64) n) }
        requires short { IsTrue (are_short terms.now) }
        requires distinct { IsTrue (are_distinct terms.now) }
        requires kept { IsTrue (is_kept_atom (plain_atom quotient.now)) }
        ensures { IfOk result
            (λ r. r
            ≡ subtracted (record { constant = n; terms = terms.now })
            (scaled by (only (plain_atom quotient.now)))) }
    {
        let mut sum = terms.duplicate(alloc)?;
        sum.join(alloc, -(by as i128), quotient)?;
        Ok(OwnRow {
            constant: n,
            terms: sum,
        })
    }

    /// What is divided is at most the literal times the quotient, and what is left below the literal.
    pub fn not_below(
        alloc: Global,
        n: i128,
        terms: &Terms,
        by: i64,
        quotient: &Atom,
    ) -> Result<OwnRow, AllocError>
        requires positive { IsTrue (is_positive by) }
        requires constant { IsTrue (is_within (2 ^ 64) n) }
        requires short { IsTrue (are_short terms.now) }
        requires distinct { IsTrue (are_distinct terms.now) }
        requires kept { IsTrue (is_kept_atom (plain_atom quotient.now)) }
        ensures { IfOk result
            (λ r. r
            ≡ subtracted (moved (pos 1 -ℤ by) (scaled by (only (plain_atom quotient.now))))
            (record { constant = n; terms = terms.now })) }
    {
        let literal = by as i128;
        let mut sum = Terms::weighed(alloc, literal, quotient.duplicate(alloc)?)?;
        let opposite = terms.scaled(alloc, -1)?;
        sum.add(alloc, &opposite)?;
        Ok(OwnRow {
            constant: literal - 1 - n,
            terms: sum,
        })
    }
}
