//! Dense rows: one coefficient per variable.
ghost use Rattle.std.specs.Prelude.{◌≡◌, ◌<◌, ◌≤◌, ◌^◌, ◌+◌, ◌-◌, reverse, length, Some, None};
ghost use Rattle.std.specs.Prelude.{if◌then◌else◌, IfOk, unsigned_abs, ℤ, pos, IsTrue};
ghost use Rattle.std.specs.List.{AllByRecursion, position, position_or_len};
ghost use Rattle.std.specs.Int.{int_min};
ghost use Rattle.affine_prover.specs.RowSets.Shapes.{IsNarrow, AreNarrow, is_present};
ghost use Rattle.affine_prover.specs.RowSets.Rows.{gcd_of, coefficient, is_constant, tightened};
ghost use Rattle.affine_prover.specs.RowSets.Rows.{same_list};
ghost use Rattle.affine_prover.specs.RowSets.Rows.{without, combined, is_narrow_combined, is_unit};
ghost use Rattle.affine_prover.specs.RowSets.Rows.{has_unit};
ghost use Rattle.affine_prover.specs.RowSets.Rows.{unit_place, substituted, is_narrow_substituted};
ghost use Rattle.affine_prover.specs.RowSets.Rows.{solving_factor, negated};

use crate::row_sets::list::{
    add_times, divide_all, gcd_of, negated_list, number_at, weighed_lists,
};
use crate::row_sets::number::weighed;
use std::alloc::{AllocError, Global};
use std::marker::Model;

/// A constant plus one coefficient per variable, all at most 2^100 in size.
pub struct DenseRow {
    constant: i128,
    coefficients: Vec<i128>,
}

impl Drop for DenseRow {
    fn drop(self) {
        let Self {
            constant: _,
            coefficients: _,
        } = self;
    }
}

impl Model for DenseRow {
    ghost use Rattle.affine_forms.specs.Affine.{Affine};
    ghost use Rattle.affine_prover.specs.RowSets.Shapes.{IsNarrow, AreNarrow};

    ghost Value = { Affine };

    ghost view = { λ r. record { constant = r.constant; coefficients = r.coefficients.items } };

    ghost invariant = { λ r. IsNarrow r.constant × AreNarrow r.coefficients.items };
}

impl DenseRow {
    /// The row of a constant and its coefficients.
    pub fn new(constant: i128, coefficients: Vec<i128>) -> DenseRow
        requires constant_narrow { IsNarrow constant }
        requires coefficients_narrow { AreNarrow coefficients.items }
        ensures { result ≡ record { constant = constant; coefficients = coefficients.items } }
    {
        DenseRow {
            constant,
            coefficients,
        }
    }

    /// How many variables there are.
    pub fn width(&self) -> usize
        ensures { result ≡ length self.now.coefficients }
    {
        self.coefficients.len()
    }

    /// The constant.
    pub fn constant(&self) -> i128
        ensures value { result ≡ self.now.constant }
        ensures narrow { IsNarrow result }
    {
        self.constant
    }

    /// The coefficient of variable `v`.
    pub fn coefficient(&self, v: usize) -> i128
        requires { v < length self.now.coefficients }
        ensures value { result ≡ coefficient self.now v }
        ensures narrow { IsNarrow result }
    {
        self.coefficients[v]
    }

    /// Whether no variable stands in the row.
    pub fn is_constant(&self) -> bool
        ensures { result ≡ is_constant self.now }
    {
        self.trailing().is_none()
    }

    /// Divides the row by the gcd of its coefficients, and rounds its constant down.
    pub fn tighten(&mut self)
        ensures { self.new ≡ tightened self.old }
    {
        let g = gcd_of(&self.coefficients);
        if g > 1 {
            let g = g as i128;
            self.constant = self.constant.div_euclid(g);
            divide_all(&mut self.coefficients, g);
        }
    }

    /// How many variables after the last one that stands in the row have no coefficient.
    fn trailing(&self) -> Option<usize>
        ensures { result ≡ position is_present (reverse self.now.coefficients) }
    {
        self.coefficients.iter().rev().position(|c| *c != 0)
    }

    /// The last variable that stands in the row, or 0 where none does.
    pub fn lead(&self) -> usize
        ensures { result ≡ length self.now.coefficients - (1 + position_or_len is_present (reverse self.now.coefficients)) }
    {
        match self.trailing() {
            Some(i) => self.width() - 1 - i,
            None => 0,
        }
    }

    /// Whether both rows have the same coefficients. Place `v` is looked at first: where it is the lead of one of them,
    /// most rows that differ do so there.
    pub fn is_like(&self, v: usize, other: &DenseRow) -> bool
        ensures { result ≡ same_list self.now.coefficients other.now.coefficients }
    {
        if number_at(&self.coefficients, v) != number_at(&other.coefficients, v) {
            return false;
        }
        self.coefficients == other.coefficients
    }

    /// Lowers the constant to that of the other row, where that is less.
    pub fn lower_to(&mut self, other: &DenseRow)
        ensures { self.new ≡ record self.old { constant = int_min self.old.constant other.now.constant } }
    {
        if other.constant < self.constant {
            self.constant = other.constant;
        }
    }

    /// The row with variable `v` taken out of its coefficients.
    pub fn remove(&mut self, v: usize)
        requires { v < length self.old.coefficients }
        ensures { self.new ≡ without v self.old }
    {
        let _gone = self.coefficients.remove(v);
    }

    /// The greatest common divisor of the coefficients, 0 where all are 0.
    pub fn gcd(&self) -> u128
        ensures { result ≡ gcd_of self.now.coefficients }
    {
        gcd_of(&self.coefficients)
    }

    /// Whether some coefficient is 1 or -1.
    pub fn has_unit(&self) -> bool
        ensures { result ≡ has_unit self.now }
    {
        self.first_unit().is_some()
    }

    /// The lowest variable with coefficient 1 or -1.
    fn first_unit(&self) -> Option<usize>
        ensures { result ≡ position is_unit self.now.coefficients }
    {
        self.coefficients.iter().position(|c| c.unsigned_abs() == 1)
    }

    /// The lowest variable with coefficient 1 or -1, or the number of variables.
    pub fn unit_place(&self) -> usize
        ensures { result ≡ unit_place self.now }
    {
        match self.first_unit() {
            Some(v) => v,
            None => self.width(),
        }
    }

    /// The factor of the equation `e` that takes its variable `v` out of this row.
    pub fn solving_factor(&self, v: usize, e: &DenseRow) -> i128
        requires unit { IsTrue (is_unit (coefficient e.now v)) }
        requires in_self { v < length self.now.coefficients }
        requires in_equation { v < length e.now.coefficients }
        ensures { result ≡ solving_factor v e.now self.now }
    {
        let c = self.coefficient(v);
        if e.coefficient(v) == 1 { -c } else { c }
    }

    /// The row with the solution of `e` for its variable `v` put in, where each number on the way is at most 2^100 in size.
    pub fn substituted(self, v: usize, e: &DenseRow) -> Option<DenseRow>
        requires wide { length self.coefficients ≡ length e.now.coefficients }
        requires below { v < length e.now.coefficients }
        requires unit { IsTrue (is_unit (coefficient e.now v)) }
        ensures { result ≡ (if is_narrow_substituted v e.now self then Some (substituted v e.now self) else None) }
    {
        let factor = self.solving_factor(v, e);
        let DenseRow {
            constant,
            coefficients,
        } = self;
        let mut coefficients = coefficients;
        let constant = weighed(1, constant, factor, e.constant)?;
        if !add_times(&mut coefficients, factor, &e.coefficients) {
            return None;
        }
        let _gone = coefficients.remove(v);
        Some(DenseRow {
            constant,
            coefficients,
        })
    }

    /// The row of the opposite numbers.
    pub fn negated(&self, alloc: Global) -> Result<DenseRow, AllocError>
        ensures { IfOk result (λ r. r ≡ negated self.now) }
    {
        let coefficients = negated_list(alloc, &self.coefficients)?;
        Ok(DenseRow {
            constant: -self.constant,
            coefficients,
        })
    }

    /// `f` times `a` plus `g` times `b`, where each number on the way is at most 2^100 in size.
    pub fn combined(
        alloc: Global,
        f: i128,
        a: &DenseRow,
        g: i128,
        b: &DenseRow,
    ) -> Result<Option<DenseRow>, AllocError>
        requires { length a.now.coefficients ≡ length b.now.coefficients }
        ensures { IfOk result (λ r. r ≡ (if is_narrow_combined f a.now g b.now then Some (combined f a.now g b.now) else None)) }
    {
        let Some(constant) = weighed(f, a.constant, g, b.constant) else {
            return Ok(None);
        };
        match weighed_lists(alloc, f, &a.coefficients, g, &b.coefficients)? {
            Some(coefficients) => Ok(Some(DenseRow {
                constant,
                coefficients,
            })),
            None => Ok(None),
        }
    }
}
