//! Tables of quotients, in which a row stands once.
ghost use Rattle.std.specs.Prelude.{◌≡◌, ◌<◌, List, [], length, get_or, IfOk, OnOk, IsTrue};
ghost use Rattle.affine_forms.specs.Atoms.{same_atom};
ghost use Rattle.affine_forms.specs.Tables.{Division, atom_of, no_division, part_atom, sum_of};
ghost use Rattle.affine_forms.specs.Tables.{division_of, is_earlier, are_earlier, Holds, Extends};
ghost use Rattle.affine_forms.specs.TermBounds.{is_kept_atom, are_kept};
ghost use Rattle.affine_forms.specs.PlainAtoms.{plain_atom};
ghost use Rattle.affine_forms.specs.PlainTables.{plain_part, plain_shares, plain_row};

use crate::atom::{Atom, Terms};
use crate::leaf::Leaf;
use crate::row::{Part, QuotientRow, Share, are_same, place_of};
use std::alloc::{AllocError, Global};
use std::marker::Model;

/// Quotients, each over earlier ones. One that stands already, to the letter, is not put again.
pub(crate) struct Table {
    rows: Vec<QuotientRow>,
}

impl Drop for Table {
    fn drop(self) {
        let Self { rows: _ } = self;
    }
}

impl Model for Table {
    ghost use Rattle.std.specs.Prelude.{List, IsTrue};
    ghost use Rattle.std.specs.Coded.{coded_list};
    ghost use Rattle.affine_forms.specs.Tables.{Division, division_code};

    ghost Value = { List Division };

    ghost coded = { coded_list division_code };

    ghost use Rattle.affine_forms.specs.Tables.{divisions, are_ordered, are_all_kept};
    ghost use Rattle.affine_forms.specs.PlainTables.{plain_rows};

    ghost view = { λ t. divisions (plain_rows t.rows.items) };

    ghost invariant = { λ t. IsTrue (are_ordered 0 (plain_rows t.rows.items))
        × IsTrue (are_all_kept (divisions (plain_rows t.rows.items))) };
}

impl Table {
    pub(crate) fn new(alloc: Global) -> Table
        ensures { result ≡ [] }
    {
        Table {
            rows: Vec::new(alloc),
        }
    }

    /// The row of a quotient.
    pub(crate) fn row(&self, k: usize) -> &QuotientRow
        requires { k < length self.now }
        ensures value { division_of self.now (plain_row result.now)
            ≡ get_or self.now k no_division }
        ensures earlier { IsTrue
            (are_earlier (length self.now) (plain_shares result.now.terms.items)) }
        ensures kept { IsTrue (are_kept (sum_of self.now (plain_shares result.now.terms.items))) }
    {
        &self.rows[k]
    }

    /// Puts a row last, if it is new, and gives its number.
    fn put(&mut self, row: QuotientRow) -> Result<usize, AllocError>
        requires earlier { IsTrue (are_earlier (length self.old) (plain_row row).terms) }
        requires kept { IsTrue (is_kept_atom (atom_of (division_of self.old (plain_row row)))) }
        ensures grown { OnOk result (Extends self.old self.new) }
        ensures put { IfOk result (λ k. Holds self.new k (division_of self.old (plain_row row))) }
    {
        if let Some(k) = place_of(&self.rows, &row) {
            return Ok(k);
        }
        let k = self.rows.len();
        self.rows.push(row)?;
        Ok(k)
    }

    /// Puts the rows of another table, and gives the number of one of them.
    fn import(&mut self, alloc: Global, other: &Table, index: usize) -> Result<usize, AllocError>
        requires { index < length other.now }
        ensures grown { OnOk result (Extends self.old self.new) }
        ensures put { IfOk result (λ k. Holds self.new k (get_or other.now index no_division)) }
    {
        let mut numbers = Vec::new(alloc);
        for row in &other.rows {
            let moved = row.moved(alloc, &numbers)?;
            numbers.push(self.put(moved)?)?;
        }
        Ok(numbers[index])
    }

    /// The part of an atom, whose rows are put.
    fn part(&mut self, alloc: Global, atom: &Atom) -> Result<Part, AllocError>
        ensures grown { OnOk result (Extends self.old self.new) }
        ensures earlier { IfOk result (λ p. IsTrue (is_earlier (length self.new) (plain_part p))) }
        ensures value { IfOk result (λ p. part_atom self.new (plain_part p) ≡ plain_atom atom.now) }
    {
        match atom {
            Atom::Variable(x) => Ok(Part::Whole(Leaf::Variable(*x))),
            Atom::EntryField(f, kind) => Ok(Part::Whole(Leaf::EntryField(*f, *kind))),
            Atom::UnknownField(f, kind, path) => {
                let shared = path.clone()?;
                Ok(Part::Whole(Leaf::UnknownField(*f, *kind, shared)))
            }
            Atom::OpaqueStride(x, k) => Ok(Part::Whole(Leaf::OpaqueStride(*x, *k))),
            Atom::Quotient(q) => {
                let (table, index) = q.place();
                let number = self.import(alloc, table, index)?;
                Ok(Part::Earlier(number))
            }
        }
    }

    /// The parts of a sum, whose rows are put.
    fn shares(&mut self, alloc: Global, terms: &Terms) -> Result<Vec<Share>, AllocError>
        ensures grown { OnOk result (Extends self.old self.new) }
        ensures earlier { IfOk result (λ v. IsTrue
            (are_earlier (length self.new) (plain_shares v.items))) }
        ensures value { IfOk result (λ v. sum_of self.new (plain_shares v.items) ≡ terms.now) }
    {
        let mut made = Vec::new(alloc);
        for w in terms.as_slice() {
            let part = self.part(alloc, &w.atom)?;
            made.push(Share {
                coefficient: w.coefficient,
                part,
            })?;
        }
        Ok(made)
    }

    /// Puts the quotient of a constant and a sum by a literal, and gives its number.
    pub(crate) fn divide(
        &mut self,
        alloc: Global,
        constant: i128,
        terms: &Terms,
        by: i64,
    ) -> Result<usize, AllocError>
        requires { IsTrue (is_kept_atom (atom_of (record {
          constant = constant;
          terms = terms.now;
          by = by;
        }))) }
        ensures { IfOk result (λ k. Holds self.new k (record {
          constant = constant;
          terms = terms.now;
          by = by;
        })) }
    {
        let shares = self.shares(alloc, terms)?;
        self.put(QuotientRow {
            constant,
            terms: shares,
            by,
        })
    }

    /// Whether two quotients of two tables are equal.
    pub(crate) fn same(
        &self,
        alloc: Global,
        i: usize,
        other: &Table,
        j: usize,
    ) -> Result<bool, AllocError>
        requires inside { i < length self.now }
        requires other_inside { j < length other.now }
        ensures { IfOk result (λ b. b
            ≡ same_atom (atom_of (get_or self.now i no_division))
            (atom_of (get_or other.now j no_division))) }
    {
        if !self.rows[i].is_alike(&other.rows[j]) {
            return Ok(false);
        }
        let known = are_same(alloc, &self.rows, i, &other.rows, j)?;
        Ok(known)
    }
}
