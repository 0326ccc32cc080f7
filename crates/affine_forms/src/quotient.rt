//! Quotients, which share a table of the quotients inside them.
ghost use Rattle.std.specs.Prelude.{◌≡◌, ◌<◌, List, length, IfOk, IsTrue, get_or};
ghost use Rattle.affine_forms.specs.Atoms.{same_atom};
ghost use Rattle.affine_forms.specs.Tables.{atom_of, no_division, part_atom, is_earlier, Holds};
ghost use Rattle.affine_forms.specs.TermBounds.{is_kept_atom};
ghost use Rattle.affine_forms.specs.PlainAtoms.{plain_atom};
ghost use Rattle.affine_forms.specs.PlainTables.{plain_part};

use crate::atom::{Atom, Terms};
use crate::row::Part;
use crate::table::Table;
use std::alloc::{AllocError, Global};
use std::marker::Model;
use std::sync::Arc;

/// The quotient of a constant and a sum by a literal of at least 1, rounded down.
/// Equal quotients inside it stand once in the table that it shares with them.
pub struct Quotient {
    table: Arc<Table>,
    index: usize,
}

impl Drop for Quotient {
    fn drop(self) {
        let Self { table: _, index: _ } = self;
    }
}

impl Model for Quotient {
    ghost use Rattle.std.specs.Prelude.{◌<◌, length, get_or};
    ghost use Rattle.affine_forms.specs.Tables.{Division, division_code, no_division};

    ghost Value = { Division };

    ghost coded = { division_code };

    ghost view = { λ q. get_or q.table.value q.index no_division };

    ghost invariant = { λ q. q.index < length q.table.value };
}

impl Quotient {
    /// The quotient of a constant and a sum by a literal.
    pub fn new(
        alloc: Global,
        constant: i128,
        terms: &Terms,
        by: i64,
    ) -> Result<Quotient, AllocError>
        requires { IsTrue (is_kept_atom (atom_of (record {
          constant = constant;
          terms = terms.now;
          by = by;
        }))) }
        ensures { IfOk result (λ q. q ≡ record {
          constant = constant;
          terms = terms.now;
          by = by;
        }) }
    {
        let mut table = Table::new(alloc);
        let index = table.divide(alloc, constant, terms, by)?;
        let table = Arc::new(alloc, table)?;
        Ok(Quotient { table, index })
    }

    pub fn duplicate(&self) -> Result<Quotient, AllocError>
        ensures { IfOk result (λ q. q ≡ self.now) }
    {
        let table = self.table.clone()?;
        Ok(Quotient {
            table,
            index: self.index,
        })
    }

    /// The constant.
    pub fn constant(&self) -> i128
        ensures { result ≡ self.now.constant }
    {
        self.table.as_ref().row(self.index).constant
    }

    /// The literal.
    pub fn by(&self) -> i64
        ensures { result ≡ self.now.by }
    {
        self.table.as_ref().row(self.index).by
    }

    /// The weighed sum.
    pub fn terms(&self, alloc: Global) -> Result<Terms, AllocError>
        ensures { IfOk result (λ t. t ≡ self.now.terms) }
    {
        let mut made = Terms::new(alloc);
        let row = self.table.as_ref().row(self.index);
        for s in &row.terms {
            let atom = atom(&self.table, &s.part)?;
            made.push(s.coefficient, atom)?;
        }
        Ok(made)
    }

    /// Its table, and its number there.
    pub(crate) fn place(&self) -> (&Table, usize)
        ensures { Holds result.0.now result.1 self.now }
    {
        (self.table.as_ref(), self.index)
    }

    /// Whether two quotients are equal, by their sums in any order.
    pub fn same(&self, alloc: Global, other: &Quotient) -> Result<bool, AllocError>
        ensures { IfOk result (λ b. b ≡ same_atom (atom_of self.now) (atom_of other.now)) }
    {
        self.table
            .as_ref()
            .same(alloc, self.index, other.table.as_ref(), other.index)
    }
}

/// The atom of a part of a row.
fn atom(table: &Arc<Table>, part: &Part) -> Result<Atom, AllocError>
    requires { IsTrue (is_earlier (length table.now.value) (plain_part part.now)) }
    ensures { IfOk result (λ a. plain_atom a ≡ part_atom table.now.value (plain_part part.now)) }
{
    match part {
        Part::Whole(leaf) => leaf.atom(),
        Part::Earlier(j) => {
            let table = table.clone()?;
            Ok(Atom::Quotient(Quotient { table, index: *j }))
        }
    }
}
