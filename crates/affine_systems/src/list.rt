//! What is owed together, in its order and within the limits.
ghost use Rattle.std.specs.Prelude.{◌≡◌, ◌≤◌, [], map, length};
ghost use Rattle.std.specs.List.{sum_by};
ghost use Rattle.affine_forms.specs.System.{plain_system};
ghost use Rattle.affine_systems.specs.Outcomes.{plain_obligation};
ghost use Rattle.affine_systems.specs.Limits.{system_terms, terms_in, Appended};

use crate::obligation::Obligation;
use affine_forms::{FormError, Row, System};
use std::alloc::Global;
use std::marker::Model;

/// The most obligations of a list.
pub(crate) const MOST_OBLIGATIONS: usize = 65_536;

/// The most terms in the obligations of a list together.
pub(crate) const MOST_TERMS: usize = 4_194_304;

/// Obligations in their order: at most 65,536, with at most 4,194,304 terms together.
#[derive(Drop)]
pub struct OwedList {
    items: Vec<Obligation>,
    terms: usize,
}

impl Model for OwedList {
    ghost use Rattle.std.specs.Prelude.{◌≡◌, true, List, map};
    ghost use Rattle.affine_systems.specs.Outcomes.{Owed, plain_obligation};
    ghost use Rattle.affine_systems.specs.Limits.{terms_in, are_within};

    ghost Value = { List Owed };

    ghost view = { λ l. map plain_obligation l.items.items };

    ghost invariant = { λ l. (l.terms ≡ terms_in (map plain_obligation l.items.items))
        × (are_within (map plain_obligation l.items.items) ≡ true) };
}

/// The number of terms of rows: variables with their coefficients, not constants. A system has at most 512 rows of 64 terms.
fn row_terms(rows: &[Row]) -> usize
    requires { sum_by (λ r. length r.terms.items) rows.now ≤ 32768 }
    ensures { result ≡ sum_by (λ r. length r.terms.items) rows.now }
{
    let mut count = 0;
    for r in rows {
        count += r.terms.len();
    }
    count
}

/// The number of terms of a system.
fn system_terms(s: &System) -> usize
    ensures { result ≡ system_terms (plain_system s.now) }
{
    row_terms(&s.equations) + row_terms(&s.rows)
}

/// The number of terms of obligations, of which there are not too many.
pub(crate) fn terms_of(owed: &[Obligation]) -> usize
    requires { length owed.now ≤ 65536 }
    ensures { result ≡ terms_in (map plain_obligation owed.now) }
{
    let mut count = 0;
    for o in owed {
        count += system_terms(&o.system);
    }
    count
}

impl OwedList {
    /// Nothing is owed yet.
    pub fn new(alloc: Global) -> OwedList
        ensures { result ≡ [] }
    {
        OwedList {
            items: Vec::new(alloc),
            terms: 0,
        }
    }

    /// Puts obligations last, in their order. `TooManySystems` where one passes a limit.
    pub fn push_all(&mut self, mut more: Vec<Obligation>) -> Result<(), FormError>
        ensures { Appended result self.old (map plain_obligation more.items) self.new }
    {
        if more.len() > MOST_OBLIGATIONS - self.items.len() {
            return Err(FormError::TooManySystems);
        }
        let terms = self.terms + terms_of(&more);
        if terms > MOST_TERMS {
            return Err(FormError::TooManySystems);
        }
        if self.items.is_empty() {
            self.items = more;
            self.terms = terms;
            return Ok(());
        }
        match self.items.append(&mut more) {
            Ok(()) => {}
            Err(_) => return Err(FormError::Memory),
        }
        self.terms = terms;
        Ok(())
    }

    /// The list alone.
    pub fn into_items(self) -> Vec<Obligation>
        ensures { map plain_obligation result.items ≡ self }
    {
        let OwedList { items, terms: _ } = self;
        items
    }
}
