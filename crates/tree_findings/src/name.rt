//! Tests of names, fields and literals.
ghost use Rattle.std.specs.Prelude.{◌≡◌, Bool, Option, option_map};
ghost use Rattle.exo_tree.specs.PlainBinder.{control_kind, binding};
ghost use Rattle.exo_meaning.specs.Units as units;
ghost use Rattle.exo_modes.specs.Sorts.{sort_seen};
ghost use Rattle.tree_findings.specs.Classes as classes;
ghost use Rattle.tree_findings.specs.Findings.{found_in_binder, found_in_divisor};
ghost use Rattle.tree_findings.specs.Seen.{kinds_seen, scope_seen};

use crate::findings::Findings;
use crate::scope::{ScopeEntry, is_new, sort_in};
use exo_modes::Sort;
use exo_tree::{Binder, FieldId, Fields, Id, Kind};

/// What names stand for at a place.
#[derive(Clone, Copy)]
pub(crate) struct ScopeNames<'n, 'u> {
    pub(crate) fields: &'n Fields,
    pub(crate) entries: &'n [ScopeEntry<'u>],
}

impl<'n, 'u> ScopeNames<'n, 'u> {
    /// The sort of what a name stands for; None exactly where it is not in scope.
    pub(crate) fn sort(&self, x: Id) -> Option<Sort>
        ensures { sort_seen result ≡ units.sort_in (scope_seen self.now) x.0 }
    {
        sort_in(self.entries, x)
    }

    /// The kind of a field; None exactly where there is none of that number.
    pub(crate) fn kind(&self, f: FieldId) -> Option<Kind>
        ensures { option_map control_kind result ≡ kinds_seen self.now f.0 }
    {
        match self.fields.get(f.0 as usize) {
            Some(field) => Some(field.kind),
            None => None,
        }
    }

    /// Whether a field is one of numbers.
    pub(crate) fn is_number_field(&self, f: FieldId) -> bool
        ensures { result ≡ units.is_number_field (kinds_seen self.now) (kinds_seen self.now f.0) }
    {
        match self.kind(f) {
            Some(kind) => kind != Kind::Bool,
            None => false,
        }
    }

    /// Whether a field is one of bools.
    pub(crate) fn is_flag_field(&self, f: FieldId) -> bool
        ensures { result ≡ units.is_flag_field (kinds_seen self.now) (kinds_seen self.now f.0) }
    {
        match self.kind(f) {
            Some(kind) => kind == Kind::Bool,
            None => false,
        }
    }

    /// Whether a binder is new at the place.
    pub(crate) fn binder(&self, x: &Binder) -> Findings
        ensures { result ≡ found_in_binder (scope_seen self.now) (binding x.now) }
    {
        Findings::new_name(is_new(self.entries, x))
    }
}

/// A use of a name that fits, or that is not in scope.
pub(crate) fn use_of(sort: Option<Sort>, fits: bool) -> Findings
    ensures { (suits : Option units.Sort → Bool) → suits (sort_seen sort) ≡ fits → result ≡ classes.use_of suits (sort_seen sort) }
{
    match sort {
        None => Findings {
            scope: false,
            ..Findings::FINE
        },
        Some(_) => Findings::rule(fits),
    }
}

/// Whether a literal is from 0 to 2^31 - 1.
pub(crate) fn is_literal(n: i64) -> bool
    ensures { result ≡ units.is_literal_number n }
{
    0 <= n && n < 2147483648
}

/// Whether a divisor is a literal from 1 on, and not too great.
pub(crate) fn divisor(c: i64) -> Findings
    ensures { result ≡ found_in_divisor c }
{
    Findings::limit(is_literal(c)).and(Findings::rule(0 < c))
}
