//! Coordinates of numbers alone.
ghost use Rattle.std.specs.Prelude.{◌≡◌, map};
ghost use Rattle.exo_tree.specs.PlainControl.{coordinate};
ghost use Rattle.exo_meaning.specs.Units.{sort_in};
ghost use Rattle.inplace_laws.specs.Windows.{are_plain};
ghost use Rattle.exo_modes.specs.Sorts.{sort_seen};
ghost use Rattle.tree_findings.specs.Walked.{place_scope};
ghost use Rattle.alloc_laws.specs.Stage.Staging.{is_of_other, are_of_numbers};

use exo_effects::is_plain;
use exo_modes::Sort;
use exo_tree::{Coord, Id, Kind};
use tree_findings::PlaceScope;
use tree_uses::mentions::{Names, in_coords};

/// Whether a name of that sort is in scope and no number.
fn is_of_other(sort: Option<Sort>) -> bool
    ensures { result ≡ is_of_other (sort_seen sort) }
{
    match sort {
        None => false,
        Some(Sort::Control(Kind::Bool)) => true,
        Some(Sort::Control(_)) => false,
        Some(Sort::Buffer(_, _, _)) => true,
    }
}

/// The names in scope that are no numbers.
#[derive(Drop)]
pub(crate) struct Others<'u> {
    pub(crate) scope: PlaceScope<'u>,
}

impl Names for Others<'_> {
    ghost names = { λ o x. is_of_other (sort_in (place_scope o.scope) x) };

    fn has(&self, x: Id) -> bool {
        is_of_other(self.scope.sort(x))
    }
}

/// Whether coordinates read neither fields nor strides.
fn are_plain(coords: &[Coord]) -> bool
    ensures { result ≡ are_plain (map coordinate coords.now) }
{
    match coords.split_first() {
        None => true,
        Some((Coord::At(a), rest)) => is_plain(a) && are_plain(rest),
        Some((Coord::Span(a, b), rest)) => is_plain(a) && (is_plain(b) && are_plain(rest)),
    }
}

/// Whether coordinates read neither fields nor strides, and use none of the other names.
pub(crate) fn are_of_numbers(others: &Others<'_>, coords: &[Coord]) -> bool
    ensures { result
        ≡ are_of_numbers (place_scope others.now.scope) (map coordinate coords.now) }
{
    are_plain(coords) && !in_coords(others, coords)
}
