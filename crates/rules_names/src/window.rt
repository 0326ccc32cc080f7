//! Which rules windows break first.
ghost use Rattle.std.specs.Prelude.{◌≡◌, ◌+◌, ◌≤◌, Bool, Option, map};
ghost use Rattle.exo_meaning.specs.Units as units;
ghost use Rattle.exo_reader.specs.Views.{plain_coordinate};
ghost use Rattle.rules_names.specs.Faults.{charged};
ghost use Rattle.rules_names.specs.Names.{named_in, sort_of};
ghost use Rattle.rules_names.specs.Tests.{most_tokens};
ghost use Rattle.rules_names.specs.WindowRules.{coordinate_width, coordinates_width, coordinate_faults, coordinates_faults, window_faults};

use crate::control::test_control;
use crate::fault::Charge;
use crate::tested::{Names, name_charge, rank_charge};
use exo_modes::PLAINLY;
use exo_reader::source::SourceCoord;

/// The charge of a coordinate, and the number of the token behind it.
pub fn test_coordinate(names: &Names, n: usize, c: &SourceCoord) -> (Charge, usize)
    requires { n + coordinate_width (plain_coordinate c.now) ≤ most_tokens }
    ensures charge { result.0 ≡ charged (coordinate_faults names.now.fields.now names.now.scope.now n (plain_coordinate c.now)) }
    ensures end { result.1 ≡ n + coordinate_width (plain_coordinate c.now) }
{
    match c {
        SourceCoord::Point(e) => {
            let tested = test_control(names, PLAINLY, n, e);
            (tested.charge, tested.end)
        }
        SourceCoord::Span(low, high) => {
            let l = test_control(names, PLAINLY, n, low);
            let h = test_control(names, PLAINLY, l.end + 1, high);
            (l.charge.and(h.charge), h.end)
        }
    }
}

/// The charge of coordinates with a comma between two, and the number of the token behind the bracket that closes them. There is at
/// least one.
pub fn test_coordinates(names: &Names, n: usize, list: &[SourceCoord]) -> (Charge, usize)
    requires { n + coordinates_width (map plain_coordinate list.now) ≤ most_tokens }
    ensures charge { result.0 ≡ charged (coordinates_faults names.now.fields.now names.now.scope.now n (map plain_coordinate list.now)) }
    ensures end { result.1 ≡ n + coordinates_width (map plain_coordinate list.now) }
{
    let mut charge = Charge::none();
    let mut next = n;
    for c in list {
        let (more, end) = test_coordinate(names, next, c);
        charge = charge.and(more);
        next = end + 1;
    }
    (charge, next)
}

/// The charge of a window whose name stands at token n, and the number of the token behind it. Whether what the name stands for fits
/// its place is told by the caller.
pub fn test_window(
    names: &Names,
    fits: bool,
    n: usize,
    name: &str,
    list: &[SourceCoord],
) -> (Charge, usize)
    requires { n + 2 + coordinates_width (map plain_coordinate list.now) ≤ most_tokens }
    ensures charge { (test : Option units.Sort → Bool)
        → test (sort_of (named_in names.now.scope.now name.now)) ≡ fits
        → result.0
        ≡ charged (window_faults names.now.fields.now test names.now.scope.now n name.now
        (map plain_coordinate list.now)) }
    ensures end { result.1 ≡ n + 2 + coordinates_width (map plain_coordinate list.now) }
{
    let sort = names.scope.sort(name);
    let named = name_charge(sort, fits, n);
    let rank = rank_charge(sort, list.len(), n);
    let (coordinates, end) = test_coordinates(names, n + 2, list);
    (named.and(rank.and(coordinates)), end)
}
