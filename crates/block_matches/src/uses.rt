//! The accesses of a parameter.
ghost use Rattle.std.specs.Prelude.{◌≡◌, map, option_map, IfOk};
ghost use Rattle.std.specs.Option.{option_to_list};
ghost use Rattle.match_laws.specs.Windows.{use_in, uses_of};
ghost use Rattle.block_matches.specs.Pairs.PlainPair.{plain_pair};
ghost use Rattle.block_matches.specs.PlainUse.{plain_use};

use crate::pairs::Pair;
use exo_tree::{Coords, Id, Path};
use std::alloc::{AllocError, Global};

/// An access of a parameter against one of a name.
#[derive(Clone, Copy)]
pub(crate) struct Use<'a> {
    pub(crate) path: &'a Path,
    pub(crate) ours: &'a Coords,
    pub(crate) name: Id,
    pub(crate) theirs: &'a Coords,
}

/// The access of a parameter that a pair is; None where it is none.
fn use_in<'a>(x: Id, pair: &'a Pair<'_>) -> Option<Use<'a>>
    ensures { option_to_list (option_map plain_use result) ≡ use_in x.0 (plain_pair pair.now) }
{
    match pair {
        Pair::Access(path, a, ours, name, theirs) if a.0 == x.0 => Some(Use {
            path,
            ours,
            name: *name,
            theirs,
        }),
        _ => None,
    }
}

/// Those of a parameter, in the order of the pairs.
#[tactic(auto, using(crate::proofs::Accesses::uses_one))]
pub(crate) fn uses_of<'a>(
    alloc: Global,
    x: Id,
    pairs: &'a [Pair<'_>],
) -> Result<Vec<Use<'a>>, AllocError>
    ensures { IfOk result (λ v. map plain_use v.items ≡ uses_of x.0 (map plain_pair pairs.now)) }
{
    let mut uses = Vec::new(alloc);
    for pair in pairs {
        if let Some(found) = use_in(x, pair) {
            uses.push(found)?;
        }
    }
    Ok(uses)
}
