//! What is given for a parameter.
ghost use Rattle.std.specs.Prelude.{◌≡◌, option_map};
ghost use Rattle.exo_tree.specs.PlainArgument.{argument};
ghost use Rattle.exo_tree.specs.PlainProcedure.{procedure};
ghost use Rattle.inplace_laws.specs.Inline.{is_param};
ghost use Rattle.match_laws.specs.Matched.{known_by};
ghost use Rattle.block_matches.specs.Pairs.PlainPair.{plain_pair};
ghost use Rattle.block_matches.specs.PlainGiven.{plain_given, plain_known};

use crate::pairs::{Pair, is_param};
use exo_tree::{Arg, Cond, Coords, Ctrl, Id, Proc};

/// An argument that stands elsewhere.
#[derive(Clone, Copy)]
pub(crate) enum Given<'a> {
    Number(&'a Ctrl),
    Truth(&'a Cond),
    Whole(Id),
    Window(Id, &'a Coords),
}

impl<'a> Given<'a> {
    pub(crate) fn of(a: &'a Arg) -> Given<'a>
        ensures { plain_given result ≡ argument a.now }
    {
        match a {
            Arg::Ctrl(e) => Given::Number(e),
            Arg::Cond(c) => Given::Truth(c),
            Arg::Whole(x) => Given::Whole(*x),
            Arg::Window(x, coords) => Given::Window(*x, coords),
        }
    }
}

/// A parameter, and what is given for it.
#[derive(Clone, Copy)]
pub(crate) struct KnownParameter<'a> {
    pub(crate) param: Id,
    pub(crate) argument: Given<'a>,
}

/// What a pair determines, where a parameter is the whole of a bound or of a written value.
pub(crate) fn known_by<'a>(callee: &Proc, pair: &Pair<'a>) -> Option<KnownParameter<'a>>
    ensures { option_map plain_known result
        ≡ known_by (is_param (procedure callee.now)) (plain_pair pair.now) }
{
    let (param, argument) = match pair {
        Pair::Numbers(_, true, Ctrl::Var(x), g) => (*x, Given::Number(g)),
        Pair::Truths(_, true, Cond::Var(x), d) => (*x, Given::Truth(d)),
        _ => return None,
    };
    if is_param(callee.params.as_slice(), param) {
        Some(KnownParameter { param, argument })
    } else {
        None
    }
}
