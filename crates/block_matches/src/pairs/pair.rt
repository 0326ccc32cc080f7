//! What stands against what.
ghost use Rattle.std.specs.Prelude.{◌≡◌, [], ◌∷◌, ◌++◌, map, OnOk};
ghost use Rattle.exo_tree.specs.PlainControl.{control};
ghost use Rattle.match_laws.specs.Pairs as plain;
ghost use Rattle.block_matches.specs.Pairs.PlainPair.{plain_pair};

use exo_tree::{Cond, Coords, Ctrl, Id, Path};
use std::alloc::AllocError;

/// Of a callee's body against a block, at the path of its statement in the body.
#[derive(Drop)]
pub enum Pair<'a> {
    /// Two expressions; true where the whole of a bound or written value stands.
    Numbers(Path, bool, &'a Ctrl, &'a Ctrl),
    Truths(Path, bool, &'a Cond, &'a Cond),
    /// Binders that correspond.
    Binders(Id, Id),
    /// A name of the callee's own body against a name.
    Own(Path, Id, Id),
    /// An access of a parameter against an access.
    Access(Path, Id, Coords, Id, Coords),
    /// The walk ends.
    Unlike(Path),
}

/// Puts a pair last.
pub(crate) fn push<'a>(out: &mut Vec<Pair<'a>>, pair: Pair<'a>) -> Result<(), AllocError>
    ensures { OnOk result (map plain_pair out.new.items
        ≡ map plain_pair out.old.items ++ plain_pair pair.entry ∷ []) }
{
    out.push(pair)?;
    Ok(())
}

/// Puts last that the walk ends at a path.
pub(crate) fn push_unlike(out: &mut Vec<Pair<'_>>, at: &Path) -> Result<(), AllocError>
    ensures { OnOk result (map plain_pair out.new.items
        ≡ map plain_pair out.old.items ++ plain.Unlike at.now ∷ []) }
{
    push(out, Pair::Unlike(at.duplicate()))
}

/// Puts two expressions last.
pub(crate) fn push_numbers<'a>(
    out: &mut Vec<Pair<'a>>,
    at: &Path,
    whole: bool,
    e: &'a Ctrl,
    g: &'a Ctrl,
) -> Result<(), AllocError>
    ensures { OnOk result (map plain_pair out.new.items
        ≡ map plain_pair out.old.items
        ++ plain.Numbers at.now whole (control e.now) (control g.now) ∷ []) }
{
    push(out, Pair::Numbers(at.duplicate(), whole, e, g))
}
