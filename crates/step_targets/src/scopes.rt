//! The names in scope before a piece.
ghost use Rattle.std.specs.Prelude.{◌≡◌, is_none, IfOk};
ghost use Rattle.exo_meaning.specs.Units.{sort_in};
ghost use Rattle.step_driver.specs.PlainTarget.{target, plain_piece};
ghost use Rattle.step_driver.specs.Spots.{spot_at};
ghost use Rattle.step_rules.specs.Lawful.{scope_here};
ghost use Rattle.tree_findings.specs.Walked.{place_scope};

use exo_tree::Id;
use std::alloc::{AllocError, Global};
use step_driver::{Piece, Target};
use tree_findings::PlaceScope;
use tree_uses::mentions::Names;

/// The names in scope before a piece; where its statements are not there, those of the parameters.
#[tactic(auto, using(crate::proofs::Scoped::scope_same))]
pub fn scope_before<'u>(
    alloc: Global,
    on: &Target<'u>,
    piece: &Piece,
) -> Result<PlaceScope<'u>, AllocError>
    ensures { IfOk result (λ s. place_scope s
        ≡ scope_here (spot_at (target on.now) (plain_piece piece.now))) }
{
    PlaceScope::before(alloc, on.proc, &piece.path, piece.count)
}

/// The names that are not in scope.
#[derive(Drop)]
pub struct Missing<'u> {
    pub scope: PlaceScope<'u>,
}

impl Names for Missing<'_> {
    ghost names = { λ m x. is_none (sort_in (place_scope m.scope) x) };

    fn has(&self, x: Id) -> bool {
        self.scope.sort(x).is_none()
    }
}
