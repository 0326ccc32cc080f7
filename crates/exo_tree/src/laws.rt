//! Laws of places.
ghost use Rattle.std.specs.Prelude.{◌≡◌, ℕ, Some};
ghost use Rattle.exo_tree.specs.Tree.{Block};
ghost use Rattle.exo_tree.specs.Context.{fill};
ghost use Rattle.exo_tree.specs.Places.{Path, Opened, opened};

/// What is opened at a path is the block itself: the piece in its surroundings.
#[tactic(auto, using(crate::proofs::Heights::opened_whole))]
pub fn opened_is_the_block()
    ensures { (count : ℕ) (path : Path) (b : Block) (o : Opened) → opened count path b ≡ Some o → fill o.around o.piece ≡ b }
{}
