//! Laws of moves.
ghost use Rattle.cursor_forward.specs.Forwards.{MovesLaw};
ghost use Rattle.cursor_forward.specs.Patterns.{SearchableLaw};

/// A step that replaces a piece, and whose shifts carry its statements to places that are apart, forwards the statements of the
/// procedure: no two go to one place, and where one goes one of its kind stands.
#[tactic(auto, using(crate::proofs::Forwarding::moves_forward))]
pub fn moves_forward()
    ensures { MovesLaw }
{}

/// Each procedure of a well-formed unit can be searched for a pattern.
#[tactic(auto, using(crate::proofs::Searchable::units_are_searchable))]
pub fn units_are_searchable()
    ensures { SearchableLaw }
{}
