//! What walks over trees make of changed control expressions.
ghost use Rattle.tree_uses.specs.Simple.Changing.{ChangesControls};

/// The walk changes each control expression of a block, and nothing else.
pub fn walks_change_controls()
    ensures { ChangesControls }
{}
