//! The loops and branches round an access.

use exo_tree::{Cond, Ctrl, Id};

/// A loop or a branch of a piece.
#[derive(Clone, Copy)]
pub enum Guard<'a> {
    /// A loop over this variable, from its lower bound up to the upper one, which it does not reach.
    Loop(Id, &'a Ctrl, &'a Ctrl),
    /// Where the condition holds.
    Holds(&'a Cond),
    /// Where it does not.
    Fails(&'a Cond),
}
