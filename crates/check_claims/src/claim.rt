//! Claims: what a procedure has to show.

use exo_tree::{Cond, Path};

/// What has to hold.
pub enum Claim {
    /// The condition holds; with how it is quoted where it is not shown.
    Is(Box<Cond>, String),
    /// Arguments of those numbers, counted from 0, of the call at the place have no cell in common.
    Apart(u32, u32),
}

impl Drop for Claim {
    fn drop(self) {
        match self {
            Self::Is(_, _) | Self::Apart(_, _) => {}
        }
    }
}

/// A claim with the path of the statement that has to show it; the empty path for a claim of a parameter.
pub struct Placed {
    pub place: Path,
    pub claim: Claim,
}

impl Drop for Placed {
    fn drop(self) {
        let Self { place: _, claim: _ } = self;
    }
}
