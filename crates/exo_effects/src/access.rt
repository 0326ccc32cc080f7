//! Accesses of buffers.
use crate::guards::Guard;
use affine_forms::Linear;
use exo_tree::{Coords, Id};

/// How an access touches its cells.
#[derive(Clone, Copy)]
pub enum Mode {
    Read,
    Write,
    Reduce,
}

/// A use of cells of a root, as trees: its normal forms are made where two copies are compared.
pub struct Access<'a> {
    pub root: Id,
    pub mode: Mode,
    /// A point or a span for each of the root's dimensions.
    pub coords: Coords,
    /// The loops and branches of the piece around it, from the outermost inwards.
    pub guards: Vec<Guard<'a>>,
    /// How it is written.
    pub text: String,
}

impl Drop for Access<'_> {
    fn drop(self) {
        let Self {
            root: _,
            mode: _,
            coords: _,
            guards: _,
            text: _,
        } = self;
    }
}

/// What an access touches of one dimension of its root.
pub enum AccessCoord {
    /// One index.
    At(Linear),
    /// All from a lower end up to the end that it does not reach.
    Range(Linear, Linear),
}

impl Drop for AccessCoord {
    fn drop(self) {
        match self {
            Self::At(_) | Self::Range(_, _) => {}
        }
    }
}
