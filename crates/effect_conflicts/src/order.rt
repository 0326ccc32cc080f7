//! Two copies of the loops round a step, and how they stand to each other.

use crate::twin::Turn;

/// Of the variables of that number, counted from the outermost loop inwards, the one of the first copy is less than that
/// of the second, or greater.
#[derive(Clone, Copy)]
pub enum OrderRow {
    Less(usize),
    Greater(usize),
}

/// The loops of each copy, from the outermost inwards, and the order of their turns.
#[derive(Clone, Copy)]
pub struct Order<'a> {
    pub first: &'a [Turn<'a>],
    pub second: &'a [Turn<'a>],
    pub rows: &'a [OrderRow],
}
