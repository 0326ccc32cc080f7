// Places in a text.

use crate::token::Token;

/// A place in a text; both numbers count from 1.
#[derive(Clone, Copy)]
pub struct Place {
    pub line: u32,
    pub column: u32,
}

/// A token and its place.
#[derive(Drop)]
pub struct Placed {
    pub place: Place,
    pub token: Token,
}
