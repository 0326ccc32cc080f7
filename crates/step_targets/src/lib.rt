//! The kinds of what steps stand on; what operators find at their places, and what they make of
//! it: loops, blocks that are made, paths, shifts, and what is owed.
#![tactic(auto)]

mod bounds;
mod left;
mod loops;
mod moves;
mod nth;
mod on_loop;
mod on_piece;
mod owing;
mod places;
mod ruled;
mod scopes;

pub use bounds::InBound;
pub use left::{Alone, Left, binds};
pub use loops::{LoopAt, copies, loop_at, loop_in, loop_of, only_loop, only_statement};
pub use moves::{all_moved, alone_to, one_shift, range_to};
pub use nth::is_here;
pub use on_loop::{AtLoop, OnLoop};
pub use on_piece::{AtPiece, OnPiece};
pub use owing::{apart, at_most, header, single_need, statement_count};
pub use places::{FIRST, at_index, numbered, path_below, path_onward};
pub use ruled::{Plain, Ruled};
pub use scopes::{Missing, scope_before};
