//! What is known of a procedure's names, and what stands against what where a callee's body and a
//! block are walked together.

mod buffer;
mod coordinates;
mod data;
mod ids;
mod names;
mod pair;
mod statements;
mod walk;

pub use buffer::{Buffer, difference};
pub use ids::IdSet;
pub use names::{NameTable, is_param};
pub use pair::Pair;
pub use walk::PairWalk;
