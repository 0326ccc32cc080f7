//! Trees that rewrites make: the ids and names of their binders, and blocks that are left empty.

mod boxes;
mod copies;
mod free;
mod fresh;
mod ids;
mod name;
mod naming;
mod pass;

pub use boxes::boxed_copy;
pub use copies::named_copies;
pub use fresh::Fresh;
pub use ids::{are_distinct, next_id, put_block};
pub use pass::or_pass;
