//! Rows with a coefficient for each variable: made of a system's, put in one another, tightened, merged, and freed of a variable.

mod combine;
mod dense;
mod equations;
mod list;
mod merging;
mod number;
mod row;
mod signs;

pub use combine::combine_all;
pub use dense::dense_rows;
pub use equations::{solvable, substitute, two_rows_each};
pub use merging::normalize;
pub use row::DenseRow;
pub use signs::{BySign, cheapest, split};
