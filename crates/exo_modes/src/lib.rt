//! What sort of thing a name stands for, and what an expression may read; which buffers a procedure
//! reads, writes or reduces: directly, through a view, or through a call; and whom it calls.
#![tactic(auto)]

mod aliases;
pub mod calls;
mod mode;
mod reads;
mod row;
mod sorts;
mod table;
mod texts;
mod walk;

pub use aliases::{Alias, is_part, root, same_buffer, set_root};
pub use mode::Modes;
pub use reads::{PLAINLY, Reads, WITH_BOTH, WITH_FIELDS, WITH_STRIDES};
pub use row::ModesRow;
pub use sorts::{
    Sort, has_cell, has_dimension, has_rank, is_dense, is_flag, is_number, param_sort,
};
pub use table::{ModeTable, modes};
pub use texts::{is_data_of, is_same};
pub use walk::{CallableModes, row_of};
