//! Trees of procedures: what a unit text is read to, what steps rewrite and what C is printed from.
#![tactic(auto)]

mod argument;
mod binder;
mod block;
mod control;
mod copy;
mod copy_unit;
mod counted;
mod data;
mod fresh;
mod ids;
pub mod laws;
mod leaves;
mod lines;
mod list;
mod mapped;
mod mapped_block;
mod number;
mod param;
mod place;
mod procedure;
mod substitution;
mod text;
mod unit;

pub use argument::{Arg, Args};
pub use binder::Binder;
pub use block::{Block, Stmt};
pub use control::{Cond, Coord, Ctrl};
pub use counted::{count_first, count_statements};
pub use data::DataExpr;
pub use fresh::fresh_copy;
pub use leaves::Leaves;
pub use lines::{Lines, ProcLines, StatementLines};
pub use list::{Conds, Coords, Indices};
pub use number::{Cell, FieldId, Id, Kind, MemId, ProcId};
pub use param::{Param, ParamKind, Params};
pub use place::{Branch, Path, Step, at};
pub use procedure::{Proc, Procs};
pub use substitution::{Replacing, subst};
pub use text::{Name, Text};
pub use unit::{Field, Fields, Memories, MemoryClass, Unit};
