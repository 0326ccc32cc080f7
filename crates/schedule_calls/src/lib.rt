//! What the lines of a schedule ask for, by their text alone: strings are read, names are not looked
//! up. A line is refused here where its operator is unknown or its arguments have not its form.
#![tactic(auto)]

mod argument;
mod change;
mod division;
mod keeping;
pub mod laws;
mod line;
mod operation;
mod operator;
mod request;
mod string;

pub use line::read_line;
pub use operator::{ControlOperator, CursorOperator, WholeOperator, WordOperator};
pub use request::{Asked, Change, Division, LineFault, Operation, Request, Source, Tail};
