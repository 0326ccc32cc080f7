//! What breaks no rule is a well-formed unit; strings of schedules stand for what the meaning has;
//! the text of a procedure is read as the procedure.
#![tactic(auto)]

pub mod instances;
pub mod laws;
pub mod shown;
pub mod strings;
