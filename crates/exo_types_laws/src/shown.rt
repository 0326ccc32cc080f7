//! The text of a procedure is read as the procedure.

pub mod laws;
