//! Control expressions that are written out from their normal forms.

pub mod laws;
