//! What claims are good for: where they hold, nothing faults.

pub mod laws;
