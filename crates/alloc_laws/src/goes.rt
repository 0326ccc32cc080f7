//! Staged blocks in the place of blocks that leave names of their own.

pub mod laws;
