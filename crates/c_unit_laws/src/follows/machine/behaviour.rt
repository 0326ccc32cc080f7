//! What is read off the C machine: the helpers of a printed file, runs that compute, and fields that
//! stay.

pub mod laws;
