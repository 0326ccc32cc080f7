//! Why a unit is not well formed, and where.

use thiserror::Error;

/// The rule that is broken, or want of memory.
#[derive(Clone, Copy, Debug, Error)]
pub enum TypeKind {
    /// Nothing of that name is in scope, or there is no such type, memory, field, attribute, procedure or hole.
    #[error("UnknownName")]
    UnknownName,
    /// The name is given already.
    #[error("Redefined")]
    Redefined,
    /// An expression, an argument, a target or an attribute of another kind than its place asks.
    #[error("KindMismatch")]
    KindMismatch,
    /// Another number of indices, coordinates, spans or arguments, or a stride of a dimension that there is none of.
    #[error("RankMismatch")]
    RankMismatch,
    /// A product of two sides with variables, or a divisor that is no literal from 1 on.
    #[error("NotAffine")]
    NotAffine,
    /// A field of a configuration stands where none may be read.
    #[error("ConfigPlace")]
    ConfigPlace,
    /// A stride stands where none may be read.
    #[error("StridePlace")]
    StridePlace,
    /// Two arguments of one call are parts of one buffer, and the callee writes one of them.
    #[error("SharedArgument")]
    SharedArgument,
    /// There was no memory; no rule is.
    #[error("Memory")]
    Memory,
}

/// The first rule that a text breaks, and its place, counted from 1. Both numbers are 0 for want of memory.
#[derive(Clone, Copy)]
pub struct TypeError {
    pub line: u32,
    pub column: u32,
    pub kind: TypeKind,
}
