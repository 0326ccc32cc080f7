//! Which rule on memories is broken.

/// The rule that is broken.
#[derive(Clone, Copy)]
pub enum KindError {
    /// A read in a memory that does not allow it.
    NotReadable,
    /// An assignment in a memory that does not allow it.
    NotWritable,
    /// A reduction in a memory that does not allow it.
    NotReducible,
    /// A parameter in a memory with lanes, or an argument in another memory than the parameter.
    MemoryMismatch,
    /// An allocation of another cell type than its memory takes.
    PrecisionMismatch,
    /// Cells in a memory with lanes whose last dimension is not the literal number of lanes, a view of such a memory, or
    /// a window of one as an argument whose last coordinate is not the span from 0 to the number of lanes.
    LaneMismatch,
    /// An allocation on the stack with a dimension that is not a literal.
    NotLiteral,
}
