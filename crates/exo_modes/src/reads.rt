//! What an expression may read beside names.

/// What an expression may read at its place.
#[derive(Clone, Copy)]
pub struct Reads {
    /// Fields of configurations.
    pub fields: bool,
    /// Strides of buffers.
    pub strides: bool,
}

/// In a bound, an index, a dimension, a coordinate.
pub const PLAINLY: Reads = Reads {
    fields: false,
    strides: false,
};

/// In the condition of a branch.
pub const WITH_FIELDS: Reads = Reads {
    fields: true,
    strides: false,
};

/// At the right of a configuration write.
pub const WITH_STRIDES: Reads = Reads {
    fields: false,
    strides: true,
};

/// In a control argument and in an assertion.
pub const WITH_BOTH: Reads = Reads {
    fields: true,
    strides: true,
};
