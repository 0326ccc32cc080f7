//! Source trees of expressions: a text as it is written, without names resolved.

use text_lexer::text::Text;

/// An operator between two expressions.
#[derive(Clone, Copy)]
pub enum Infix {
    /// `or`
    Or,
    /// `and`
    And,
    /// `<`
    Lt,
    /// `<=`
    Le,
    /// `>`
    Gt,
    /// `>=`
    Ge,
    /// `==`
    Eq,
    /// `+`
    Add,
    /// `-`
    Sub,
    /// `*`
    Mul,
    /// `/`
    Div,
    /// `%`
    Mod,
}

/// An expression as it is written.
pub enum SourceExpr {
    /// A literal, below 2^31.
    Int(u32),
    /// `True` or `False`
    Truth(bool),
    Name(Text),
    /// A cell, `x[e, ..]`, with at least one index and at most 8.
    Access(Text, Vec<SourceExpr>),
    /// A field of a configuration, `C.f`.
    Field(Text, Text),
    /// The stride of a tensor in a dimension, `stride(x, 0)`.
    Stride(Text, u32),
    /// `relu(e)`
    Relu(Box<SourceExpr>),
    /// `select(a, b, c, d)`
    Select(Box<SourceExpr>, Box<SourceExpr>, Box<SourceExpr>, Box<SourceExpr>),
    Negative(Box<SourceExpr>),
    /// An expression in parentheses.
    Parens(Box<SourceExpr>),
    Binary(Infix, Box<SourceExpr>, Box<SourceExpr>),
}

impl Drop for SourceExpr {
    fn drop(self) {
        match self {
            Self::Int(_)
            | Self::Truth(_)
            | Self::Name(_)
            | Self::Access(_, _)
            | Self::Field(_, _)
            | Self::Stride(_, _)
            | Self::Relu(_)
            | Self::Select(_, _, _, _)
            | Self::Negative(_)
            | Self::Parens(_)
            | Self::Binary(_, _, _) => {}
        }
    }
}
