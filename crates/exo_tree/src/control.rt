//! Expressions over control values.

use crate::number::{FieldId, Id};

/// An expression over sizes, indices, strides and fields. Literals are from 0 to 2^31 - 1.
pub enum Ctrl {
    Lit(i64),
    Var(Id),
    Field(FieldId),
    /// The stride of a buffer's dimension, counted from 0.
    Stride(Id, u32),
    Neg(Box<Ctrl>),
    Add(Box<Ctrl>, Box<Ctrl>),
    Sub(Box<Ctrl>, Box<Ctrl>),
    /// One side is built of literals alone.
    Mul(Box<Ctrl>, Box<Ctrl>),
    /// The quotient by a literal of at least 1, rounded towards minus infinity.
    Div(Box<Ctrl>, i64),
    /// The remainder of that quotient.
    Mod(Box<Ctrl>, i64),
}

impl Drop for Ctrl {
    fn drop(self) {
        match self {
            Self::Lit(_)
            | Self::Var(_)
            | Self::Field(_)
            | Self::Stride(_, _)
            | Self::Neg(_)
            | Self::Add(_, _)
            | Self::Sub(_, _)
            | Self::Mul(_, _)
            | Self::Div(_, _)
            | Self::Mod(_, _) => {}
        }
    }
}

/// A condition over control values.
pub enum Cond {
    True,
    False,
    Var(Id),
    Field(FieldId),
    Lt(Ctrl, Ctrl),
    Le(Ctrl, Ctrl),
    Gt(Ctrl, Ctrl),
    Ge(Ctrl, Ctrl),
    Eq(Ctrl, Ctrl),
    And(Box<Cond>, Box<Cond>),
    Or(Box<Cond>, Box<Cond>),
}

impl Drop for Cond {
    fn drop(self) {
        match self {
            Self::True
            | Self::False
            | Self::Var(_)
            | Self::Field(_)
            | Self::Lt(_, _)
            | Self::Le(_, _)
            | Self::Gt(_, _)
            | Self::Ge(_, _)
            | Self::Eq(_, _)
            | Self::And(_, _)
            | Self::Or(_, _) => {}
        }
    }
}

/// One coordinate of a window: a point, or a span from its lower end up to the end that it does not reach.
pub enum Coord {
    At(Ctrl),
    Span(Ctrl, Ctrl),
}

impl Drop for Coord {
    fn drop(self) {
        match self {
            Self::At(_) | Self::Span(_, _) => {}
        }
    }
}
