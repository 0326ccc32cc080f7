//! Expressions over cells.

use crate::list::Indices;
use crate::number::Id;

/// An expression over the cells of buffers. All is done on 32-bit signed numbers and wraps.
pub enum DataExpr {
    Lit(i64),
    Read(Id, Indices),
    Neg(Box<DataExpr>),
    Add(Box<DataExpr>, Box<DataExpr>),
    Sub(Box<DataExpr>, Box<DataExpr>),
    Mul(Box<DataExpr>, Box<DataExpr>),
    /// The value where it is above 0, else 0.
    Relu(Box<DataExpr>),
    /// `Select(x, v, y, z)` is `y` where `x < v`, else `z`.
    Select(Box<DataExpr>, Box<DataExpr>, Box<DataExpr>, Box<DataExpr>),
}

impl Drop for DataExpr {
    fn drop(self) {
        match self {
            Self::Lit(_)
            | Self::Read(_, _)
            | Self::Neg(_)
            | Self::Add(_, _)
            | Self::Sub(_, _)
            | Self::Mul(_, _)
            | Self::Relu(_)
            | Self::Select(_, _, _, _) => {}
        }
    }
}
