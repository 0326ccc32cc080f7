//! Patterns.
use exo_tree::Name;

/// Which statements are meant. No name stands for any.
pub enum Pattern {
    /// A loop over that index.
    Loop(Option<Name>),
    /// A loop over the first index, whose only statement is a loop over the second.
    Nest(Option<Name>, Option<Name>),
    /// The allocation of that buffer.
    Alloc(Option<Name>),
    /// An assignment to that buffer or view, or a view that is bound to that name.
    Assign(Option<Name>),
    /// A reduction into that buffer or view.
    Reduce(Option<Name>),
    If,
    /// A call of that procedure.
    Call(Option<Name>),
    Pass,
    /// A write of a configuration's field, by the names of both.
    Config(Option<Name>, Option<Name>),
}

impl Drop for Pattern {
    fn drop(self) {
        match self {
            Self::Loop(_)
            | Self::Nest(_, _)
            | Self::Alloc(_)
            | Self::Assign(_)
            | Self::Reduce(_)
            | Self::If
            | Self::Call(_)
            | Self::Pass
            | Self::Config(_, _) => {}
        }
    }
}

/// Which expressions of a right side are meant.
#[derive(Drop)]
pub enum ExprForm {
    /// A read of that buffer or view, or of any.
    Read(Option<Name>),
    Add,
    Sub,
    Mul,
}

/// One expression of a right side: of those of the form, the one of that number in preorder, counted from 0.
#[derive(Drop)]
pub struct ExprPattern {
    pub form: ExprForm,
    pub nth: u32,
}
