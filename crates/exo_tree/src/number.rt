//! The numbers by which trees speak of binders and of a unit's tables.
ghost use Rattle.std.specs.Prelude.{◌≡◌};
ghost use Rattle.exo_tree.specs.Named.{cell_word};
ghost use Rattle.exo_tree.specs.PlainBinder.{cell_type};

/// A binder of a procedure.
#[derive(Clone, Copy, PartialEq, Eq)]
pub struct Id(pub u32);

/// A procedure of a unit, counted from 0 in the order of the text, and then of the versions made by steps.
#[derive(Clone, Copy, PartialEq, Eq)]
pub struct ProcId(pub u32);

/// A field of a configuration, in the unit's list of fields.
#[derive(Clone, Copy, PartialEq, Eq)]
pub struct FieldId(pub u32);

/// A memory, in the unit's list of memories.
#[derive(Clone, Copy, PartialEq, Eq)]
pub struct MemId(pub u32);

/// The type of a data cell: a whole number of 8, 16 or 32 bits with a sign, or of 8 bits without one.
#[derive(Clone, Copy, PartialEq, Eq)]
pub enum Cell {
    I8,
    I16,
    I32,
    Ui8,
}

impl Cell {
    /// The word of the type in unit texts, and in the names of C's structs.
    pub fn word(self) -> &'static str
        ensures { result.now ≡ cell_word (cell_type self) }
    {
        match self {
            Cell::I8 => "i8",
            Cell::I16 => "i16",
            Cell::I32 => "i32",
            Cell::Ui8 => "ui8",
        }
    }
}

/// The kind of a control value.
#[derive(Clone, Copy, PartialEq, Eq)]
pub enum Kind {
    Size,
    Index,
    Bool,
    Stride,
}
