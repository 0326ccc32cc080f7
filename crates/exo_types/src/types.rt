//! Types and words, where parameters, statements and attributes name them.
ghost use Rattle.std.specs.Prelude.{◌≡◌, map, option_map};
ghost use Rattle.exo_tree.specs.PlainBinder.{cell_type, control_kind};
ghost use Rattle.exo_reader.specs.Views.{plain_kind};
ghost use Rattle.rules_names.specs.Faults.{charged};
ghost use Rattle.exo_types.specs.TypeRules.{cell_among, cell_of_text, cell_named, kind_of_text};
ghost use Rattle.exo_types.specs.TypeRules.{kind_named, cell_faults, kind_faults, cell_of, kind_of};

use exo_modes::is_same;
use exo_reader::source::SourceKind;
use exo_tree::{Cell, Kind};
use rules_names::error::TypeKind;
use rules_names::fault::Charge;

/// The types of cells by their words.
const CELL_WORDS: [(&[u8], Cell); 4] = [
    (b"i8", Cell::I8),
    (b"i16", Cell::I16),
    (b"i32", Cell::I32),
    (b"ui8", Cell::Ui8),
];

/// The type of cells of that name, among those of a table.
fn cell_among(mut words: &[(&[u8], Cell)], name: &[u8]) -> Option<Cell>
    ensures { option_map cell_type result ≡ cell_among (map (λ w. (w.0.now, cell_type w.1)) words.entry.now) name.now }
{
    while let [(word, cell), rest @ ..] = words {
        if is_same(name, word) {
            return Some(*cell);
        }
        words = rest;
    }
    None
}

/// The type of cells of that name.
pub fn cell_of_text(name: &[u8]) -> Option<Cell>
    ensures { option_map cell_type result ≡ cell_of_text name.now }
{
    cell_among(&CELL_WORDS, name)
}

/// The kind of control values of that name.
fn kind_of_text(name: &[u8]) -> Option<Kind>
    ensures { option_map control_kind result ≡ kind_of_text name.now }
{
    if is_same(name, b"size") {
        return Some(Kind::Size);
    }
    if is_same(name, b"index") {
        return Some(Kind::Index);
    }
    if is_same(name, b"bool") {
        return Some(Kind::Bool);
    }
    None
}

/// The type of cells that is written.
pub fn cell_named(kind: &SourceKind) -> Option<Cell>
    ensures { option_map cell_type result ≡ cell_named (plain_kind kind.now) }
{
    match kind {
        SourceKind::Stride => None,
        SourceKind::Named(name) => cell_of_text(name.as_slice()),
    }
}

/// The kind of control values that is written.
pub fn kind_named(kind: &SourceKind) -> Option<Kind>
    ensures { option_map control_kind result ≡ kind_named (plain_kind kind.now) }
{
    match kind {
        SourceKind::Stride => Some(Kind::Stride),
        SourceKind::Named(name) => kind_of_text(name.as_slice()),
    }
}

/// What a type breaks where one of cells is asked.
pub fn cell_charge(kind: &SourceKind, token: usize) -> Charge
    ensures { result ≡ charged (cell_faults (plain_kind kind.now) token) }
{
    if cell_named(kind).is_some() {
        return Charge::none();
    }
    if kind_named(kind).is_some() {
        return Charge::of(TypeKind::KindMismatch, token);
    }
    Charge::of(TypeKind::UnknownName, token)
}

/// What a type breaks where one of control values is asked.
pub fn kind_charge(kind: &SourceKind, token: usize) -> Charge
    ensures { result ≡ charged (kind_faults (plain_kind kind.now) token) }
{
    if kind_named(kind).is_some() {
        return Charge::none();
    }
    if cell_named(kind).is_some() {
        return Charge::of(TypeKind::KindMismatch, token);
    }
    Charge::of(TypeKind::UnknownName, token)
}

/// The type of cells that is written; `i32` where none is.
pub fn cell_of(kind: &SourceKind) -> Cell
    ensures { cell_type result ≡ cell_of (plain_kind kind.now) }
{
    match cell_named(kind) {
        Some(cell) => cell,
        None => Cell::I32,
    }
}

/// The kind of control values that is written; `index` where none is.
pub fn kind_of(kind: &SourceKind) -> Kind
    ensures { control_kind result ≡ kind_of (plain_kind kind.now) }
{
    match kind_named(kind) {
        Some(kind) => kind,
        None => Kind::Index,
    }
}
