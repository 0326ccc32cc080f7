//! What names stand for.
ghost use Rattle.std.specs.Prelude.{◌≡◌};
ghost use Rattle.exo_tree.specs.PlainBinder.{cell_type};
ghost use Rattle.exo_tree.specs.PlainParam.{parameter_kind};
ghost use Rattle.exo_meaning.specs.Units as units;
ghost use Rattle.exo_modes.specs.Sorts.{sort_meant, sort_seen};

use exo_tree::{Cell, Kind, ParamKind};

/// What sort of thing a name stands for.
#[derive(Clone, Copy)]
pub enum Sort {
    Control(Kind),
    /// A buffer or view with its cell type and rank, and whether it is a whole dense tensor.
    Buffer(Cell, usize, bool),
}

/// Whether it is a number: a size, an index or a stride.
pub fn is_number(sort: Option<Sort>) -> bool
    ensures { result ≡ units.is_number (sort_seen sort) }
{
    match sort {
        Some(Sort::Control(kind)) => kind != Kind::Bool,
        _ => false,
    }
}

/// Whether it is a bool.
pub fn is_flag(sort: Option<Sort>) -> bool
    ensures { result ≡ units.is_flag (sort_seen sort) }
{
    match sort {
        Some(Sort::Control(kind)) => kind == Kind::Bool,
        _ => false,
    }
}

/// Whether it is a buffer or view of that rank.
pub fn has_rank(rank: usize, sort: Option<Sort>) -> bool
    ensures { result ≡ units.has_rank rank (sort_seen sort) }
{
    match sort {
        Some(Sort::Buffer(_, known, _)) => rank == known,
        _ => false,
    }
}

/// Whether it has a dimension of that number.
pub fn has_dimension(k: u32, sort: Option<Sort>) -> bool
    ensures { result ≡ units.has_dimension k (sort_seen sort) }
{
    match sort {
        Some(Sort::Buffer(_, rank, _)) => (k as usize) < rank,
        _ => false,
    }
}

/// Whether it is a buffer or view of that cell type.
pub fn has_cell(cell: Cell, sort: Option<Sort>) -> bool
    ensures { result ≡ units.has_cell (cell_type cell) (sort_seen sort) }
{
    match sort {
        Some(Sort::Buffer(known, _, _)) => known == cell,
        _ => false,
    }
}

/// Whether it is a whole dense tensor.
pub fn is_dense(sort: Option<Sort>) -> bool
    ensures { result ≡ units.is_dense (sort_seen sort) }
{
    match sort {
        Some(Sort::Buffer(_, _, dense)) => dense,
        _ => false,
    }
}

/// What a parameter stands for.
pub fn param_sort(kind: &ParamKind) -> Sort
    ensures { sort_meant result ≡ units.param_sort (parameter_kind kind.now) }
{
    match kind {
        ParamKind::Ctrl(kind) => Sort::Control(*kind),
        ParamKind::Tensor(cell, dims, _) => Sort::Buffer(*cell, dims.len(), true),
        ParamKind::Window(cell, dims, _) => Sort::Buffer(*cell, dims.len(), false),
    }
}
