//! How the cells of a root lie.
ghost use Rattle.std.specs.Prelude.{IsTrue};
ghost use Rattle.affine_places.specs.Roots.{are_extents};

use exo_tree::Indices;

/// The extents of a dense buffer: at most 8, affine and over variables alone.
#[derive(Clone, Copy)]
pub(crate) struct Extents<'a> {
    pub(crate) list: &'a Indices,
    pub(crate) ghost plain: { IsTrue (are_extents list.now) },
}

/// How the cells of a root lie.
#[derive(Clone, Copy)]
pub(crate) enum Layout<'a> {
    /// Row by row, with these extents.
    Dense(Extents<'a>),
    /// By strides that are given.
    Strided,
}
