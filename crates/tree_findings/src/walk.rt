//! What a walk through a body knows.
ghost use Rattle.std.specs.Prelude.{◌≡◌, ◌++◌, ◌∷◌, [], Some, OnOk};
ghost use Rattle.exo_tree.specs.Tree as tree;
ghost use Rattle.exo_tree.specs.PlainBinder.{binding, cell_type};
ghost use Rattle.exo_meaning.specs.Units as units;
ghost use Rattle.exo_meaning.specs.Units.{with_name};
ghost use Rattle.exo_modes.specs.Sorts.{sort_meant};
ghost use Rattle.tree_findings.specs.Walked.{walk_scope, Walked};

use crate::call::Surroundings;
use crate::expression::spans;
use crate::name::ScopeNames;
use crate::scope::{ScopeEntry, sort_in};
use exo_modes::{Alias, Sort, root, set_root};
use exo_tree::{Binder, Cell, Coords, Id, Indices, MemId};
use std::alloc::{AllocError, Global};

/// What a walk through a body knows: the names in scope, the innermost last, and the buffers of
/// views.
pub(crate) struct ScopeWalk<'u> {
    pub(crate) entries: Vec<ScopeEntry<'u>>,
    pub(crate) aliases: Vec<Alias>,
}

impl Drop for ScopeWalk<'_> {
    fn drop(self) {
        let Self {
            entries: _,
            aliases: _,
        } = self;
    }
}

impl<'u> ScopeWalk<'u> {
    /// A walk before its first statement.
    pub(crate) fn new(alloc: Global) -> ScopeWalk<'u>
        ensures entries { result.entries.items ≡ [] }
        ensures aliases { result.aliases.items ≡ [] }
    {
        ScopeWalk {
            entries: Vec::new(alloc),
            aliases: Vec::new(alloc),
        }
    }

    /// Puts a name into scope.
    pub(crate) fn bind(&mut self, binder: &'u Binder, sort: Sort) -> Result<(), AllocError>
        ensures entries { OnOk result (self.new.entries.items
            ≡ self.old.entries.items ++ record { binder = binder.entry; sort = sort } ∷ []) }
        ensures scope { OnOk result (walk_scope self.new
            ≡ with_name (walk_scope self.old) (binding binder.now) (sort_meant sort)) }
        ensures aliases { OnOk result (self.new.aliases.items ≡ self.old.aliases.items) }
    {
        self.entries.push(ScopeEntry { binder, sort })?;
        Ok(())
    }

    /// What names stand for where the walk is.
    pub(crate) fn names<'n>(&'n self, ground: &Surroundings<'u>) -> ScopeNames<'n, 'u>
        ensures fields { result.fields.now ≡ ground.now.unit.now.fields }
        ensures entries { result.entries.now ≡ self.now.entries.items }
    {
        ScopeNames {
            fields: &ground.unit.fields,
            entries: self.entries.as_slice(),
        }
    }
}

/// What a view of that rank stands for; of what is no buffer there is none.
fn view_sort(sort: Sort, rank: usize) -> Sort
    ensures { sort_meant result ≡ units.view_sort (Some (sort_meant sort)) rank }
{
    match sort {
        Sort::Buffer(cell, _, _) => Sort::Buffer(cell, rank, false),
        Sort::Control(_) => Sort::Buffer(Cell::I32, rank, false),
    }
}

/// Goes over an allocation.
pub(crate) fn walk_alloc<'u>(
    walk: &mut ScopeWalk<'u>,
    x: &'u Binder,
    cell: Cell,
    dims: &Indices,
    memory: MemId,
) -> Result<(), AllocError>
    ensures { OnOk result (Walked walk.old walk.new
        (tree.Alloc (binding x.now) (cell_type cell) dims.now memory.0)) }
{
    walk.bind(x, Sort::Buffer(cell, dims.len(), true))?;
    set_root(&mut walk.aliases, x.id.0, x.id.0)
}

/// Goes over a view.
pub(crate) fn walk_view<'u>(
    walk: &mut ScopeWalk<'u>,
    w: &'u Binder,
    x: Id,
    coords: &Coords,
) -> Result<(), AllocError>
    ensures { OnOk result (Walked walk.old walk.new (tree.View (binding w.now) x.0 coords.now)) }
{
    let buffer = root(walk.aliases.as_slice(), x.0);
    if let Some(sort) = sort_in(walk.entries.as_slice(), x) {
        walk.bind(w, view_sort(sort, spans(coords.as_slice())))?;
    }
    set_root(&mut walk.aliases, w.id.0, buffer)
}
