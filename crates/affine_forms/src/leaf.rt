//! Atoms that are no quotients, as the rows of a table hold them.
ghost use Rattle.std.specs.Prelude.{◌≡◌, IfOk};
ghost use Rattle.exo_tree.specs.PlainBinder.{control_kind};
ghost use Rattle.affine_forms.specs.Atoms as plain;
ghost use Rattle.affine_forms.specs.Atoms.{same_atom};
ghost use Rattle.affine_forms.specs.Tables.{leaf_atom};
ghost use Rattle.affine_forms.specs.PlainAtoms.{plain_atom};
ghost use Rattle.affine_forms.specs.PlainTables.{plain_leaf};

use crate::atom::{Atom, is_same_kind, is_same_path};
use exo_tree::{FieldId, Id, Kind, Path};
use std::alloc::AllocError;
use std::sync::Arc;

/// An atom that is no quotient.
pub(crate) enum Leaf {
    Variable(Id),
    EntryField(FieldId, Kind),
    UnknownField(FieldId, Kind, Arc<Path>),
    OpaqueStride(Id, u32),
}

impl Drop for Leaf {
    fn drop(self) {
        match self {
            Self::Variable(_)
            | Self::EntryField(_, _)
            | Self::UnknownField(_, _, _)
            | Self::OpaqueStride(_, _) => {}
        }
    }
}

impl Leaf {
    pub(crate) fn duplicate(&self) -> Result<Leaf, AllocError>
        ensures { IfOk result (λ a. plain_leaf a ≡ plain_leaf self.now) }
    {
        match self {
            Leaf::Variable(x) => Ok(Leaf::Variable(*x)),
            Leaf::EntryField(f, kind) => Ok(Leaf::EntryField(*f, *kind)),
            Leaf::UnknownField(f, kind, path) => {
                let shared = path.clone()?;
                Ok(Leaf::UnknownField(*f, *kind, shared))
            }
            Leaf::OpaqueStride(x, k) => Ok(Leaf::OpaqueStride(*x, *k)),
        }
    }

    /// The atom.
    pub(crate) fn atom(&self) -> Result<Atom, AllocError>
        ensures { IfOk result (λ a. plain_atom a ≡ leaf_atom (plain_leaf self.now)) }
    {
        match self {
            Leaf::Variable(x) => Ok(Atom::Variable(*x)),
            Leaf::EntryField(f, kind) => Ok(Atom::EntryField(*f, *kind)),
            Leaf::UnknownField(f, kind, path) => {
                let shared = path.clone()?;
                Ok(Atom::UnknownField(*f, *kind, shared))
            }
            Leaf::OpaqueStride(x, k) => Ok(Atom::OpaqueStride(*x, *k)),
        }
    }

    /// Whether two leaves are equal.
    pub(crate) fn same(&self, other: &Leaf) -> bool
        ensures { result
            ≡ same_atom (leaf_atom (plain_leaf self.now)) (leaf_atom (plain_leaf other.now)) }
    {
        match self {
            Leaf::Variable(x) => other.is_variable(*x),
            Leaf::EntryField(f, kind) => other.is_entry(*f, *kind),
            Leaf::UnknownField(f, kind, path) => other.is_unknown(*f, *kind, path.as_ref()),
            Leaf::OpaqueStride(x, k) => other.is_stride(*x, *k),
        }
    }

    /// Whether a leaf is that variable.
    fn is_variable(&self, x: Id) -> bool
        ensures { result ≡ same_atom (plain.Variable x.0) (leaf_atom (plain_leaf self.now)) }
    {
        match self {
            Leaf::Variable(y) => x.0 == y.0,
            Leaf::EntryField(_, _) => false,
            Leaf::UnknownField(_, _, _) => false,
            Leaf::OpaqueStride(_, _) => false,
        }
    }

    /// Whether a leaf is that field at entry.
    fn is_entry(&self, f: FieldId, kind: Kind) -> bool
        ensures { result
            ≡ same_atom (plain.EntryField f.0 (control_kind kind))
            (leaf_atom (plain_leaf self.now)) }
    {
        match self {
            Leaf::Variable(_) => false,
            Leaf::EntryField(g, other) => f.0 == g.0 && is_same_kind(kind, *other),
            Leaf::UnknownField(_, _, _) => false,
            Leaf::OpaqueStride(_, _) => false,
        }
    }

    /// Whether a leaf is that unknown field.
    fn is_unknown(&self, f: FieldId, kind: Kind, path: &Path) -> bool
        ensures { result
            ≡ same_atom (plain.UnknownField f.0 (control_kind kind) path.now)
            (leaf_atom (plain_leaf self.now)) }
    {
        match self {
            Leaf::Variable(_) => false,
            Leaf::EntryField(_, _) => false,
            Leaf::UnknownField(g, other, at) => (f.0 == g.0 && is_same_kind(kind, *other))
                && is_same_path(path.as_slice(), at.as_ref().as_slice()),
            Leaf::OpaqueStride(_, _) => false,
        }
    }

    /// Whether a leaf is that stride.
    fn is_stride(&self, x: Id, k: u32) -> bool
        ensures { result ≡ same_atom (plain.OpaqueStride x.0 k) (leaf_atom (plain_leaf self.now)) }
    {
        match self {
            Leaf::Variable(_) => false,
            Leaf::EntryField(_, _) => false,
            Leaf::UnknownField(_, _, _) => false,
            Leaf::OpaqueStride(y, j) => x.0 == y.0 && k == *j,
        }
    }
}
