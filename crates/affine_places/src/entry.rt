//! What stands for variables, fields and strides where a procedure begins.
ghost use Rattle.std.specs.Prelude.{◌≡◌, true};
ghost use Rattle.exo_tree.specs.PlainBinder.{control_kind};
ghost use Rattle.affine_places.specs.Facts.{kind_of};
ghost use Rattle.affine_places.specs.Readings.{entry_reading, entry_flags};
ghost use Rattle.affine_places.specs.Seen.{roots_in};

use crate::extents::stride_of;
use crate::roots::Roots;
use affine_forms::{Atom, Draft, FlagReader, FormError, Formula, Reader};
use exo_tree::{FieldId, Fields, Id, Kind};
use std::alloc::Global;

/// The kind of a field.
pub fn kind_of(fields: &Fields, f: FieldId) -> Kind
    ensures { control_kind result ≡ kind_of fields.now f.0 }
{
    match fields.get(f.0 as usize) {
        Some(field) => field.kind,
        None => Kind::Index,
    }
}

/// Where a procedure begins: each field has its value at entry, and a stride is that of a root's dimension.
#[derive(Drop)]
pub struct AtEntry<'a, 'r> {
    pub fields: &'a Fields,
    pub roots: &'a Roots<'r>,
}

impl Reader for AtEntry<'_, '_> {
    ghost reading = { λ r. entry_reading r.fields.now (roots_in r.roots.now) };

    fn variable(&self, alloc: Global, x: Id) -> Result<Draft, FormError> {
        let l = Draft::only(alloc, Atom::Variable(x))?;
        Ok(l)
    }

    fn field(&self, alloc: Global, f: FieldId) -> Result<Draft, FormError> {
        let l = Draft::only(alloc, Atom::EntryField(f, kind_of(self.fields, f)))?;
        Ok(l)
    }

    fn stride(&self, alloc: Global, x: Id, k: u32) -> Result<Draft, FormError> {
        stride_of(alloc, self.roots, x, k)
    }
}

impl FlagReader for AtEntry<'_, '_> {
    ghost flags = { λ r. entry_flags r.fields.now };

    ghost flag_fits = { λ r f. true };

    fn flag(&self, alloc: Global, x: Id) -> Result<Formula, FormError> {
        let f = Formula::is_set(alloc, Atom::Variable(x))?;
        Ok(f)
    }

    fn field_flag(&self, alloc: Global, f: FieldId) -> Result<Formula, FormError> {
        let set = Formula::is_set(alloc, Atom::EntryField(f, kind_of(self.fields, f)))?;
        Ok(set)
    }
}
