//! Strides of roots.
ghost use Rattle.std.specs.Prelude.{◌≡◌, ◌&&◌, IsTrue};
ghost use Rattle.affine_forms.specs.Outcomes.{Formed};
ghost use Rattle.affine_forms.specs.Forms.{is_short_form};
ghost use Rattle.affine_places.specs.Roots.{Dense, are_extents};
ghost use Rattle.affine_places.specs.Readings.{extent_reading, root_stride, root_stride_fits, stride_of, stride_of_fits};
ghost use Rattle.affine_places.specs.Seen.{plain_layout, roots_in};

use crate::layout::Layout;
use crate::roots::Roots;
use affine_forms::{Atom, Draft, FormError, Reader, dense_stride};
use exo_tree::{FieldId, Id, Indices};
use std::alloc::Global;

/// Within an extent, which is over variables alone.
#[derive(Drop)]
pub(crate) struct InExtent;

impl Reader for InExtent {
    ghost reading = { λ r. extent_reading };

    fn variable(&self, alloc: Global, x: Id) -> Result<Draft, FormError> {
        let l = Draft::only(alloc, Atom::Variable(x))?;
        Ok(l)
    }

    fn field(&self, alloc: Global, _f: FieldId) -> Result<Draft, FormError> {
        Draft::constantly(alloc, 0)
    }

    fn stride(&self, alloc: Global, _x: Id, _k: u32) -> Result<Draft, FormError> {
        Draft::constantly(alloc, 0)
    }
}

/// The stride of a dimension of a dense root; 0 where it has no such dimension.
fn dense(alloc: Global, root: Id, d: u32, list: &Indices) -> Result<Draft, FormError>
    requires { IsTrue (are_extents list.now) }
    ensures { Formed result
        (root_stride_fits d (Dense list.now)
        && is_short_form (root_stride root.0 d (Dense list.now)))
        (root_stride root.0 d (Dense list.now)) }
{
    let extents = list.as_slice();
    if (d as usize) < extents.len() {
        dense_stride(alloc, &InExtent, root, d, extents)
    } else {
        Draft::constantly(alloc, 0)
    }
}

/// The stride of a root's dimension.
fn root_stride(alloc: Global, root: Id, d: u32, layout: Layout<'_>) -> Result<Draft, FormError>
    ensures { Formed result
        (root_stride_fits d (plain_layout layout.entry)
        && is_short_form (root_stride root.0 d (plain_layout layout.entry)))
        (root_stride root.0 d (plain_layout layout.entry)) }
{
    match layout {
        Layout::Dense(extents) => dense(alloc, root, d, extents.list),
        Layout::Strided => {
            let l = Draft::only(alloc, Atom::OpaqueStride(root, d))?;
            Ok(l)
        }
    }
}

/// The stride of a name's coordinate: that of the root's dimension over which the coordinate runs.
pub(crate) fn stride_of(alloc: Global, roots: &Roots<'_>, x: Id, k: u32) -> Result<Draft, FormError>
    ensures { Formed result
        (stride_of_fits (roots_in roots.now x.0) k
        && is_short_form (stride_of (roots_in roots.now x.0) k))
        (stride_of (roots_in roots.now x.0) k) }
{
    let Some(seen) = roots.get(x) else {
        return Draft::constantly(alloc, 0);
    };
    match seen.dims.get(k as usize) {
        None => Draft::constantly(alloc, 0),
        Some(d) => root_stride(alloc, seen.root, *d, seen.layout),
    }
}
