//! The strides of dense buffers.
ghost use Rattle.std.specs.Prelude.{◌≡◌, ◌<◌, IsTrue, length, map};
ghost use Rattle.exo_tree.specs.PlainControl.{control};
ghost use Rattle.affine_forms.specs.Outcomes.{Formed};
ghost use Rattle.affine_forms.specs.Forms.{is_short_form};
ghost use Rattle.affine_forms.specs.Strides.{are_numbers, is_one_open, product_form};
ghost use Rattle.affine_forms.specs.Strides.{product_fits, dense_stride, dense_stride_fits};
ghost use Rattle.affine_forms.specs.Strides.{all_keep_rules};
ghost use Rattle.exo_meaning.specs.Units.{is_literal};

use crate::atom::Atom;
use crate::error::FormError;
use crate::linear::Draft;
use crate::reader::{Reader, form, times};
use exo_tree::{Ctrl, Id};
use std::alloc::Global;

/// Whether an extent is a literal as a tree.
fn is_literal(e: &Ctrl) -> bool
    ensures { result ≡ is_literal (control e.now) }
{
    match e {
        Ctrl::Lit(_) => true,
        Ctrl::Var(_) => false,
        Ctrl::Field(_) => false,
        Ctrl::Stride(_, _) => false,
        Ctrl::Neg(_) => false,
        Ctrl::Add(_, _) => false,
        Ctrl::Sub(_, _) => false,
        Ctrl::Mul(_, _) => false,
        Ctrl::Div(_, _) => false,
        Ctrl::Mod(_, _) => false,
    }
}

/// Whether all extents are literals.
fn are_numbers(extents: &[Ctrl]) -> bool
    ensures { result ≡ are_numbers (map control extents.now) }
{
    match extents.split_first() {
        None => true,
        Some((e, rest)) => is_literal(e) && are_numbers(rest),
    }
}

/// Whether at most one extent is no literal.
fn is_one_open(extents: &[Ctrl]) -> bool
    ensures { result ≡ is_one_open (map control extents.now) }
{
    match extents.split_first() {
        None => true,
        Some((e, rest)) => {
            if is_literal(e) {
                is_one_open(rest)
            } else {
                are_numbers(rest)
            }
        }
    }
}

/// The product of extents, of which at most one is no literal.
pub fn extent_product<R: Reader>(
    alloc: Global,
    reader: &R,
    extents: &[Ctrl],
) -> Result<Draft, FormError>
    requires { IsTrue (all_keep_rules (map control extents.now)) }
    ensures { Formed result (product_fits (R.reading reader.now) (map control extents.now))
        (product_form (R.reading reader.now) (map control extents.now)) }
{
    match extents.split_first() {
        None => Draft::constantly(alloc, 1),
        Some((e, rest)) => {
            let extent = form(alloc, reader, e)?;
            let after = extent_product(alloc, reader, rest)?;
            times(alloc, is_literal(e), &extent, &after)
        }
    }
}

/// The stride of a dimension of a dense buffer: the product of the extents after it, where at most one of these
/// is no literal, else an atom of its own.
pub fn dense_stride<R: Reader>(
    alloc: Global,
    reader: &R,
    root: Id,
    k: u32,
    extents: &[Ctrl],
) -> Result<Draft, FormError>
    requires inside { k < length extents.now }
    requires rules { IsTrue (all_keep_rules (map control extents.now)) }
    ensures { Formed result
        (dense_stride_fits (R.reading reader.now) k (map control extents.now))
        (dense_stride (R.reading reader.now) root.0 k (map control extents.now)) }
{
    let later = &extents[k as usize + 1..];
    if is_one_open(later) {
        extent_product(alloc, reader, later)
    } else {
        let l = Draft::only(alloc, Atom::OpaqueStride(root, k))?;
        Ok(l)
    }
}
