//! Claims of indices, windows and reads.
ghost use Rattle.std.specs.Prelude.{◌≡◌, ◌++◌, IsTrue, map, OnOk};
ghost use Rattle.std.specs.List.{list_all};
ghost use Rattle.exo_tree.specs.PlainControl.{control, coordinate};
ghost use Rattle.exo_tree.specs.PlainDatum.{datum};
ghost use Rattle.exo_tree.specs.PlainUnit.{program};
ghost use Rattle.text_show.specs.Seen.{words_in};
ghost use Rattle.check_claims.specs.Claims.{written_by, at_least_one, one_index, index_claims};
ghost use Rattle.check_claims.specs.Claims.{coord_claims, window_claims, read_claims, store_claims};
ghost use Rattle.check_claims.specs.Seen.{extents_in, writes_in, Writes-set};
ghost use Rattle.check_claims.specs.Short.{has_few_params};

use crate::extents::Extents;
use crate::list::{Claims, Order};
use affine_places::Roots;
use exo_modes::ModeTable;
use exo_tree::{Coord, Ctrl, DataExpr, Id, Unit};
use std::alloc::{AllocError, Global};
use text_show::Words;

/// What claims of a procedure are made from: its unit with the modes of its procedures, its words, and the extents and roots of
/// its names.
#[derive(Drop)]
pub(crate) struct ClaimSite<'s, 'a, 'r> {
    pub(crate) unit: &'a Unit,
    pub(crate) modes: &'s ModeTable,
    pub(crate) words: &'s Words<'a>,
    pub(crate) extents: &'s Extents,
    pub(crate) roots: &'s Roots<'r>,
    pub(crate) ghost modes_are: { writes_in modes.now ≡ written_by (program unit.now) } by { Writes-set (writes_in modes.now) (written_by (program unit.now)) },
    pub(crate) ghost few: { IsTrue (list_all has_few_params (program unit.now).procedures) },
}

/// `1 <= d` for each dimension.
pub(crate) fn put_sizes(
    alloc: Global,
    out: &mut Claims,
    words: &Words,
    dims: &[Ctrl],
) -> Result<(), AllocError>
    ensures { OnOk result (out.new ≡ out.old ++ map (at_least_one (words_in words.now)) (map control dims.now)) }
{
    for d in dims {
        out.push_at_least(alloc, words, 1, d)?;
    }
    Ok(())
}

/// `0 <= e` and `e < d`
fn put_index(
    alloc: Global,
    out: &mut Claims,
    words: &Words,
    e: &Ctrl,
    d: &Ctrl,
) -> Result<(), AllocError>
    ensures { OnOk result (out.new ≡ out.old ++ one_index (words_in words.now) (control e.now) (control d.now)) }
{
    out.push_at_least(alloc, words, 0, e)?;
    out.push_compared(alloc, words, Order::Below, e, d)
}

/// The claims of each index of its dimension.
fn put_indices(
    alloc: Global,
    out: &mut Claims,
    words: &Words,
    at: &[Ctrl],
    dims: &[Ctrl],
) -> Result<(), AllocError>
    ensures { OnOk result (out.new ≡ out.old ++ index_claims (words_in words.now) (map control at.now) (map control dims.now)) }
{
    for k in 0..at.len().min(dims.len()) {
        put_index(alloc, out, words, &at[k], &dims[k])?;
    }
    Ok(())
}

/// The claims of a coordinate of a dimension.
fn put_coord(
    alloc: Global,
    out: &mut Claims,
    words: &Words,
    c: &Coord,
    d: &Ctrl,
) -> Result<(), AllocError>
    ensures { OnOk result (out.new ≡ out.old ++ coord_claims (words_in words.now) (coordinate c.now) (control d.now)) }
{
    match c {
        Coord::At(a) => put_index(alloc, out, words, a, d),
        Coord::Span(a, b) => {
            out.push_at_least(alloc, words, 0, a)?;
            out.push_compared(alloc, words, Order::Below, a, b)?;
            out.push_compared(alloc, words, Order::AtMost, b, d)
        }
    }
}

/// The claims of each coordinate of a window of its dimension.
pub(crate) fn put_window(
    alloc: Global,
    out: &mut Claims,
    words: &Words,
    coords: &[Coord],
    dims: &[Ctrl],
) -> Result<(), AllocError>
    ensures { OnOk result (out.new ≡ out.old ++ window_claims (words_in words.now) (map coordinate coords.now) (map control dims.now)) }
{
    for k in 0..coords.len().min(dims.len()) {
        put_coord(alloc, out, words, &coords[k], &dims[k])?;
    }
    Ok(())
}

/// The claims of the reads of an expression.
fn put_reads(
    alloc: Global,
    out: &mut Claims,
    site: &ClaimSite,
    e: &DataExpr,
) -> Result<(), AllocError>
    ensures { OnOk result (out.new ≡ out.old ++ read_claims (words_in site.now.words.now) (extents_in site.now.extents.now) (datum e.now)) }
{
    match e {
        DataExpr::Lit(_) => Ok(()),
        DataExpr::Read(x, at) => put_indices(
            alloc,
            out,
            site.words,
            at.as_slice(),
            site.extents.get(*x),
        ),
        DataExpr::Neg(a) => put_reads(alloc, out, site, a),
        DataExpr::Relu(a) => put_reads(alloc, out, site, a),
        DataExpr::Add(a, b) => {
            put_reads(alloc, out, site, a)?;
            put_reads(alloc, out, site, b)
        }
        DataExpr::Sub(a, b) => {
            put_reads(alloc, out, site, a)?;
            put_reads(alloc, out, site, b)
        }
        DataExpr::Mul(a, b) => {
            put_reads(alloc, out, site, a)?;
            put_reads(alloc, out, site, b)
        }
        DataExpr::Select(a, b, c, d) => {
            put_reads(alloc, out, site, a)?;
            put_reads(alloc, out, site, b)?;
            put_reads(alloc, out, site, c)?;
            put_reads(alloc, out, site, d)
        }
    }
}

/// The claims of an assignment or a reduction: of its left side, and then of each read of the right one.
pub(crate) fn put_store(
    alloc: Global,
    out: &mut Claims,
    site: &ClaimSite,
    x: Id,
    at: &[Ctrl],
    e: &DataExpr,
) -> Result<(), AllocError>
    ensures { OnOk result
        (out.new
        ≡ out.old
        ++ store_claims (words_in site.now.words.now) (extents_in site.now.extents.now) x.0
        (map control at.now) (datum e.now)) }
{
    put_indices(alloc, out, site.words, at, site.extents.get(x))?;
    put_reads(alloc, out, site, e)
}
