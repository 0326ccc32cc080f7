//! Pairs of data, accesses and arguments.
ghost use Rattle.std.specs.Prelude.{◌≡◌, [], ◌∷◌, ◌++◌, map, option_map, IfOk, OnOk};
ghost use Rattle.std.specs.Option.{option_copied};
ghost use Rattle.exo_tree.specs.PlainArgument.{argument};
ghost use Rattle.exo_tree.specs.PlainControl.{control, coordinate};
ghost use Rattle.exo_tree.specs.PlainDatum.{datum};
ghost use Rattle.match_laws.specs.Names as names;
ghost use Rattle.match_laws.specs.Pairs as plain;
ghost use Rattle.block_matches.specs.Pairs.PlainBuffer.{plain_buffer};
ghost use Rattle.block_matches.specs.Pairs.PlainPair.{plain_pair};
ghost use Rattle.block_matches.specs.Pairs.Walks.{in_walk, meeting};

use crate::pairs::buffer::Buffer;
use crate::pairs::coordinates::{points, whole_of};
use crate::pairs::names::is_param;
use crate::pairs::pair::{Pair, push, push_numbers, push_unlike};
use crate::pairs::walk::PairWalk;
use exo_tree::{Arg, Coord, Coords, Ctrl, DataExpr, Id, Indices, Path};
use std::alloc::{AllocError, Global};
use tree_uses::mentions::Names;

/// How a name of the callee meets a name of the block.
#[derive(Clone, Copy)]
pub(crate) enum Meeting {
    /// Their cells are of two types or unknown, or a parameter meets a name of the block's own.
    Unlike,
    /// A parameter.
    Param,
    /// A name of the callee's own body.
    Own,
}

/// Whether both stand for cells of one type.
fn same_cells(ours: Option<&Buffer>, theirs: Option<&Buffer>) -> bool
    ensures { result ≡ plain.same_cells (option_map plain_buffer (option_copied ours.entry))
        (option_map plain_buffer (option_copied theirs.entry)) }
{
    match (ours, theirs) {
        (Some(a), Some(b)) => a.cell == b.cell,
        _ => false,
    }
}

/// The whole of a buffer as a window; no coordinate where the buffer is unknown.
fn whole(alloc: Global, known: Option<&Buffer>) -> Result<Coords, AllocError>
    ensures { IfOk result (λ cs. cs
        ≡ names.whole_of (names.extents_of (option_map plain_buffer (option_copied known.entry)))) }
{
    match known {
        Some(b) => whole_of(alloc, &b.extents),
        None => Ok(Coords::new(alloc)),
    }
}

impl PairWalk<'_> {
    /// How a name of the callee meets a name of the block.
    fn meeting(&self, x: Id, y: Id) -> Meeting
        ensures { result ≡ in_walk meeting self.now x.0 y.0 }
    {
        if !same_cells(self.ours.get(x), self.theirs.get(y)) {
            return Meeting::Unlike;
        }
        if !is_param(self.callee.params.as_slice(), x) {
            return Meeting::Own;
        }
        if self.bound.has(y) {
            return Meeting::Unlike;
        }
        Meeting::Param
    }

    pub(crate) fn push_controls<'b>(
        &self,
        out: &mut Vec<Pair<'b>>,
        at: &Path,
        es: &'b [Ctrl],
        gs: &'b [Ctrl],
    ) -> Result<(), AllocError>
        ensures { OnOk result (map plain_pair out.new.items
            ≡ map plain_pair out.old.items ++ in_walk plain.controls_paired self.now at.now
            (map control es.now) (map control gs.now)) }
    {
        match (es.split_first(), gs.split_first()) {
            (None, None) => Ok(()),
            (Some((e, es)), Some((g, gs))) => {
                push_numbers(out, at, false, e, g)?;
                self.push_controls(out, at, es, gs)
            }
            _ => push_unlike(out, at),
        }
    }

    fn push_coords<'b>(
        &self,
        out: &mut Vec<Pair<'b>>,
        at: &Path,
        cs: &'b [Coord],
        ds: &'b [Coord],
    ) -> Result<(), AllocError>
        ensures { OnOk result (map plain_pair out.new.items
            ≡ map plain_pair out.old.items ++ in_walk plain.coords_paired self.now at.now
            (map coordinate cs.now) (map coordinate ds.now)) }
    {
        match (cs.split_first(), ds.split_first()) {
            (None, None) => Ok(()),
            (Some((Coord::At(e), cs)), Some((Coord::At(g), ds))) => {
                push_numbers(out, at, false, e, g)?;
                self.push_coords(out, at, cs, ds)
            }
            (Some((Coord::Span(e, f), cs)), Some((Coord::Span(g, h), ds))) => {
                push_numbers(out, at, false, e, g)?;
                push_numbers(out, at, false, f, h)?;
                self.push_coords(out, at, cs, ds)
            }
            _ => push_unlike(out, at),
        }
    }

    /// The indices of two accesses, as coordinates.
    fn push_points<'b>(
        &self,
        out: &mut Vec<Pair<'b>>,
        at: &Path,
        es: &'b [Ctrl],
        gs: &'b [Ctrl],
    ) -> Result<(), AllocError>
        ensures { OnOk result (map plain_pair out.new.items
            ≡ map plain_pair out.old.items ++ in_walk plain.coords_paired self.now at.now
            (plain.points (map control es.now)) (plain.points (map control gs.now))) }
    {
        self.push_controls(out, at, es, gs)
    }

    /// The cells of two accesses.
    pub(crate) fn push_access<'b>(
        &self,
        alloc: Global,
        out: &mut Vec<Pair<'b>>,
        at: &Path,
        x: Id,
        es: &'b Indices,
        y: Id,
        gs: &'b Indices,
    ) -> Result<(), AllocError>
        ensures { OnOk result (map plain_pair out.new.items
            ≡ map plain_pair out.old.items ++ in_walk plain.access_paired self.now at.now
            x.0 (plain.points es.now) y.0 (plain.points gs.now)) }
    {
        match self.meeting(x, y) {
            Meeting::Unlike => push_unlike(out, at),
            Meeting::Param => {
                let cs = points(alloc, es)?;
                let ds = points(alloc, gs)?;
                push(out, Pair::Access(at.duplicate(), x, cs, y, ds))
            }
            Meeting::Own => {
                push(out, Pair::Own(at.duplicate(), x, y))?;
                self.push_points(out, at, es.as_slice(), gs.as_slice())
            }
        }
    }

    /// Two windows.
    pub(crate) fn push_windows<'b>(
        &self,
        alloc: Global,
        out: &mut Vec<Pair<'b>>,
        at: &Path,
        x: Id,
        cs: &'b Coords,
        y: Id,
        ds: &'b Coords,
    ) -> Result<(), AllocError>
        ensures { OnOk result (map plain_pair out.new.items
            ≡ map plain_pair out.old.items ++ in_walk plain.access_paired self.now at.now
            x.0 cs.now y.0 ds.now) }
    {
        match self.meeting(x, y) {
            Meeting::Unlike => push_unlike(out, at),
            Meeting::Param => {
                let ours = cs.duplicate(alloc)?;
                let theirs = ds.duplicate(alloc)?;
                push(out, Pair::Access(at.duplicate(), x, ours, y, theirs))
            }
            Meeting::Own => {
                push(out, Pair::Own(at.duplicate(), x, y))?;
                self.push_coords(out, at, cs.as_slice(), ds.as_slice())
            }
        }
    }

    /// Two names.
    fn push_wholes(
        &self,
        alloc: Global,
        out: &mut Vec<Pair<'_>>,
        at: &Path,
        x: Id,
        y: Id,
    ) -> Result<(), AllocError>
        ensures { OnOk result (map plain_pair out.new.items
            ≡ map plain_pair out.old.items
            ++ in_walk plain.wholes_paired self.now at.now x.0 y.0) }
    {
        match self.meeting(x, y) {
            Meeting::Unlike => push_unlike(out, at),
            Meeting::Param => {
                let ours = whole(alloc, self.ours.get(x))?;
                let theirs = whole(alloc, self.theirs.get(y))?;
                push(out, Pair::Access(at.duplicate(), x, ours, y, theirs))
            }
            Meeting::Own => push(out, Pair::Own(at.duplicate(), x, y)),
        }
    }

    /// A name against a window.
    fn push_whole(
        &self,
        alloc: Global,
        out: &mut Vec<Pair<'_>>,
        at: &Path,
        x: Id,
        y: Id,
        ds: &Coords,
    ) -> Result<(), AllocError>
        ensures { OnOk result (map plain_pair out.new.items
            ≡ map plain_pair out.old.items
            ++ in_walk plain.whole_paired self.now at.now x.0 y.0 ds.now) }
    {
        match self.meeting(x, y) {
            Meeting::Param => {
                let ours = whole(alloc, self.ours.get(x))?;
                let theirs = ds.duplicate(alloc)?;
                push(out, Pair::Access(at.duplicate(), x, ours, y, theirs))
            }
            _ => push_unlike(out, at),
        }
    }

    /// A window against a name.
    fn push_window(
        &self,
        alloc: Global,
        out: &mut Vec<Pair<'_>>,
        at: &Path,
        x: Id,
        cs: &Coords,
        y: Id,
    ) -> Result<(), AllocError>
        ensures { OnOk result (map plain_pair out.new.items
            ≡ map plain_pair out.old.items
            ++ in_walk plain.window_paired self.now at.now x.0 cs.now y.0) }
    {
        match self.meeting(x, y) {
            Meeting::Param => {
                let ours = cs.duplicate(alloc)?;
                let theirs = whole(alloc, self.theirs.get(y))?;
                push(out, Pair::Access(at.duplicate(), x, ours, y, theirs))
            }
            _ => push_unlike(out, at),
        }
    }

    pub(crate) fn push_data<'b>(
        &self,
        alloc: Global,
        out: &mut Vec<Pair<'b>>,
        at: &Path,
        a: &'b DataExpr,
        b: &'b DataExpr,
    ) -> Result<(), AllocError>
        ensures { OnOk result (map plain_pair out.new.items
            ≡ map plain_pair out.old.items
            ++ in_walk plain.data_paired self.now at.now (datum a.now) (datum b.now)) }
    {
        match (a, b) {
            (DataExpr::Lit(m), DataExpr::Lit(n)) if *m == *n => Ok(()),
            (DataExpr::Read(x, es), DataExpr::Read(y, gs)) => {
                self.push_access(alloc, out, at, *x, es, *y, gs)
            }
            (DataExpr::Neg(a), DataExpr::Neg(b)) => self.push_data(alloc, out, at, a, b),
            (DataExpr::Relu(a), DataExpr::Relu(b)) => self.push_data(alloc, out, at, a, b),
            (DataExpr::Add(a, b), DataExpr::Add(c, d)) => {
                self.push_data(alloc, out, at, a, c)?;
                self.push_data(alloc, out, at, b, d)
            }
            (DataExpr::Sub(a, b), DataExpr::Sub(c, d)) => {
                self.push_data(alloc, out, at, a, c)?;
                self.push_data(alloc, out, at, b, d)
            }
            (DataExpr::Mul(a, b), DataExpr::Mul(c, d)) => {
                self.push_data(alloc, out, at, a, c)?;
                self.push_data(alloc, out, at, b, d)
            }
            (DataExpr::Select(a, b, c, d), DataExpr::Select(e, f, g, h)) => {
                self.push_data(alloc, out, at, a, e)?;
                self.push_data(alloc, out, at, b, f)?;
                self.push_data(alloc, out, at, c, g)?;
                self.push_data(alloc, out, at, d, h)
            }
            _ => push_unlike(out, at),
        }
    }

    /// True for `written` where the arguments are those of configuration writes.
    pub(crate) fn push_argument<'b>(
        &self,
        alloc: Global,
        out: &mut Vec<Pair<'b>>,
        at: &Path,
        written: bool,
        a: &'b Arg,
        b: &'b Arg,
    ) -> Result<(), AllocError>
        ensures { OnOk result (map plain_pair out.new.items
            ≡ map plain_pair out.old.items ++ in_walk plain.argument_paired self.now at.now
            written (argument a.now) (argument b.now)) }
    {
        match (a, b) {
            (Arg::Ctrl(e), Arg::Ctrl(g)) => push_numbers(out, at, written, e, g),
            (Arg::Cond(c), Arg::Cond(d)) => {
                push(out, Pair::Truths(at.duplicate(), written, c, d))
            }
            (Arg::Whole(x), Arg::Whole(y)) => self.push_wholes(alloc, out, at, *x, *y),
            (Arg::Whole(x), Arg::Window(y, ds)) => self.push_whole(alloc, out, at, *x, *y, ds),
            (Arg::Window(x, cs), Arg::Whole(y)) => self.push_window(alloc, out, at, *x, cs, *y),
            (Arg::Window(x, cs), Arg::Window(y, ds)) => {
                self.push_windows(alloc, out, at, *x, cs, *y, ds)
            }
            _ => push_unlike(out, at),
        }
    }

    pub(crate) fn push_arguments<'b>(
        &self,
        alloc: Global,
        out: &mut Vec<Pair<'b>>,
        at: &Path,
        args: &'b [Arg],
        others: &'b [Arg],
    ) -> Result<(), AllocError>
        ensures { OnOk result (map plain_pair out.new.items
            ≡ map plain_pair out.old.items ++ in_walk plain.arguments_paired self.now at.now
            (map argument args.now) (map argument others.now)) }
    {
        match (args.split_first(), others.split_first()) {
            (None, None) => Ok(()),
            (Some((a, args)), Some((b, others))) => {
                self.push_argument(alloc, out, at, false, a, b)?;
                self.push_arguments(alloc, out, at, args, others)
            }
            _ => push_unlike(out, at),
        }
    }
}
