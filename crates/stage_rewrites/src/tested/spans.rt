//! Accesses of a buffer with a span where a window of it has a point.
ghost use Rattle.std.specs.Prelude.{◌≡◌, map};
ghost use Rattle.std.specs.List.{list_any};
ghost use Rattle.exo_tree.specs.Tree.{block};
ghost use Rattle.exo_tree.specs.PlainArgument.{argument};
ghost use Rattle.exo_tree.specs.PlainControl.{control, coordinate};
ghost use Rattle.exo_tree.specs.PlainStatement.{statement};
ghost use Rattle.buffer_laws.specs.StageMem.{has_span_at_point};
ghost use Rattle.alloc_laws.specs.Goes.Fits.{argument_spans, has_spans, step_has_spans};
ghost use Rattle.match_laws.specs.Names.{whole_of};

use exo_tree::{Arg, Block, Coord, Ctrl, Id, Stmt};

/// Whether a span of coordinates stands where a window has a point.
fn has_span(window: &[Coord], coords: &[Coord]) -> bool
    ensures { result
        ≡ has_span_at_point (map coordinate window.now) (map coordinate coords.now) }
{
    match (window.split_first(), coords.split_first()) {
        (Some((Coord::At(_), more)), Some((Coord::At(_), rest))) => has_span(more, rest),
        (Some((Coord::At(_), _)), Some((Coord::Span(_, _), _))) => true,
        (Some((Coord::Span(_, _), more)), Some((_, rest))) => has_span(more, rest),
        _ => false,
    }
}

/// Whether a window has a point in one of so many dimensions.
fn has_point(window: &[Coord], dims: &[Ctrl]) -> bool
    ensures { result
        ≡ has_span_at_point (map coordinate window.now) (whole_of (map control dims.now)) }
{
    match (window.split_first(), dims.split_first()) {
        (Some((Coord::At(_), _)), Some(_)) => true,
        (Some((Coord::Span(_, _), more)), Some((_, rest))) => has_point(more, rest),
        _ => false,
    }
}

/// A window of a buffer, and the dimensions of the buffer.
#[derive(Clone, Copy)]
pub(crate) struct Spanning<'a> {
    pub(crate) root: Id,
    pub(crate) dims: &'a [Ctrl],
    pub(crate) coords: &'a [Coord],
}

impl Spanning<'_> {
    /// Whether an argument passes the buffer whole or a window of it, with a span where this
    /// window has a point.
    fn argument_spans(&self, a: &Arg) -> bool
        ensures { result
            ≡ argument_spans self.now.root.0 (map control self.now.dims.now)
            (map coordinate self.now.coords.now) (argument a.now) }
    {
        match a {
            Arg::Ctrl(_) => false,
            Arg::Cond(_) => false,
            Arg::Whole(y) => y.0 == self.root.0 && has_point(self.coords, self.dims),
            Arg::Window(y, ds) => y.0 == self.root.0 && has_span(self.coords, ds.as_slice()),
        }
    }

    /// Whether one of the arguments does.
    fn arguments_span(&self, args: &[Arg]) -> bool
        ensures { result
            ≡ list_any (argument_spans self.now.root.0 (map control self.now.dims.now)
            (map coordinate self.now.coords.now)) (map argument args.now) }
    {
        match args.split_first() {
            None => false,
            Some((a, rest)) => self.argument_spans(a) || self.arguments_span(rest),
        }
    }

    /// Whether a statement, or one in it, passes or views the buffer so.
    #[cycle(walk)]
    fn statement_spans(&self, s: &Stmt) -> bool
        ensures { result
            ≡ step_has_spans self.now.root.0 (map control self.now.dims.now)
            (map coordinate self.now.coords.now) (statement s.now) }
    {
        match s {
            Stmt::If(_, a, b) => self.block_spans(a) || self.block_spans(b),
            Stmt::For(_, _, _, b) => self.block_spans(b),
            Stmt::View(_, y, ds) => y.0 == self.root.0 && has_span(self.coords, ds.as_slice()),
            Stmt::Call(_, args) => self.arguments_span(args.as_slice()),
            _ => false,
        }
    }

    /// Whether a statement of a block does.
    #[cycle(walk)]
    pub(crate) fn block_spans(&self, b: &Block) -> bool
        ensures { result
            ≡ has_spans self.now.root.0 (map control self.now.dims.now)
            (map coordinate self.now.coords.now) (block b.now) }
    {
        for k in 0..b.len() {
            if self.statement_spans(b.statement(k)) {
                return true;
            }
        }
        false
    }
}
