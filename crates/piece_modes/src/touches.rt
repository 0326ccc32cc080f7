//! Whether statements touch a buffer in a mode, directly, through views, or through calls.
ghost use Rattle.std.specs.Prelude.{◌≡◌, ◌&&◌, map, take, length, OnOk, IfOk};
ghost use Rattle.exo_tree.specs.Tree.{block};
ghost use Rattle.exo_tree.specs.PlainUnit.{program};
ghost use Rattle.exo_tree.specs.PlainDatum.{datum};
ghost use Rattle.exo_tree.specs.PlainParam.{parameter};
ghost use Rattle.exo_tree.specs.PlainArgument.{argument};
ghost use Rattle.exo_tree.specs.PlainStatement.{statement};
ghost use Rattle.exo_meaning.specs.Modes as meaning;
ghost use Rattle.exo_meaning.specs.Run.{roots_after, is_root, call_writes};
ghost use Rattle.exo_modes.specs.Aliases.{roots_in};
ghost use Rattle.exo_modes.specs.Marks.{modes_of};
ghost use Rattle.exo_modes.specs.Seen.{says, table_says};
ghost use Rattle.piece_modes.specs.Touching.{call_touches, step_touches, block_touches};
ghost use Rattle.piece_modes.specs.Touching.{callee_modes};
ghost use Rattle.piece_modes.specs.PlainMode.{plain_mode};

use exo_modes::{Alias, ModeTable, Modes, is_part, root, set_root};
use exo_tree::{Arg, Args, Block, DataExpr, Param, ProcId, Stmt, Unit};
use std::alloc::AllocError;

/// A way to touch a buffer.
#[derive(Clone, Copy)]
pub enum Mode {
    Reading,
    Writing,
    Reducing,
}

impl Mode {
    /// What is said of this way.
    fn picked(self, reads: bool, writes: bool, reduces: bool) -> bool
        ensures { result ≡ meaning.picked (plain_mode self) reads writes reduces }
    {
        match self {
            Mode::Reading => reads,
            Mode::Writing => writes,
            Mode::Reducing => reduces,
        }
    }

    /// Whether it is one of these ways.
    fn is_among(self, modes: Modes) -> bool
        ensures { result ≡ says modes (plain_mode self) }
    {
        self.picked(modes.read, modes.write, modes.reduce)
    }
}

/// What is asked: whether the buffer of an id is touched so, by the table of what each procedure of
/// the unit touches.
#[derive(Clone, Copy)]
pub(crate) struct TouchQuestion<'a> {
    pub(crate) unit: &'a Unit,
    pub(crate) modes: &'a ModeTable,
    pub(crate) mode: Mode,
    pub(crate) buffer: u32,
    ghost table: { table_says modes.now ≡ modes_of (program unit.now) },
}

/// Whether an expression reads from a buffer.
fn reads_from(aliases: &[Alias], y: u32, e: &DataExpr) -> bool
    ensures { result ≡ meaning.reads_from (roots_in aliases.now) (datum e.now) y }
{
    match e {
        DataExpr::Lit(_) => false,
        DataExpr::Read(x, _) => y == root(aliases, x.0),
        DataExpr::Neg(a) => reads_from(aliases, y, a),
        DataExpr::Relu(a) => reads_from(aliases, y, a),
        DataExpr::Add(a, b) => reads_from(aliases, y, a) || reads_from(aliases, y, b),
        DataExpr::Sub(a, b) => reads_from(aliases, y, a) || reads_from(aliases, y, b),
        DataExpr::Mul(a, b) => reads_from(aliases, y, a) || reads_from(aliases, y, b),
        DataExpr::Select(a, b, c, d) => {
            reads_from(aliases, y, a)
                || (reads_from(aliases, y, b)
                    || (reads_from(aliases, y, c) || reads_from(aliases, y, d)))
        }
    }
}

impl TouchQuestion<'_> {
    /// Whether a parameter of a procedure is touched so and an argument is part of the buffer.
    fn is_passed(&self, aliases: &[Alias], k: ProcId, p: &Param, a: &Arg) -> bool
        ensures { result ≡ (callee_modes (program self.now.unit.now) k.0 (plain_mode self.now.mode)
            p.now.binder.id.0
            && is_root (roots_in aliases.now) self.now.buffer (argument a.now)) }
    {
        self.mode.is_among(self.modes.get(k, p.binder.id)) && is_part(aliases, self.buffer, a)
    }

    /// Whether one of the arguments of a call is part of the buffer where its parameter is touched
    /// so.
    fn are_passed(&self, aliases: &[Alias], k: ProcId, params: &[Param], args: &[Arg]) -> bool
        ensures { result ≡ call_writes
            (callee_modes (program self.now.unit.now) k.0 (plain_mode self.now.mode))
            (roots_in aliases.now) self.now.buffer
            (map parameter params.now)
            (map argument args.now) }
    {
        match (params.split_first(), args.split_first()) {
            (Some((p, more)), Some((a, rest))) => {
                self.is_passed(aliases, k, p, a) || self.are_passed(aliases, k, more, rest)
            }
            _ => false,
        }
    }

    /// Whether a call touches the buffer so.
    fn call_touches(&self, aliases: &[Alias], k: ProcId, args: &Args) -> bool
        ensures { result ≡ call_touches (program self.now.unit.now) (plain_mode self.now.mode)
            (roots_in aliases.now) k.0 args.now self.now.buffer }
    {
        match self.unit.procs.get(k.0 as usize) {
            Some(p) => self.are_passed(aliases, k, p.params.as_slice(), args.as_slice()),
            None => false,
        }
    }

    /// Whether a statement touches the buffer so; adds the name that it binds.
    #[cycle(walk)]
    fn statement_touches(&self, aliases: &mut Vec<Alias>, s: &Stmt) -> Result<bool, AllocError>
        ensures touches { IfOk result (λ r.
            r ≡ step_touches (program self.now.unit.now) (plain_mode self.now.mode)
            (roots_in aliases.old.items) (statement s.now) self.now.buffer) }
        ensures roots { OnOk result (roots_in aliases.new.items
            ≡ roots_after (statement s.now) (roots_in aliases.old.items)) }
        ensures kept { OnOk result
            (take (length aliases.old.items) aliases.new.items ≡ aliases.old.items) }
    {
        let y = self.buffer;
        match s {
            Stmt::Assign(x, _, e) => {
                let reads = reads_from(aliases, y, e);
                Ok(self.mode.picked(reads, y == root(aliases, x.0), false))
            }
            Stmt::Reduce(x, _, e) => {
                let reads = reads_from(aliases, y, e);
                Ok(self.mode.picked(reads, false, y == root(aliases, x.0)))
            }
            Stmt::If(_, a, b) => {
                let in_first = self.block_touches(aliases, a)?;
                let in_second = self.block_touches(aliases, b)?;
                Ok(in_first || in_second)
            }
            Stmt::For(_, _, _, b) => self.block_touches(aliases, b),
            Stmt::Alloc(x, _, _, _) => {
                set_root(aliases, x.id.0, x.id.0)?;
                Ok(self.mode.picked(false, y == x.id.0, false))
            }
            Stmt::View(w, x, _) => {
                let buffer = root(aliases, x.0);
                set_root(aliases, w.id.0, buffer)?;
                Ok(false)
            }
            Stmt::Call(k, args) => Ok(self.call_touches(aliases, *k, args)),
            _ => Ok(false),
        }
    }

    /// Whether a block touches the buffer so. Its names end with it.
    #[cycle(walk)]
    pub(crate) fn block_touches(
        &self,
        aliases: &mut Vec<Alias>,
        b: &Block,
    ) -> Result<bool, AllocError>
        ensures touches { IfOk result (λ r.
            r ≡ block_touches (program self.now.unit.now) (plain_mode self.now.mode)
            (roots_in aliases.old.items) (block b.now) self.now.buffer) }
        ensures kept { OnOk result (aliases.new.items ≡ aliases.old.items) }
    {
        let known = aliases.len();
        let mut found = false;
        for k in 0..b.len() {
            let here = self.statement_touches(aliases, b.statement(k))?;
            found = found || here;
        }
        aliases.truncate(known);
        Ok(found)
    }
}
