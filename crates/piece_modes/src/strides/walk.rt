//! A walk through the body of a procedure.
ghost use Rattle.std.specs.Prelude.{◌≡◌, ◌&&◌, map, take, length, OnOk, IfOk};
ghost use Rattle.exo_tree.specs.Tree.{block};
ghost use Rattle.exo_tree.specs.PlainUnit.{program};
ghost use Rattle.exo_tree.specs.PlainParam.{parameter};
ghost use Rattle.exo_tree.specs.PlainArgument.{argument};
ghost use Rattle.exo_tree.specs.PlainStatement.{statement};
ghost use Rattle.exo_meaning.specs.Run.{roots_after, is_root};
ghost use Rattle.exo_modes.specs.Aliases.{roots_in};
ghost use Rattle.piece_modes.specs.Strides.Seen.{passes, call_sees, step_sees, block_sees};
ghost use Rattle.piece_modes.specs.Strides.Table.{AreFirst};
ghost use Rattle.piece_modes.specs.Strides.PlainTable.{rows};

use crate::strides::expressions::{
    argument_uses, arguments_use, condition_uses, control_uses, controls_use, coords_use,
    datum_uses,
};
use exo_modes::{Alias, is_part, root, set_root};
use exo_tree::{Arg, Args, Block, ProcId, Stmt, Unit};
use std::alloc::{AllocError, Global};

/// The procedures that may be called: the first ones of a unit, as many as there are rows. A row
/// says of each parameter whether its strides are seen.
#[derive(Clone, Copy)]
pub(crate) struct CallableStrides<'a> {
    pub unit: &'a Unit,
    pub rows: &'a [Vec<bool>],
}

/// Whether an argument is part of buffer `y`, for a parameter of which it is known whether its
/// strides are seen.
fn is_seen(seen: bool, aliases: &[Alias], y: u32, a: &Arg) -> bool
    ensures { result ≡ (seen && is_root (roots_in aliases.now) y (argument a.now)) }
{
    seen && is_part(aliases, y, a)
}

/// Whether one of the arguments is part of buffer `y` where the strides of its parameter are seen.
fn is_passed(row: &[bool], aliases: &[Alias], y: u32, args: &[Arg]) -> bool
    ensures { result ≡ passes row.now (roots_in aliases.now) y (map argument args.now) }
{
    for k in 0..row.len().min(args.len()) {
        if is_seen(row[k], aliases, y, &args[k]) {
            return true;
        }
    }
    false
}

/// Whether a call passes part of buffer `y` to a parameter whose strides are seen.
fn call_sees(above: &CallableStrides, aliases: &[Alias], y: u32, k: ProcId, args: &Args) -> bool
    requires { AreFirst (rows above.now.rows.now) (program above.now.unit.now) }
    ensures { result ≡ call_sees (program above.now.unit.now) (length above.now.rows.now) k.0
        (roots_in aliases.now) y args.now }
{
    match above.rows.get(k.0 as usize) {
        Some(row) => is_passed(row, aliases, y, args.as_slice()),
        None => false,
    }
}

/// Whether a statement looks at strides of buffer `y`; adds the name that it binds.
#[cycle(walk)]
fn statement_sees(
    above: &CallableStrides,
    aliases: &mut Vec<Alias>,
    y: u32,
    s: &Stmt,
) -> Result<bool, AllocError>
    requires { AreFirst (rows above.now.rows.now) (program above.now.unit.now) }
    ensures sees { IfOk result (λ r. r ≡ step_sees (program above.now.unit.now)
        (length above.now.rows.now) (roots_in aliases.old.items) (statement s.now) y) }
    ensures roots { OnOk result
        (roots_in aliases.new.items ≡ roots_after (statement s.now) (roots_in aliases.old.items)) }
    ensures kept { OnOk result
        (take (length aliases.old.items) aliases.new.items ≡ aliases.old.items) }
{
    match s {
        Stmt::Assign(_, list, e) => {
            Ok(controls_use(aliases, y, list) || datum_uses(aliases, y, e))
        }
        Stmt::Reduce(_, list, e) => {
            Ok(controls_use(aliases, y, list) || datum_uses(aliases, y, e))
        }
        Stmt::Config(_, a) => Ok(argument_uses(aliases, y, a)),
        Stmt::Pass => Ok(false),
        Stmt::If(c, a, b) => {
            let in_condition = condition_uses(aliases, y, c);
            let in_first = block_sees(above, aliases, y, a)?;
            let in_second = block_sees(above, aliases, y, b)?;
            Ok(in_condition || (in_first || in_second))
        }
        Stmt::For(_, lo, hi, b) => {
            let in_lower = control_uses(aliases, y, lo);
            let in_upper = control_uses(aliases, y, hi);
            let in_body = block_sees(above, aliases, y, b)?;
            Ok(in_lower || (in_upper || in_body))
        }
        Stmt::Alloc(x, _, dims, _) => {
            let found = controls_use(aliases, y, dims);
            set_root(aliases, x.id.0, x.id.0)?;
            Ok(found)
        }
        Stmt::View(w, x, coords) => {
            let found = coords_use(aliases, y, coords);
            let buffer = root(aliases, x.0);
            set_root(aliases, w.id.0, buffer)?;
            Ok(found)
        }
        Stmt::Call(k, args) => {
            Ok(arguments_use(aliases, y, args) || call_sees(above, aliases, y, *k, args))
        }
    }
}

/// Whether a block looks at strides of buffer `y`. Its names end with it.
#[cycle(walk)]
pub(crate) fn block_sees(
    above: &CallableStrides,
    aliases: &mut Vec<Alias>,
    y: u32,
    b: &Block,
) -> Result<bool, AllocError>
    requires { AreFirst (rows above.now.rows.now) (program above.now.unit.now) }
    ensures sees { IfOk result (λ r. r ≡ block_sees (program above.now.unit.now)
        (length above.now.rows.now) (roots_in aliases.old.items) (block b.now) y) }
    ensures kept { OnOk result (aliases.new.items ≡ aliases.old.items) }
{
    let known = aliases.len();
    let mut found = false;
    for k in 0..b.len() {
        let here = statement_sees(above, aliases, y, b.statement(k))?;
        found = found || here;
    }
    aliases.truncate(known);
    Ok(found)
}

/// Whether the body of a procedure looks at strides of its parameter `y`.
pub(crate) fn body_sees(
    alloc: Global,
    above: &CallableStrides,
    y: u32,
    body: &Block,
) -> Result<bool, AllocError>
    requires { AreFirst (rows above.now.rows.now) (program above.now.unit.now) }
    ensures { IfOk result (λ r. r ≡ block_sees (program above.now.unit.now)
        (length above.now.rows.now) (λ x. x) (block body.now) y) }
{
    let mut aliases = Vec::new(alloc);
    let found = block_sees(above, &mut aliases, y, body)?;
    Ok(found)
}
