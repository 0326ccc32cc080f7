//! The uses of buffers in expressions and arguments.
ghost use Rattle.std.specs.Prelude.{◌≡◌, ◌++◌, map, OnOk};
ghost use Rattle.exo_tree.specs.PlainArgument.{argument};
ghost use Rattle.exo_tree.specs.PlainDatum.{datum};
ghost use Rattle.exo_tree.specs.PlainParam.{parameter};
ghost use Rattle.exo_modes.specs.Seen.{says};
ghost use Rattle.text_show.specs.StatementText.{argument_text};
ghost use Rattle.exo_effects.specs.Uses.{uses_of, modes_had, part_of_argument};
ghost use Rattle.exo_effects.specs.PlainAccess.{plain_mode};
ghost use Rattle.exo_effects.specs.PlainParts.{plain_part, parts_in};
ghost use Rattle.exo_effects.specs.PlainUses.{plain_uses};
ghost use Rattle.exo_effects.specs.PlainWalk.{inside_of, words_by, modes_by, cell_uses, data_uses};
ghost use Rattle.exo_effects.specs.PlainWalk.{argument_uses, arguments_uses, step_uses};
ghost use Rattle.std.specs.Prelude.{Some};
ghost use Rattle.exo_tree.specs.Tree as tree;

use crate::access::{Access, Mode};
use crate::inside::{EffectSite, Inside};
use crate::parts::Part;
use crate::windows::cell;
use exo_modes::Modes;
use exo_tree::{Arg, Args, DataExpr, Id, Indices, Param, ProcId};
use std::alloc::{AllocError, Global};
use text_show::{put_access, put_argument};

/// Puts the use of a cell last, unless its buffer is left out.
pub(crate) fn put_cell<'a>(
    alloc: Global,
    out: &mut Vec<Access<'a>>,
    site: &EffectSite,
    inside: &Inside<'a>,
    mode: Mode,
    x: Id,
    at: &Indices,
) -> Result<(), AllocError>
    ensures { OnOk result
        (plain_uses out.new.items
        ≡ plain_uses out.old.items
        ++ cell_uses site.now (inside_of inside.now) (plain_mode mode) x.0 at.now) }
{
    let Some(part) = inside.parts.get(x) else {
        return Ok(());
    };
    let mut text = String::new(alloc);
    put_access(&mut text, site.words, x, at)?;
    let point = Part {
        root: part.root,
        coords: cell(alloc, &part.coords, at)?,
    };
    inside.put(alloc, out, point, mode, text)
}

/// Puts what an expression reads last.
pub(crate) fn put_reads<'a>(
    alloc: Global,
    out: &mut Vec<Access<'a>>,
    site: &EffectSite,
    inside: &Inside<'a>,
    e: &DataExpr,
) -> Result<(), AllocError>
    ensures { OnOk result (plain_uses out.new.items ≡ plain_uses out.old.items ++ data_uses site.now (inside_of inside.now) (datum e.now)) }
{
    match e {
        DataExpr::Lit(_) => Ok(()),
        DataExpr::Read(x, at) => put_cell(alloc, out, site, inside, Mode::Read, *x, at),
        DataExpr::Neg(a) | DataExpr::Relu(a) => put_reads(alloc, out, site, inside, a),
        DataExpr::Add(a, b) | DataExpr::Sub(a, b) | DataExpr::Mul(a, b) => {
            put_reads(alloc, out, site, inside, a)?;
            put_reads(alloc, out, site, inside, b)
        }
        DataExpr::Select(a, b, c, d) => {
            put_reads(alloc, out, site, inside, a)?;
            put_reads(alloc, out, site, inside, b)?;
            put_reads(alloc, out, site, inside, c)?;
            put_reads(alloc, out, site, inside, d)
        }
    }
}

/// Puts the use of a part last, in each of the modes that it has.
fn put_modes<'a>(
    alloc: Global,
    out: &mut Vec<Access<'a>>,
    inside: &Inside<'a>,
    has: Modes,
    part: &Part,
    text: &str,
) -> Result<(), AllocError>
    ensures { OnOk result
        (plain_uses out.new.items
        ≡ plain_uses out.old.items
        ++ uses_of (inside_of inside.now) text.now (Some (plain_part part.now))
        (modes_had (says has))) }
{
    inside.put_mode(alloc, out, has.read, Mode::Read, part, text)?;
    inside.put_mode(alloc, out, has.write, Mode::Write, part, text)?;
    inside.put_mode(alloc, out, has.reduce, Mode::Reduce, part, text)
}

/// Puts the use of what an argument passes last, in the modes of its parameter.
fn put_passed<'a>(
    alloc: Global,
    out: &mut Vec<Access<'a>>,
    site: &EffectSite,
    inside: &Inside<'a>,
    has: Modes,
    a: &Arg,
) -> Result<(), AllocError>
    ensures { OnOk result
        (plain_uses out.new.items
        ≡ plain_uses out.old.items
        ++ uses_of (inside_of inside.now) (argument_text (words_by site.now) (argument a.now))
        (part_of_argument (parts_in inside.now.parts) (argument a.now)) (modes_had (says has))) }
{
    let Some(part) = inside.parts.argument(alloc, a)? else {
        return Ok(());
    };
    let mut text = String::new(alloc);
    put_argument(&mut text, site.words, a)?;
    put_modes(alloc, out, inside, has, &part, text.as_str())
}

/// Puts the uses of what arguments pass last, each in the modes of its parameter.
fn put_arguments<'a>(
    alloc: Global,
    out: &mut Vec<Access<'a>>,
    site: &EffectSite,
    inside: &Inside<'a>,
    callee: ProcId,
    params: &[Param],
    args: &[Arg],
) -> Result<(), AllocError>
    ensures { OnOk result
        (plain_uses out.new.items
        ≡ plain_uses out.old.items
        ++ arguments_uses site.now (inside_of inside.now) (modes_by site.now callee.0)
        (map parameter params.now) (map argument args.now)) }
{
    for k in 0..params.len().min(args.len()) {
        let has = site.modes.get(callee, params[k].binder.id);
        put_passed(alloc, out, site, inside, has, &args[k])?;
    }
    Ok(())
}

/// Puts the uses of a call last.
pub(crate) fn put_call<'a>(
    alloc: Global,
    out: &mut Vec<Access<'a>>,
    site: &EffectSite,
    inside: &Inside<'a>,
    callee: ProcId,
    args: &Args,
) -> Result<(), AllocError>
    ensures { OnOk result
        (plain_uses out.new.items
        ≡ plain_uses out.old.items
        ++ step_uses site.now (inside_of inside.now) (tree.Call callee.0 args.now)) }
{
    let Some(p) = site.unit.procs.get(callee.0 as usize) else {
        return Ok(());
    };
    put_arguments(
        alloc,
        out,
        site,
        inside,
        callee,
        p.params.as_slice(),
        args.as_slice(),
    )
}
