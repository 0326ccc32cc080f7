//! The C of calls: of a function by its name, of an instruction by its template.
ghost use Rattle.std.specs.Prelude.{◌≡◌, [], map, Some, IfOk, string_bytes};
ghost use Rattle.exo_tree.specs.PlainArgument.{argument};
ghost use Rattle.exo_tree.specs.PlainParam.{parameter, parameter_kind};
ghost use Rattle.exo_tree.specs.PlainProcedure.{procedure};
ghost use Rattle.c_tree.specs.CTree.{CallOf};
ghost use Rattle.c_tree.specs.Plain.{plain_cell, plain_actual, plain_piece, plain_statement};
ghost use Rattle.c_lowering.specs.Made.Lowered.{first_cell, piece_for, piece_named, piece_of};
ghost use Rattle.c_lowering.specs.Made.Lowered.{actuals_of, call_of};
ghost use Rattle.c_lowering.specs.Made.LoweredUnit.{holes_of, routine_of};
ghost use Rattle.c_lowering.specs.Scope.{forms_in};
ghost use Rattle.c_lowering.specs.Naming.{naming_of};
ghost use Rattle.c_lowering.specs.PlainHole.{plain_hole};

use crate::arguments::{first_of_whole, first_of_window, lower_actual, lower_actuals};
use crate::names::CNames;
use crate::numbers::boxed_literal;
use crate::scope::Entry;
use crate::templates::{Hole, holes_of, is_hole_of};
use c_tree::tree::{CCall, CCell, CHolder, CInstruction, CPiece, CStatement};
use exo_tree::{Arg, Args, Param, ParamKind, Proc, ProcId};
use std::alloc::{AllocError, Global};

/// The first cell of an argument; of a control value the first of an array without a name.
fn first_cell(
    alloc: Global,
    names: &CNames<'_>,
    scope: &[Entry],
    a: &Arg,
) -> Result<CCell, AllocError>
    ensures { IfOk result (λ c. plain_cell c ≡ first_cell (naming_of names.now) (forms_in scope.now) (argument a.now)) }
{
    match a {
        Arg::Ctrl(_) | Arg::Cond(_) => {
            let offset = boxed_literal(alloc, 0)?;
            Ok(CCell {
                holder: CHolder::Array,
                name: String::new(alloc),
                offset,
            })
        }
        Arg::Whole(x) => first_of_whole(alloc, names, scope, *x),
        Arg::Window(x, coords) => first_of_window(alloc, names, scope, *x, coords),
    }
}

/// What stands for a parameter in a template: the text of a control value, or a buffer's first cell.
fn piece_for(
    alloc: Global,
    names: &CNames<'_>,
    scope: &[Entry],
    kind: &ParamKind,
    a: &Arg,
) -> Result<CPiece, AllocError>
    ensures { IfOk result
        (λ p. plain_piece p
        ≡ piece_for (naming_of names.now) (forms_in scope.now) (parameter_kind kind.now)
        (argument a.now)) }
{
    match kind {
        ParamKind::Ctrl(_) => Ok(CPiece::Actual(lower_actual(alloc, names, scope, kind, a)?)),
        _ => Ok(CPiece::Cell(first_cell(alloc, names, scope, a)?)),
    }
}

/// What stands for a name in braces: the argument of the first parameter that it means; nothing where it means none.
fn piece_named(
    alloc: Global,
    names: &CNames<'_>,
    scope: &[Entry],
    params: &[Param],
    args: &[Arg],
    name: &str,
) -> Result<CPiece, AllocError>
    ensures { IfOk result
        (λ p. plain_piece p
        ≡ piece_named (naming_of names.now) (forms_in scope.now) (map parameter params.now)
        (map argument args.now) name.now) }
{
    for k in 0..params.len().min(args.len()) {
        if is_hole_of(name, &params[k]) {
            return piece_for(alloc, names, scope, &params[k].kind, &args[k]);
        }
    }
    Ok(CPiece::Text(String::new(alloc)))
}

/// What stands for a part of a template.
fn piece_of(
    alloc: Global,
    names: &CNames<'_>,
    scope: &[Entry],
    params: &[Param],
    args: &[Arg],
    hole: &Hole,
) -> Result<CPiece, AllocError>
    ensures { IfOk result
        (λ p. plain_piece p
        ≡ piece_of (naming_of names.now) (forms_in scope.now) (map parameter params.now)
        (map argument args.now) (plain_hole hole.now)) }
{
    match hole {
        Hole::Bytes(text) => Ok(CPiece::Text(String::from_str(alloc, text.as_str())?)),
        Hole::InBraces(name) => piece_named(alloc, names, scope, params, args, name.as_str()),
    }
}

/// What stands for the parts of a template.
fn pieces_of(
    alloc: Global,
    names: &CNames<'_>,
    scope: &[Entry],
    params: &[Param],
    args: &[Arg],
    holes: &[Hole],
) -> Result<Vec<CPiece>, AllocError>
    ensures { IfOk result
        (λ v. map plain_piece v.items
        ≡ map (piece_of (naming_of names.now) (forms_in scope.now) (map parameter params.now)
        (map argument args.now))
        (map plain_hole holes.now)) }
{
    let mut pieces = Vec::new(alloc);
    for hole in holes {
        pieces.push(piece_of(alloc, names, scope, params, args, hole)?)?;
    }
    Ok(pieces)
}

/// The pieces of an instruction's line.
fn lower_template(
    alloc: Global,
    names: &CNames<'_>,
    scope: &[Entry],
    params: &[Param],
    args: &[Arg],
    template: &str,
) -> Result<Vec<CPiece>, AllocError>
    ensures { IfOk result
        (λ v. map plain_piece v.items
        ≡ map (piece_of (naming_of names.now) (forms_in scope.now) (map parameter params.now)
        (map argument args.now))
        (holes_of template.now)) }
{
    let holes = holes_of(alloc, template)?;
    let pieces = pieces_of(alloc, names, scope, params, args, &holes)?;
    Ok(pieces)
}

/// The C of a call of a function.
fn call_by_name(
    alloc: Global,
    names: &CNames<'_>,
    scope: &[Entry],
    p: &Proc,
    args: &Args,
) -> Result<CCall, AllocError>
    ensures name { IfOk result (λ c. string_bytes c.function ≡ p.now.name) }
    ensures args { IfOk result
        (λ c. map plain_actual c.args.items
        ≡ actuals_of (naming_of names.now) (forms_in scope.now) p.now.params args.now) }
{
    let function = String::from_str(alloc, p.name.as_str())?;
    let args = lower_actuals(alloc, names, scope, p.params.as_slice(), args.as_slice())?;
    Ok(CCall { function, args })
}

/// The C of an instruction.
fn call_by_template(
    alloc: Global,
    names: &CNames<'_>,
    scope: &[Entry],
    k: ProcId,
    p: &Proc,
    args: &Args,
    template: &str,
) -> Result<CInstruction, AllocError>
    ensures number { IfOk result (λ c. c.number ≡ k.0) }
    ensures pieces { IfOk result
        (λ c. map plain_piece c.pieces.items
        ≡ map (piece_of (naming_of names.now) (forms_in scope.now) p.now.params args.now)
        (holes_of template.now)) }
    ensures args { IfOk result
        (λ c. map plain_actual c.args.items
        ≡ actuals_of (naming_of names.now) (forms_in scope.now) p.now.params args.now) }
{
    let params = p.params.as_slice();
    let pieces = lower_template(alloc, names, scope, params, args.as_slice(), template)?;
    let args = lower_actuals(alloc, names, scope, params, args.as_slice())?;
    Ok(CInstruction {
        number: k.0,
        pieces,
        args,
    })
}

/// The C of a call of a procedure.
fn lower_call_of(
    alloc: Global,
    names: &CNames<'_>,
    scope: &[Entry],
    k: ProcId,
    p: &Proc,
    args: &Args,
) -> Result<CStatement, AllocError>
    ensures { IfOk result
        (λ s. plain_statement s
        ≡ call_of (naming_of names.now) (forms_in scope.now) k.0
        (routine_of (Some (procedure p.now))) args.now) }
{
    match &p.template {
        None => Ok(CStatement::Call(call_by_name(alloc, names, scope, p, args)?)),
        Some(text) => Ok(CStatement::Instruction(call_by_template(
            alloc,
            names,
            scope,
            k,
            p,
            args,
            text.as_str(),
        )?)),
    }
}

/// A call of a function without a name, in place of a procedure that the unit has not.
fn call_of_none(alloc: Global) -> CStatement
    ensures { plain_statement result ≡ CallOf [] [] }
{
    CStatement::Call(CCall {
        function: String::new(alloc),
        args: Vec::new(alloc),
    })
}

/// The C of a call.
pub(crate) fn lower_call(
    alloc: Global,
    names: &CNames<'_>,
    scope: &[Entry],
    k: ProcId,
    args: &Args,
) -> Result<CStatement, AllocError>
    ensures { IfOk result
        (λ s. plain_statement s
        ≡ call_of (naming_of names.now) (forms_in scope.now) k.0
        ((naming_of names.now).routine k.0) args.now) }
{
    match names.unit.procs.get(k.0 as usize) {
        Some(p) => lower_call_of(alloc, names, scope, k, p, args),
        None => Ok(call_of_none(alloc)),
    }
}
