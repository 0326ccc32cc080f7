//! The C of procedures.
ghost use Rattle.std.specs.Prelude.{◌≡◌, [], map, Some, slice_get, string_bytes, IfOk};
ghost use Rattle.exo_tree.specs.PlainParam.{parameter, parameter_kind};
ghost use Rattle.exo_tree.specs.PlainProcedure.{procedure};
ghost use Rattle.exo_tree.specs.PlainUnit.{program};
ghost use Rattle.c_tree.specs.CTree.{stop, cblock};
ghost use Rattle.c_tree.specs.Plain.{plain_param, plain_function};
ghost use Rattle.c_lowering.specs.Made.Lowered.{param_forms, block_of};
ghost use Rattle.c_lowering.specs.Made.Lowered as kinds;
ghost use Rattle.c_lowering.specs.Made.LoweredUnit.{formal_of, formals_of, function_at};
ghost use Rattle.c_lowering.specs.Made.LoweredUnit.{functions_of};
ghost use Rattle.c_printer.specs.PlainPrinted.{printing};
ghost use Rattle.c_lowering.specs.Scope.{form_of, forms_in};
ghost use Rattle.c_lowering.specs.Naming.{naming_of};

use crate::report::Printed;
use c_lowering::{CNames, Entry, Form, enter, lower_block};
use c_tree::names::{Globals, NameTable};
use c_tree::tree::{CBlock, CFunction, CParam, CStruct};
use exo_tree::{Name, Param, ParamKind, Proc, ProcId, Unit};
use std::alloc::{AllocError, Global};

/// The C of a parameter, under its C name.
fn lower_param(p: &Param, name: String) -> CParam
    ensures { plain_param result ≡ formal_of (parameter_kind p.now.kind) (string_bytes name) }
{
    match &p.kind {
        ParamKind::Ctrl(_) => CParam::Number(name),
        ParamKind::Tensor(cell, _, _) => CParam::Array(*cell, name),
        ParamKind::Window(cell, dims, _) => CParam::Window(
            CStruct {
                rank: dims.len(),
                cell: *cell,
            },
            name,
        ),
    }
}

/// The C of parameters.
fn lower_params(
    alloc: Global,
    names: &CNames<'_>,
    params: &[Param],
) -> Result<Vec<CParam>, AllocError>
    ensures { IfOk result (λ v. map plain_param v.items ≡ formals_of (naming_of names.now) (map parameter params.now)) }
{
    let mut made = Vec::new(alloc);
    for p in params {
        let name = names.binder(alloc, p.binder.id)?;
        made.push(lower_param(p, name))?;
    }
    Ok(made)
}

/// What a parameter is in the body.
fn form_of(alloc: Global, kind: &ParamKind) -> Result<Form, AllocError>
    ensures { IfOk result (λ f. form_of f ≡ kinds.form_of (parameter_kind kind.now)) }
{
    match kind {
        ParamKind::Ctrl(_) => Ok(Form::Number),
        ParamKind::Tensor(cell, dims, _) => Ok(Form::Tensor(*cell, dims.duplicate(alloc)?, 0)),
        ParamKind::Window(cell, dims, _) => Ok(Form::Window(*cell, dims.len())),
    }
}

/// What the parameters are in the body; of two of one number the first counts.
fn param_scope(alloc: Global, params: &[Param]) -> Result<Vec<Entry>, AllocError>
    ensures { IfOk result (λ v. forms_in v.items ≡ param_forms (map parameter params.now)) }
{
    let mut scope = Vec::new(alloc);
    for k in 0..params.len() {
        let p = &params[params.len() - 1 - k];
        let form = form_of(alloc, &p.kind)?;
        enter(&mut scope, p.binder.id, form)?;
    }
    Ok(scope)
}

/// The C of a procedure's body.
fn lower_body(alloc: Global, names: &CNames<'_>, p: &Proc) -> Result<CBlock, AllocError>
    ensures { IfOk result (λ c. cblock c ≡ block_of (naming_of names.now) (param_forms (procedure p.now).params) (procedure p.now).body) }
{
    let mut scope = param_scope(alloc, p.params.as_slice())?;
    let body = lower_block(alloc, names, &mut scope, &p.body)?;
    Ok(body)
}

/// The C of a procedure.
fn lower_function(
    alloc: Global,
    unit: &Unit,
    globals: &Globals<'_>,
    p: &Proc,
) -> Result<CFunction, AllocError>
    ensures { IfOk result (λ f. plain_function f ≡ function_at (program unit.now) globals.now (Some (procedure p.now))) }
{
    let binders = NameTable::new(alloc, globals, p)?;
    let names = CNames {
        unit,
        binders: &binders,
    };
    let name = String::from_str(alloc, p.name.as_str())?;
    let params = lower_params(alloc, &names, p.params.as_slice())?;
    let body = lower_body(alloc, &names, p)?;
    Ok(CFunction { name, params, body })
}

/// A function without a name, in place of a procedure that the unit has not.
fn no_function(alloc: Global) -> CFunction
    ensures { plain_function result ≡ record { name = []; formals = []; body = stop } }
{
    CFunction {
        name: String::new(alloc),
        params: Vec::new(alloc),
        body: CBlock::new(alloc),
    }
}

/// The C of the procedure of that number.
fn lower_printed(
    alloc: Global,
    unit: &Unit,
    globals: &Globals<'_>,
    k: ProcId,
) -> Result<CFunction, AllocError>
    ensures { IfOk result (λ f. plain_function f ≡ function_at (program unit.now) globals.now (slice_get unit.now.procs k.0)) }
{
    match unit.procs.get(k.0 as usize) {
        Some(p) => {
            let f = lower_function(alloc, unit, globals, p)?;
            Ok(f)
        }
        None => Ok(no_function(alloc)),
    }
}

/// The C of the listed procedures.
pub(crate) fn lower_functions(
    alloc: Global,
    unit: &Unit,
    globals: &Globals<'_>,
    what: &[Printed],
) -> Result<Vec<CFunction>, AllocError>
    ensures { IfOk result (λ v. map plain_function v.items ≡ functions_of (program unit.now) globals.now (map printing what.now)) }
{
    let mut made = Vec::new(alloc);
    for w in what {
        made.push(lower_printed(alloc, unit, globals, w.proc)?)?;
    }
    Ok(made)
}
