//! The structs of windows that the C of functions names: one walk finds them.
ghost use Rattle.std.specs.Prelude.{◌≡◌, ◌++◌, [], ◌∷◌, map, IfOk, OnOk};
ghost use Rattle.std.specs.List.{list_any, filter};
ghost use Rattle.c_tree.specs.CTree.{cblock};
ghost use Rattle.exo_tree.specs.PlainBinder.{cell_type};
ghost use Rattle.c_tree.specs.Plain.{plain_struct, plain_actual, plain_statement, plain_param};
ghost use Rattle.c_tree.specs.Plain.{plain_function};
ghost use Rattle.c_lowering.specs.Made.LoweredUnit as structs;
ghost use Rattle.c_printer.specs.Found.{has, Found};

use crate::found::FoundStructs;
use c_tree::tree::{CActual, CBlock, CFunction, CParam, CStatement, CStruct};
use exo_tree::Cell;
use std::alloc::{AllocError, Global};

/// The greatest rank of a window.
const MOST_DIMENSIONS: usize = 8;

/// The cell types, in the order of their structs.
const CELL_TYPES: [Cell; 4] = [Cell::I8, Cell::I16, Cell::I32, Cell::Ui8];

/// Finds the struct of an argument that is a window.
fn find_in_actual(a: &CActual, found: &mut FoundStructs) -> Result<(), AllocError>
    ensures { OnOk result
        (Found (λ s. structs.in_actual s (plain_actual a.now)) found.old found.new) }
{
    match a {
        CActual::Window(w) => found.insert(w.kind),
        _ => Ok(()),
    }
}

/// Finds the structs of arguments.
fn find_in_actuals(args: &[CActual], found: &mut FoundStructs) -> Result<(), AllocError>
    ensures { OnOk result
        (Found (λ s. list_any (structs.in_actual s) (map plain_actual args.now))
        found.old found.new) }
{
    for a in args {
        find_in_actual(a, found)?;
    }
    Ok(())
}

/// Finds the structs that a block names. The line of an instruction names none.
#[cycle(named)]
fn find_in_block(b: &CBlock, found: &mut FoundStructs) -> Result<(), AllocError>
    ensures { OnOk result
        (Found (λ s. structs.struct_in_block s (cblock b.now)) found.old found.new) }
{
    for k in 0..b.len() {
        find_in_statement(b.statement(k), found)?;
    }
    Ok(())
}

/// Finds the structs that a statement names.
#[cycle(named)]
fn find_in_statement(a: &CStatement, found: &mut FoundStructs) -> Result<(), AllocError>
    ensures { OnOk result
        (Found (λ s. structs.struct_in s (plain_statement a.now)) found.old found.new) }
{
    match a {
        CStatement::Branch(_, a, b) => {
            find_in_block(a, found)?;
            find_in_block(b, found)
        }
        CStatement::Loop(_, _, _, body) => find_in_block(body, found),
        CStatement::Bind(_, w) => found.insert(w.kind),
        CStatement::Call(call) => find_in_actuals(&call.args, found),
        _ => Ok(()),
    }
}

/// Finds the struct of a parameter that is a window.
fn find_in_param(p: &CParam, found: &mut FoundStructs) -> Result<(), AllocError>
    ensures { OnOk result
        (Found (λ s. structs.in_formal s (plain_param p.now)) found.old found.new) }
{
    match p {
        CParam::Number(_) | CParam::Array(_, _) => Ok(()),
        CParam::Window(kind, _) => found.insert(*kind),
    }
}

/// Finds the structs of parameters.
fn find_in_params(params: &[CParam], found: &mut FoundStructs) -> Result<(), AllocError>
    ensures { OnOk result
        (Found (λ s. list_any (structs.in_formal s) (map plain_param params.now))
        found.old found.new) }
{
    for p in params {
        find_in_param(p, found)?;
    }
    Ok(())
}

/// Finds the structs that the C of a function names.
fn find_in_function(f: &CFunction, found: &mut FoundStructs) -> Result<(), AllocError>
    ensures { OnOk result
        (Found (λ s. structs.names_struct s (plain_function f.now)) found.old found.new) }
{
    find_in_params(&f.params, found)?;
    find_in_block(&f.body, found)
}

/// The structs that the C of functions names.
fn find_structs(alloc: Global, functions: &[CFunction]) -> Result<FoundStructs, AllocError>
    ensures { IfOk result
        (Found (λ s. list_any (structs.names_struct s) (map plain_function functions.now)) []) }
{
    let mut found = FoundStructs::new(alloc);
    for f in functions {
        find_in_function(f, &mut found)?;
    }
    Ok(found)
}

/// Appends a struct, where it was found.
fn put_struct(s: CStruct, found: &FoundStructs, made: &mut Vec<CStruct>) -> Result<(), AllocError>
    ensures { OnOk result
        (map plain_struct made.new.items
        ≡ map plain_struct made.old.items
        ++ filter (has found.now) (plain_struct s ∷ [])) }
{
    if found.has(s) {
        made.push(s)?;
    }
    Ok(())
}

/// Appends the structs of a rank over those cell types, where they were found.
fn put_rank(
    rank: usize,
    cells: &[Cell],
    found: &FoundStructs,
    made: &mut Vec<CStruct>,
) -> Result<(), AllocError>
    ensures { OnOk result
        (map plain_struct made.new.items
        ≡ map plain_struct made.old.items
        ++ filter (has found.now) (map (λ c. structs.struct_at rank (cell_type c)) cells.now)) }
{
    for cell in cells {
        put_struct(CStruct { rank, cell: *cell }, found, made)?;
    }
    Ok(())
}

/// The structs that were found, by rank and then by type.
fn listed_structs(alloc: Global, found: &FoundStructs) -> Result<Vec<CStruct>, AllocError>
    ensures { IfOk result
        (λ v. map plain_struct v.items ≡ filter (has found.now) structs.all_structs) }
{
    let mut made = Vec::new(alloc);
    for k in 0..MOST_DIMENSIONS {
        put_rank(k + 1, &CELL_TYPES, found, &mut made)?;
    }
    Ok(made)
}

/// The structs that the C of functions names, by rank and then by type.
pub(crate) fn lower_structs(
    alloc: Global,
    functions: &[CFunction],
) -> Result<Vec<CStruct>, AllocError>
    ensures { IfOk result
        (λ v. map plain_struct v.items ≡ structs.structs_of (map plain_function functions.now)) }
{
    let found = find_structs(alloc, functions)?;
    let made = listed_structs(alloc, &found)?;
    Ok(made)
}
