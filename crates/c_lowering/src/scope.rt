//! What the names in scope are in C.
ghost use Rattle.std.specs.Prelude.{◌≡◌, length, take, OnOk};
ghost use Rattle.std.specs.Option.{option_copied};
ghost use Rattle.exo_tree.specs.Tree.{I32};
ghost use Rattle.exo_tree.specs.PlainBinder.{cell_type};
ghost use Rattle.exo_meaning.specs.Scene.{updated};
ghost use Rattle.c_lowering.specs.Made.Lowered.{Naming, cell_in, strides_in};
ghost use Rattle.c_lowering.specs.Scope.{form_of, or_no_form, forms_in};

use exo_tree::{Cell, Id, Indices};
use std::alloc::AllocError;

/// What a name is: a control value, a buffer with its cell type, dimensions and lanes, which are 0 where it has no
/// vectors, or a window with its cell type and rank.
#[derive(Drop)]
pub enum Form {
    Number,
    Tensor(Cell, Indices, u32),
    Window(Cell, usize),
}

/// A name in scope. Of two entries of one number the later counts.
#[derive(Drop)]
pub struct Entry {
    pub id: Id,
    pub form: Form,
}

/// What a name is; None where it is not in scope.
pub(crate) fn find(scope: &[Entry], x: Id) -> Option<&Form>
    ensures { or_no_form (option_copied result) ≡ forms_in scope.now x.0 }
{
    for k in 0..scope.len() {
        let e = &scope[scope.len() - 1 - k];
        if x.0 == e.id.0 {
            return Some(&e.form);
        }
    }
    None
}

/// A name comes into scope, behind those that are there.
pub fn enter(scope: &mut Vec<Entry>, id: Id, form: Form) -> Result<(), AllocError>
    ensures forms { OnOk result (forms_in scope.new.items ≡ updated (forms_in scope.old.items) id.0 (form_of form)) }
    ensures kept { OnOk result (take (length scope.old.items) scope.new.items ≡ scope.old.items) }
{
    scope.push(Entry { id, form })?;
    Ok(())
}

/// The type of the cells of a buffer or window; `i32` for another name.
pub(crate) fn buffer_cell(scope: &[Entry], x: Id) -> Cell
    ensures { cell_type result ≡ cell_in (forms_in scope.now x.0) I32 }
{
    match find(scope, x) {
        Some(Form::Tensor(cell, _, _)) => *cell,
        Some(Form::Window(cell, _)) => *cell,
        Some(Form::Number) => Cell::I32,
        None => Cell::I32,
    }
}

/// How many strides a name has: one for each dimension of a buffer or window, none for another name.
pub(crate) fn stride_count(scope: &[Entry], x: Id) -> usize
    ensures { (naming : Naming) → result ≡ length (strides_in naming x.0 (forms_in scope.now x.0)) }
{
    match find(scope, x) {
        Some(Form::Tensor(_, dims, _)) => dims.len(),
        Some(Form::Window(_, rank)) => *rank,
        Some(Form::Number) => 0,
        None => 0,
    }
}
