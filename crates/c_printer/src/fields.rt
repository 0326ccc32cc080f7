//! The configuration fields that procedures read or write: one walk marks them.
ghost use Rattle.std.specs.Prelude.{◌≡◌, ◌&&◌, ◌||◌, false, length, map, replicate, IfOk};
ghost use Rattle.exo_tree.specs.Tree.{block};
ghost use Rattle.exo_tree.specs.PlainControl.{control, condition};
ghost use Rattle.exo_tree.specs.PlainArgument.{argument};
ghost use Rattle.exo_tree.specs.PlainStatement.{statement};
ghost use Rattle.exo_tree.specs.PlainProcedure.{procedure};
ghost use Rattle.exo_tree.specs.PlainTables.{config_field};
ghost use Rattle.exo_tree.specs.PlainUnit.{program};
ghost use Rattle.exo_modes.specs.Calls.Marked.{contains, Marked};
ghost use Rattle.c_lowering.specs.Made.LoweredUnit.{in_control, in_condition, in_conditions};
ghost use Rattle.c_lowering.specs.Made.LoweredUnit.{in_argument};
ghost use Rattle.c_lowering.specs.Made.LoweredUnit.{in_arguments, in_block, in_statement};
ghost use Rattle.c_lowering.specs.Made.LoweredUnit.{in_procedure};
ghost use Rattle.c_lowering.specs.Made.LoweredUnit.{is_used_from, fields_from};

use c_lowering::field_name;
use config_state::FieldSet;
use exo_modes::calls::Marks;
use exo_tree::{Arg, Args, Block, Cond, Conds, Ctrl, Field, Name, Proc, Stmt, Unit};
use std::alloc::{AllocError, Global};

/// Marks the fields of an expression.
fn mark_control(e: &Ctrl, marks: &mut FieldSet)
    ensures { Marked (λ f. in_control f (control e.now)) marks.old marks.new }
{
    match e {
        Ctrl::Lit(_) | Ctrl::Var(_) | Ctrl::Stride(_, _) => {}
        Ctrl::Field(f) => marks.insert(*f),
        Ctrl::Neg(a) | Ctrl::Div(a, _) | Ctrl::Mod(a, _) => mark_control(a, marks),
        Ctrl::Add(a, b) | Ctrl::Sub(a, b) | Ctrl::Mul(a, b) => {
            mark_control(a, marks);
            mark_control(b, marks);
        }
    }
}

/// Marks the fields of both sides of a comparison.
fn mark_both(a: &Ctrl, b: &Ctrl, marks: &mut FieldSet)
    ensures { Marked (λ f. in_control f (control a.now) || in_control f (control b.now)) marks.old marks.new }
{
    mark_control(a, marks);
    mark_control(b, marks);
}

/// Marks the fields of a condition.
fn mark_condition(c: &Cond, marks: &mut FieldSet)
    ensures { Marked (λ f. in_condition f (condition c.now)) marks.old marks.new }
{
    match c {
        Cond::True | Cond::False | Cond::Var(_) => {}
        Cond::Field(f) => marks.insert(*f),
        Cond::Lt(a, b) | Cond::Le(a, b) | Cond::Gt(a, b) | Cond::Ge(a, b) | Cond::Eq(a, b) => {
            mark_both(a, b, marks);
        }
        Cond::And(a, b) | Cond::Or(a, b) => {
            mark_condition(a, marks);
            mark_condition(b, marks);
        }
    }
}

/// Marks the fields of conditions.
fn mark_conditions(cs: &Conds, marks: &mut FieldSet)
    ensures { Marked (λ f. in_conditions f cs.now) marks.old marks.new }
{
    for c in cs.as_slice() {
        mark_condition(c, marks);
    }
}

/// Marks the fields of an argument.
fn mark_argument(a: &Arg, marks: &mut FieldSet)
    ensures { Marked (λ f. in_argument f (argument a.now)) marks.old marks.new }
{
    match a {
        Arg::Ctrl(e) => mark_control(e, marks),
        Arg::Cond(c) => mark_condition(c, marks),
        Arg::Whole(_) | Arg::Window(_, _) => {}
    }
}

/// Marks the fields of arguments.
fn mark_arguments(args: &Args, marks: &mut FieldSet)
    ensures { Marked (λ f. in_arguments f args.now) marks.old marks.new }
{
    for a in args.as_slice() {
        mark_argument(a, marks);
    }
}

/// Marks the fields of a block.
#[cycle(marked)]
fn mark_block(b: &Block, marks: &mut FieldSet)
    ensures { Marked (λ f. in_block f (block b.now)) marks.old marks.new }
{
    for k in 0..b.len() {
        mark_statement(b.statement(k), marks);
    }
}

/// Marks the fields of a statement.
#[cycle(marked)]
fn mark_statement(s: &Stmt, marks: &mut FieldSet)
    ensures { Marked (λ f. in_statement f (statement s.now)) marks.old marks.new }
{
    match s {
        Stmt::Config(f, a) => {
            marks.insert(*f);
            mark_argument(a, marks);
        }
        Stmt::If(c, a, b) => {
            mark_condition(c, marks);
            mark_block(a, marks);
            mark_block(b, marks);
        }
        Stmt::For(_, _, _, body) => mark_block(body, marks),
        Stmt::Call(_, args) => mark_arguments(args, marks),
        _ => {}
    }
}

/// Marks the fields that a procedure reads or writes.
fn mark_procedure(p: &Proc, marks: &mut FieldSet)
    ensures { Marked (λ f. in_procedure f (procedure p.now)) marks.old marks.new }
{
    mark_conditions(&p.asserts, marks);
    mark_block(&p.body, marks);
}

/// The same, where the procedure counts.
fn mark_counted(p: &Proc, counted: bool, marks: &mut FieldSet)
    ensures { Marked (λ f. counted && in_procedure f (procedure p.now)) marks.old marks.new }
{
    if counted {
        mark_procedure(p, marks);
    }
}

/// The fields that the counted procedures read or write.
fn used_fields(alloc: Global, unit: &Unit, counted: &Marks) -> Result<FieldSet, AllocError>
    ensures { IfOk result
        (λ s. Marked (λ f. is_used_from (contains counted.now) f 0 (program unit.now).procedures)
        (replicate (length unit.now.fields) false) s) }
{
    let mut marks = FieldSet::empty(alloc, unit.fields.len())?;
    for (k, p) in unit.procs.as_slice().iter().enumerate() {
        mark_counted(p, counted.has(k), &mut marks);
    }
    Ok(marks)
}

/// The C names of the marked fields of a list.
fn marked_names(alloc: Global, marks: &FieldSet, fields: &[Field]) -> Result<Vec<Name>, AllocError>
    ensures { IfOk result (λ v. v.items ≡ fields_from (contains marks.now) 0 (map config_field fields.now)) }
{
    let mut names = Vec::new(alloc);
    for (k, field) in fields.iter().enumerate() {
        if marks.contains(k) {
            let name = field_name(alloc, field)?;
            names.push(Name::new(alloc, name.as_str())?)?;
        }
    }
    Ok(names)
}

/// The C names of the fields that the counted procedures read or write, in the unit's order.
pub(crate) fn lower_fields(
    alloc: Global,
    unit: &Unit,
    counted: &Marks,
) -> Result<Vec<Name>, AllocError>
    ensures { IfOk result
        (λ v. v.items
        ≡ fields_from (λ f. is_used_from (contains counted.now) f 0
        (program unit.now).procedures) 0 unit.now.fields) }
{
    let marks = used_fields(alloc, unit, counted)?;
    let names = marked_names(alloc, &marks, unit.fields.as_slice())?;
    Ok(names)
}
