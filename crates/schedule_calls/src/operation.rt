//! Operators with their arguments.

ghost use Rattle.std.specs.Prelude.{IfOk};
ghost use Rattle.schedule_calls.specs.Answers.{IsOperation};
ghost use Rattle.schedule_calls.specs.declared.operator.OperatorName.TheVariants as operator;

use crate::argument::{cursor_of, name_in};
use crate::change::change_of;
use crate::operator::{ChangeOperator, OperatorName, WholeOperator};
use crate::request::Operation;
use schedule_text::source::ArgText;
use std::alloc::{AllocError, Global};

/// `CURSOR, ..`
fn at_of(
    alloc: Global,
    kind: ChangeOperator,
    args: &[ArgText],
) -> Result<Option<Operation<'_>>, AllocError>
    ensures { IfOk result (IsOperation (operator.At kind) args.now) }
{
    let [at, more @ ..] = args else {
        return Ok(None);
    };
    let Some(at) = cursor_of(alloc, at)? else {
        return Ok(None);
    };
    match change_of(alloc, kind, more)? {
        Some(change) => Ok(Some(Operation::At(at, change))),
        None => Ok(None),
    }
}

/// No argument.
fn whole_of(kind: WholeOperator, args: &[ArgText]) -> Option<Operation<'_>>
    ensures { IsOperation (operator.Whole kind) args.now result }
{
    match args {
        [] => Some(Operation::Whole(kind)),
        _ => None,
    }
}

/// `NAME`
fn rename_of(alloc: Global, args: &[ArgText]) -> Result<Option<Operation<'_>>, AllocError>
    ensures { IfOk result (IsOperation operator.Rename args.now) }
{
    let [name] = args else {
        return Ok(None);
    };
    match name_in(alloc, name)? {
        Some(name) => Ok(Some(Operation::Rename(name))),
        None => Ok(None),
    }
}

/// What the operator asks with these arguments behind its first.
pub fn operation_of(
    alloc: Global,
    operator: OperatorName,
    args: &[ArgText],
) -> Result<Option<Operation<'_>>, AllocError>
    ensures { IfOk result (IsOperation operator args.now) }
{
    match operator {
        OperatorName::At(kind) => at_of(alloc, kind, args),
        OperatorName::Whole(kind) => Ok(whole_of(kind, args)),
        OperatorName::Rename => rename_of(alloc, args),
    }
}
