//! What operators ask at a cursor, by their arguments behind it.

ghost use Rattle.std.specs.Prelude.{IfOk};
ghost use Rattle.schedule_calls.specs.Answers.{IsChange};
ghost use Rattle.schedule_calls.specs.declared.operator.ChangeOperator.TheVariants as kind;

use crate::argument::{
    condition_in, control_in, either_in, expression_in, name_in, window_in, word_of,
};
use crate::division::division_of;
use crate::keeping::{accum_in, keep_in};
use crate::operator::{ChangeOperator, ControlOperator, CursorOperator, WordOperator};
use crate::request::Change;
use schedule_text::source::ArgText;
use std::alloc::{AllocError, Global};

/// No argument.
fn alone_of(operator: CursorOperator, args: &[ArgText]) -> Option<Change<'_>>
    ensures { IsChange (kind.Alone operator) args.now result }
{
    match args {
        [] => Some(Change::Alone(operator)),
        _ => None,
    }
}

/// `CONTROL`
fn with_control_of(
    alloc: Global,
    operator: ControlOperator,
    args: &[ArgText],
) -> Result<Option<Change<'_>>, AllocError>
    ensures { IfOk result (IsChange (kind.WithControl operator) args.now) }
{
    let [value] = args else {
        return Ok(None);
    };
    match control_in(alloc, value)? {
        Some(value) => Ok(Some(Change::WithControl(operator, value))),
        None => Ok(None),
    }
}

/// `WORD`
fn with_word_of(operator: WordOperator, args: &[ArgText]) -> Option<Change<'_>>
    ensures { IsChange (kind.WithWord operator) args.now result }
{
    let [word] = args else {
        return None;
    };
    match word_of(word) {
        Some(word) => Some(Change::WithWord(operator, word)),
        None => None,
    }
}

/// `NAME`
fn mult_of(alloc: Global, args: &[ArgText]) -> Result<Option<Change<'_>>, AllocError>
    ensures { IfOk result (IsChange kind.MultLoops args.now) }
{
    let [name] = args else {
        return Ok(None);
    };
    match name_in(alloc, name)? {
        Some(name) => Ok(Some(Change::MultLoops(name))),
        None => Ok(None),
    }
}

/// `CONDITION`
fn specialize_of(alloc: Global, args: &[ArgText]) -> Result<Option<Change<'_>>, AllocError>
    ensures { IfOk result (IsChange kind.Specialize args.now) }
{
    let [condition] = args else {
        return Ok(None);
    };
    match condition_in(alloc, condition)? {
        Some(condition) => Ok(Some(Change::Specialize(condition))),
        None => Ok(None),
    }
}

/// `PART`
fn commute_of(alloc: Global, args: &[ArgText]) -> Result<Option<Change<'_>>, AllocError>
    ensures { IfOk result (IsChange kind.CommuteExpr args.now) }
{
    let [part] = args else {
        return Ok(None);
    };
    match expression_in(alloc, part)? {
        Some(part) => Ok(Some(Change::CommuteExpr(part))),
        None => Ok(None),
    }
}

/// `PART, NAME`
fn bind_expr_of(alloc: Global, args: &[ArgText]) -> Result<Option<Change<'_>>, AllocError>
    ensures { IfOk result (IsChange kind.BindExpr args.now) }
{
    let [part, name] = args else {
        return Ok(None);
    };
    let Some(name) = name_in(alloc, name)? else {
        return Ok(None);
    };
    match expression_in(alloc, part)? {
        Some(part) => Ok(Some(Change::BindExpr(part, name))),
        None => Ok(None),
    }
}

/// `CONTROL, CONTROL`
fn expand_of(alloc: Global, args: &[ArgText]) -> Result<Option<Change<'_>>, AllocError>
    ensures { IfOk result (IsChange kind.ExpandDim args.now) }
{
    let [size, point] = args else {
        return Ok(None);
    };
    let Some(size) = control_in(alloc, size)? else {
        return Ok(None);
    };
    match control_in(alloc, point)? {
        Some(point) => Ok(Some(Change::ExpandDim(size, point))),
        None => Ok(None),
    }
}

/// `WINDOW, NAME, KEYS`
fn stage_of(alloc: Global, args: &[ArgText]) -> Result<Option<Change<'_>>, AllocError>
    ensures { IfOk result (IsChange kind.StageMem args.now) }
{
    let [window, name, keys @ ..] = args else {
        return Ok(None);
    };
    let Some(accum) = accum_in(keys) else {
        return Ok(None);
    };
    let Some(name) = name_in(alloc, name)? else {
        return Ok(None);
    };
    match window_in(alloc, window)? {
        Some(window) => Ok(Some(Change::StageMem(window, name, accum))),
        None => Ok(None),
    }
}

/// `WORD, NAME, EXPRESSION`
fn write_config_of(alloc: Global, args: &[ArgText]) -> Result<Option<Change<'_>>, AllocError>
    ensures { IfOk result (IsChange kind.WriteConfig args.now) }
{
    let [config, field, value] = args else {
        return Ok(None);
    };
    let Some(config) = word_of(config) else {
        return Ok(None);
    };
    let Some(field) = name_in(alloc, field)? else {
        return Ok(None);
    };
    match either_in(alloc, value)? {
        Some(value) => Ok(Some(Change::WriteConfig(config, field, value))),
        None => Ok(None),
    }
}

/// `NAME, WORD, NAME`
fn bind_config_of(alloc: Global, args: &[ArgText]) -> Result<Option<Change<'_>>, AllocError>
    ensures { IfOk result (IsChange kind.BindConfig args.now) }
{
    let [param, config, field] = args else {
        return Ok(None);
    };
    let Some(config) = word_of(config) else {
        return Ok(None);
    };
    let Some(param) = name_in(alloc, param)? else {
        return Ok(None);
    };
    match name_in(alloc, field)? {
        Some(field) => Ok(Some(Change::BindConfig(param, config, field))),
        None => Ok(None),
    }
}

/// `NUMBER, [NAME, NAME], KEYS`
fn divide_of(alloc: Global, args: &[ArgText]) -> Result<Option<Change<'_>>, AllocError>
    ensures { IfOk result (IsChange kind.DivideLoop args.now) }
{
    let [by, names, keys @ ..] = args else {
        return Ok(None);
    };
    match division_of(alloc, by, names, keys)? {
        Some(division) => Ok(Some(Change::DivideLoop(division))),
        None => Ok(None),
    }
}

/// `KEYS`
fn eliminate_of(alloc: Global, args: &[ArgText]) -> Result<Option<Change<'_>>, AllocError>
    ensures { IfOk result (IsChange kind.EliminateDeadCode args.now) }
{
    match keep_in(alloc, args)? {
        Some(keep) => Ok(Some(Change::EliminateDeadCode(keep))),
        None => Ok(None),
    }
}

/// What the operator asks at a cursor with these arguments behind that one.
pub fn change_of(
    alloc: Global,
    operator: ChangeOperator,
    args: &[ArgText],
) -> Result<Option<Change<'_>>, AllocError>
    ensures { IfOk result (IsChange operator args.now) }
{
    match operator {
        ChangeOperator::Alone(operator) => Ok(alone_of(operator, args)),
        ChangeOperator::WithControl(operator) => with_control_of(alloc, operator, args),
        ChangeOperator::WithWord(operator) => Ok(with_word_of(operator, args)),
        ChangeOperator::MultLoops => mult_of(alloc, args),
        ChangeOperator::Specialize => specialize_of(alloc, args),
        ChangeOperator::CommuteExpr => commute_of(alloc, args),
        ChangeOperator::BindExpr => bind_expr_of(alloc, args),
        ChangeOperator::ExpandDim => expand_of(alloc, args),
        ChangeOperator::StageMem => stage_of(alloc, args),
        ChangeOperator::WriteConfig => write_config_of(alloc, args),
        ChangeOperator::BindConfig => bind_config_of(alloc, args),
        ChangeOperator::DivideLoop => divide_of(alloc, args),
        ChangeOperator::EliminateDeadCode => eliminate_of(alloc, args),
    }
}
