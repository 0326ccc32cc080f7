//! Lines.

ghost use Rattle.std.specs.Prelude.{IfOk};
ghost use Rattle.schedule_text.specs.Views.{plain_act, plain_arguments, plain_found, plain_statement};
ghost use Rattle.schedule_text.specs.Tree as tree;
ghost use Rattle.schedule_calls.specs.Answers.{IsAnswer};

use crate::argument::word_of;
use crate::operation::operation_of;
use crate::operator::operator_of;
use crate::request::{LineFault, Request};
use crate::string::pattern_of;
use schedule_text::source::{Act, Arguments, Found, Line, Statement};
use std::alloc::{AllocError, Global};
use text_lexer::text::Text;

/// A line that names an operator.
fn read_operation<'a>(
    alloc: Global,
    bind: &'a Text,
    name: &Text,
    args: &'a Arguments,
) -> Result<Result<Request<'a>, LineFault>, AllocError>
    ensures { IfOk result (IsAnswer (tree.bind bind.now (tree.operation name.now (plain_arguments args.now)))) }
{
    let Some(operator) = operator_of(name) else {
        return Ok(Err(LineFault::UnknownOperator));
    };
    let Some(of) = word_of(&args.first) else {
        return Ok(Err(LineFault::BadArguments));
    };
    match operation_of(alloc, operator, args.more.as_slice())? {
        Some(operation) => Ok(Ok(Request::Apply(bind, of, operation))),
        None => Ok(Err(LineFault::BadArguments)),
    }
}

/// A line that finds a cursor.
fn read_search<'a>(
    alloc: Global,
    bind: &'a Text,
    found: &'a Found,
) -> Result<Result<Request<'a>, LineFault>, AllocError>
    ensures { IfOk result (IsAnswer (tree.bind bind.now (tree.search (plain_found found.now)))) }
{
    match pattern_of(alloc, &found.pattern)? {
        Some((pattern, nth)) => Ok(Ok(Request::Search(
            bind,
            &found.version,
            pattern,
            nth,
            found.moves.items.as_slice(),
        ))),
        None => Ok(Err(LineFault::BadArguments)),
    }
}

/// A line that binds a name.
fn read_act<'a>(
    alloc: Global,
    bind: &'a Text,
    act: &'a Act,
) -> Result<Result<Request<'a>, LineFault>, AllocError>
    ensures { IfOk result (IsAnswer (tree.bind bind.now (plain_act act.now))) }
{
    match act {
        Act::Op(name, args) => read_operation(alloc, bind, name, args),
        Act::Find(found) => read_search(alloc, bind, found),
        Act::Moved(of, first, more) => Ok(Ok(Request::Moved(
            bind,
            of,
            *first,
            more.items.as_slice(),
        ))),
    }
}

/// What the line asks for. `UnknownOperator` where there is no operator of its name, `BadArguments`
/// where the number or the form of its arguments is wrong or a string is not of the grammar of its
/// place.
pub fn read_line(alloc: Global, line: &Line) -> Result<Result<Request<'_>, LineFault>, AllocError>
    ensures { IfOk result (IsAnswer (plain_statement line.now.statement)) }
{
    match &line.statement {
        Statement::Emit(name) => Ok(Ok(Request::Emit(name))),
        Statement::Bind(bind, act) => read_act(alloc, bind, act),
    }
}
