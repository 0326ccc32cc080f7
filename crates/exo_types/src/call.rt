//! Calls of procedures that stand above.
ghost use Rattle.std.specs.Prelude.{◌≡◌, ◌+◌, ◌≤◌, ◌||◌, [], Some, map, length, IfOk};
ghost use Rattle.exo_tree.specs.PlainParam.{parameter, parameter_kind};
ghost use Rattle.exo_meaning.specs.Units.{is_whole};
ghost use Rattle.exo_reader.specs.Views.{plain_argument};
ghost use Rattle.rules_names.specs.Faults.{charged};
ghost use Rattle.rules_names.specs.Tests.{most_tokens};
ghost use Rattle.exo_modes.specs.Aliases.{roots_in, same_buffer};
ghost use Rattle.exo_types.specs.ArgumentRules as rules;
ghost use Rattle.exo_types.specs.Seen.{signature};

use crate::argument::{argument_of, root_of, test_argument};
use exo_modes::{Alias, ModesRow, same_buffer};
use exo_reader::source::SourceArg;
use exo_tree::{Args, Param, ParamKind, Params};
use rules_names::error::TypeKind;
use rules_names::fault::Charge;
use rules_names::tested::Names;
use std::alloc::{AllocError, Global};

/// A procedure as a call sees it.
#[derive(Clone, Copy)]
pub struct Callee<'c> {
    pub params: &'c Params,
    /// What it writes or reduces.
    pub writes: &'c ModesRow,
}

/// An argument that was passed: the buffer that it is a part of, and whether its parameter is written
/// or reduced, and is a tensor with dimensions.
#[derive(Clone, Copy)]
pub struct Passed {
    pub root: Option<u32>,
    pub written: bool,
    pub whole: bool,
}

/// Whether both are parts of one buffer, one of the two parameters is written, and one of the two is a
/// tensor with dimensions.
fn shares(before: Passed, now: Passed) -> bool
    ensures { result ≡ rules.shares before now }
{
    let written = before.written || now.written;
    let whole = before.whole || now.whole;
    same_buffer(before.root, now.root) && (written && whole)
}

/// Whether the argument shares a buffer with one that was passed before.
fn is_passed(passed: &[Passed], now: Passed) -> bool
    ensures { result ≡ rules.is_passed now passed.now }
{
    for before in passed {
        if shares(*before, now) {
            return true;
        }
    }
    false
}

/// Whether a parameter is a tensor with dimensions.
fn is_whole(kind: &ParamKind) -> bool
    ensures { result ≡ is_whole (parameter_kind kind.now) }
{
    match kind {
        ParamKind::Tensor(_, dims, _) => !(dims.len() == 0),
        _ => false,
    }
}

/// What the arguments of a call break, the first of which is token `n`, and the number of the token behind the one that is
/// behind the last, where there are as many as parameters.
fn test_arguments(
    alloc: Global,
    names: &Names,
    aliases: &[Alias],
    callee: Callee,
    n: usize,
    arguments: &[SourceArg],
) -> Result<(Charge, usize), AllocError>
    requires { n + rules.spaced_width (map plain_argument arguments.now) ≤ most_tokens }
    ensures charge { IfOk result
        (λ r. r.0
        ≡ charged (rules.arguments_faults names.now.fields.now
        (signature callee.entry).writes names.now.scope.now (roots_in aliases.now) []
        (signature callee.entry).params n (map plain_argument arguments.now))) }
    ensures end { IfOk result
        (λ r. length arguments.now ≡ length (signature callee.entry).params
        → r.1 ≡ n + rules.spaced_width (map plain_argument arguments.now)) }
{
    let params = callee.params.as_slice();
    let mut passed = Vec::new(alloc);
    let mut charge = Charge::none();
    let mut next = n;
    for k in 0..params.len().min(arguments.len()) {
        let param = &params[k];
        let given = &arguments[k];
        let now = Passed {
            root: root_of(names, aliases, &param.kind, given),
            written: callee.writes.has_write(param.binder.id.0),
            whole: is_whole(&param.kind),
        };
        let (own, end) = test_argument(names, &param.kind, next, given);
        let shared = is_passed(&passed, now);
        let shares = Charge::unless(!shared, TypeKind::SharedArgument, next);
        charge = charge.and(own.and(shares));
        passed.push(now)?;
        next = end + 1;
    }
    Ok((charge, next))
}

/// What a call breaks, whose name is token `n`, and the number of the token behind the parenthesis that closes its arguments,
/// if no comma stands before it and there are as many as parameters.
pub fn test_call(
    alloc: Global,
    names: &Names,
    aliases: &[Alias],
    callee: Callee,
    n: usize,
    arguments: &[SourceArg],
) -> Result<(Charge, usize), AllocError>
    requires { n + 2 + rules.arguments_width (map plain_argument arguments.now) ≤ most_tokens }
    ensures charge { IfOk result
        (λ r. r.0
        ≡ charged (rules.call_faults names.now.fields.now
        (Some (signature callee.entry)) names.now.scope.now (roots_in aliases.now) n
        (map plain_argument arguments.now))) }
    ensures end { IfOk result
        (λ r. length arguments.now ≡ length (signature callee.entry).params
        → r.1 ≡ n + 2 + rules.arguments_width (map plain_argument arguments.now)) }
{
    let same = arguments.len() == callee.params.len();
    let count = Charge::unless(same, TypeKind::RankMismatch, n);
    let (parts, next) = test_arguments(alloc, names, aliases, callee, n + 2, arguments)?;
    let end = if arguments.is_empty() { n + 3 } else { next };
    Ok((count.and(parts), end))
}

/// The arguments of a call as trees, as many as there are both parameters and arguments.
pub fn arguments_of(
    alloc: Global,
    names: &Names,
    params: &[Param],
    arguments: &[SourceArg],
) -> Result<Args, AllocError>
    ensures { IfOk result
        (λ l. l
        ≡ rules.arguments_of names.now.fields.now names.now.scope.now (map parameter params.now)
        (map plain_argument arguments.now)) }
{
    let mut made = Args::new(alloc);
    for k in 0..params.len().min(arguments.len()) {
        made.push(argument_of(alloc, names, &params[k].kind, &arguments[k])?)?;
    }
    Ok(made)
}
