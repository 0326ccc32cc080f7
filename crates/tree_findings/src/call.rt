//! What is found in calls.
ghost use Rattle.std.specs.Prelude.{◌≡◌, ◌||◌, map};
ghost use Rattle.exo_tree.specs.PlainArgument.{argument};
ghost use Rattle.exo_tree.specs.PlainParam.{parameter};
ghost use Rattle.exo_tree.specs.PlainUnit.{program};
ghost use Rattle.exo_meaning.specs.Modes.{modes_at};
ghost use Rattle.exo_meaning.specs.Units as units;
ghost use Rattle.exo_modes.specs.Aliases.{roots_in};
ghost use Rattle.exo_modes.specs.Marks.{writing};
ghost use Rattle.exo_modes.specs.Seen.{table_says};
ghost use Rattle.tree_findings.specs.Classes.{both, rule};
ghost use Rattle.tree_findings.specs.Findings as found;
ghost use Rattle.tree_findings.specs.Seen.{kinds_seen, scope_seen};
ghost use Rattle.tree_findings.specs.Walked.{IsGround, ground_callees, ground_kinds, writes_seen};

use crate::argument::in_arguments;
use crate::findings::Findings;
use crate::name::ScopeNames;
use exo_modes::{Alias, ModeTable, root, same_buffer};
use exo_tree::{Arg, Args, Id, Param, ParamKind, Params, ProcId, Unit};

/// What stands round a body: its unit, with the modes of its procedures.
#[derive(Clone, Copy)]
pub(crate) struct Surroundings<'u> {
    pub(crate) unit: &'u Unit,
    pub(crate) modes: &'u ModeTable,
}

impl<'u> Surroundings<'u> {
    /// Whether a procedure writes or reduces a buffer.
    fn has_write(&self, k: ProcId, x: Id) -> bool
        ensures { result ≡ writes_seen self.now k.0 x.0 }
    {
        let modes = self.modes.get(k, x);
        modes.write || modes.reduce
    }

    /// The buffer that an argument is a part of.
    fn root_of(&self, aliases: &[Alias], a: &Arg) -> Option<u32>
        ensures { result ≡ units.root_of (ground_kinds self.now) (roots_in aliases.now)
            (argument a.now) }
    {
        match a {
            Arg::Whole(x) => Some(root(aliases, x.0)),
            Arg::Window(x, _) => Some(root(aliases, x.0)),
            _ => None,
        }
    }

    /// Whether both are the same buffer.
    fn same_root(&self, one: Option<u32>, other: Option<u32>) -> bool
        ensures { result ≡ units.same_root (ground_kinds self.now) one other }
    {
        same_buffer(one, other)
    }

    /// Whether the callee writes one of two parameters.
    fn has_write_of(&self, k: ProcId, x: Id, y: Id) -> bool
        ensures { result ≡ (writes_seen self.now k.0 x.0 || writes_seen self.now k.0 y.0) }
    {
        let first = self.has_write(k, x);
        let second = self.has_write(k, y);
        first || second
    }
}

/// Whether a parameter is a tensor with dimensions.
fn is_whole(p: &Param) -> bool
    ensures { result ≡ units.is_whole (parameter p.now).kind }
{
    match &p.kind {
        ParamKind::Tensor(_, dims, _) => !(dims.len() == 0),
        _ => false,
    }
}

/// Whether a later argument is of the same buffer as that of a parameter, the callee writes one of
/// the two parameters, and one of the two is a tensor with dimensions.
fn is_shared(
    ground: &Surroundings,
    aliases: &[Alias],
    callee: ProcId,
    p: &Param,
    buffer: Option<u32>,
    params: &[Param],
    args: &[Arg],
) -> bool
    ensures { result ≡ units.is_shared (ground_kinds ground.now) (writes_seen ground.now callee.0)
        (roots_in aliases.now) (parameter p.now) buffer (map parameter params.now)
        (map argument args.now) }
{
    let [q, params @ ..] = params else {
        return false;
    };
    let [a, args @ ..] = args else {
        return false;
    };
    let same = ground.same_root(buffer, ground.root_of(aliases, a));
    let written = ground.has_write_of(callee, p.binder.id, q.binder.id);
    let whole = is_whole(p) || is_whole(q);
    (same && (written && whole)) || is_shared(ground, aliases, callee, p, buffer, params, args)
}

/// Whether no later argument is shared with one before it.
fn share_nothing_written(
    ground: &Surroundings,
    aliases: &[Alias],
    callee: ProcId,
    params: &[Param],
    args: &[Arg],
) -> bool
    ensures { result ≡ units.share_nothing_written (ground_kinds ground.now)
        (writes_seen ground.now callee.0) (roots_in aliases.now) (map parameter params.now)
        (map argument args.now) }
{
    let [p, params @ ..] = params else {
        return true;
    };
    let [a, args @ ..] = args else {
        return true;
    };
    let buffer = ground.root_of(aliases, a);
    !is_shared(ground, aliases, callee, p, buffer, params, args)
        && share_nothing_written(ground, aliases, callee, params, args)
}

/// Whether a call of a procedure of the unit with these parameters gives no two of them parts of
/// one buffer, of which it writes one and one is a tensor with dimensions. The table says what each
/// procedure of the unit touches, and the aliases which buffer a name is a part of.
pub fn gives_apart(
    unit: &Unit,
    modes: &ModeTable,
    aliases: &[Alias],
    callee: ProcId,
    params: &Params,
    args: &Args,
) -> bool
    ensures { result ≡ units.share_nothing_written (units.field_kind (program unit.now).fields)
        (writing (modes_at (table_says modes.now) callee.0)) (roots_in aliases.now) params.now
        args.now }
{
    let ground = Surroundings { unit, modes };
    share_nothing_written(&ground, aliases, callee, params.as_slice(), args.as_slice())
}

/// What is found in a call of a procedure with these parameters.
fn in_known_call(
    ground: &Surroundings,
    names: &ScopeNames,
    aliases: &[Alias],
    callee: ProcId,
    params: &Params,
    args: &Args,
) -> Findings
    ensures { result ≡ both
        (found.findings_of_arguments (kinds_seen names.now) (scope_seen names.now) params.now
        args.now)
        (rule (units.share_nothing_written (ground_kinds ground.now)
        (writes_seen ground.now callee.0) (roots_in aliases.now) params.now args.now)) }
{
    let params = params.as_slice();
    let args = args.as_slice();
    let apart = share_nothing_written(ground, aliases, callee, params, args);
    in_arguments(names, params, args).and(Findings::rule(apart))
}

/// What is found in a call.
pub(crate) fn in_call(
    ground: &Surroundings,
    names: &ScopeNames,
    aliases: &[Alias],
    callee: ProcId,
    args: &Args,
) -> Findings
    requires table { IsGround ground.now }
    requires fields { names.now.fields.now ≡ ground.now.unit.now.fields }
    ensures { result ≡ found.findings_of_call (ground_kinds ground.now) (scope_seen names.now)
        (roots_in aliases.now) (ground_callees ground.now callee.0) args.now }
{
    match ground.unit.procs.get(callee.0 as usize) {
        Some(p) => in_known_call(ground, names, aliases, callee, &p.params, args),
        None => Findings::rule(false),
    }
}
