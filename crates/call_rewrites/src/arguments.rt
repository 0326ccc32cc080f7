//! Arguments in the place of parameters.
ghost use Rattle.std.specs.Prelude.{◌≡◌, map, option_map, Some, IfOk};
ghost use Rattle.std.specs.Option.{option_copied};
ghost use Rattle.exo_tree.specs.PlainArgument.{argument};
ghost use Rattle.exo_tree.specs.PlainControl.{control, condition};
ghost use Rattle.exo_tree.specs.PlainParam.{parameter, parameter_kind};
ghost use Rattle.call_rewrites.specs.Numbered.{number_of};
ghost use Rattle.call_rewrites.specs.PlainIds.{numbered};
ghost use Rattle.call_rewrites.specs.PlainSought.{plain_sought};
ghost use Rattle.call_rewrites.specs.Sought as plain;

use crate::ids::NewIds;
use exo_tree::{Arg, Args, Cond, Ctrl, Id, Param, ParamKind, Params};
use std::alloc::{AllocError, Global};
use tree_uses::{Given, Puts};

/// For what a name stands.
#[derive(Clone, Copy)]
pub(crate) enum Sought {
    Number,
    Truth,
    Buffer,
}

/// Whether an argument may stand for a parameter of a kind as what is sought.
fn takes(what: Sought, kind: &ParamKind, a: &Arg) -> bool
    ensures { result ≡ plain.takes (plain_sought what) (parameter_kind kind.now) (argument a.now) }
{
    match what {
        Sought::Number => matches!(kind, ParamKind::Ctrl(_)) && matches!(a, Arg::Ctrl(_)),
        Sought::Truth => matches!(kind, ParamKind::Ctrl(_)) && matches!(a, Arg::Cond(_)),
        Sought::Buffer => !matches!(kind, ParamKind::Ctrl(_)),
    }
}

/// The argument of the first such parameter whose new id is `y`.
fn argument_for<'a>(
    what: Sought,
    ids: &NewIds,
    params: &[Param],
    args: &'a [Arg],
    y: Id,
) -> Option<&'a Arg>
    ensures { option_map argument (option_copied result)
        ≡ plain.argument_for (plain_sought what) (number_of (numbered ids.now))
        (map parameter params.now) (map argument args.now) y.0 }
{
    let (p, params) = params.split_first()?;
    let (a, args) = args.split_first()?;
    if takes(what, &p.kind, a) && y.0 == ids.id(p.binder.id).0 {
        return Some(a);
    }
    argument_for(what, ids, params, args, y)
}

/// The expression that an argument is; the variable `y` where it is none.
fn number_in(alloc: Global, y: Id, a: &Arg) -> Result<Ctrl, AllocError>
    ensures { IfOk result (λ e. control e ≡ plain.number_or y.0 (Some (argument a.now))) }
{
    match a {
        Arg::Ctrl(e) => e.duplicate(alloc),
        Arg::Cond(_) => Ok(Ctrl::Var(y)),
        Arg::Whole(_) => Ok(Ctrl::Var(y)),
        Arg::Window(_, _) => Ok(Ctrl::Var(y)),
    }
}

/// The condition that an argument is; the variable `y` where it is none.
fn truth_in(alloc: Global, y: Id, a: &Arg) -> Result<Cond, AllocError>
    ensures { IfOk result (λ c. condition c ≡ plain.truth_or y.0 (Some (argument a.now))) }
{
    match a {
        Arg::Cond(c) => c.duplicate(alloc),
        Arg::Ctrl(_) => Ok(Cond::Var(y)),
        Arg::Whole(_) => Ok(Cond::Var(y)),
        Arg::Window(_, _) => Ok(Cond::Var(y)),
    }
}

/// The arguments of a call in the place of the callee's parameters, and new ids for all that it
/// binds.
#[derive(Drop)]
pub(crate) struct Arguments<'a> {
    pub(crate) ids: NewIds,
    pub(crate) params: &'a Params,
    pub(crate) args: &'a Args,
}

impl Arguments<'_> {
    /// The argument of a parameter, by its new id.
    fn of(&self, what: Sought, y: Id) -> Option<&Arg>
        ensures { option_map argument (option_copied result)
            ≡ plain.argument_for (plain_sought what) (number_of (numbered self.now.ids))
            self.now.params.now self.now.args.now y.0 }
    {
        argument_for(
            what,
            &self.ids,
            self.params.as_slice(),
            self.args.as_slice(),
            y,
        )
    }
}

impl Puts for Arguments<'_> {
    ghost use Rattle.call_rewrites.specs.Drafts.{put_for};
    ghost use Rattle.call_rewrites.specs.Numbered.{number_of};
    ghost use Rattle.call_rewrites.specs.PlainIds.{numbered};

    ghost put = { λ o. put_for (number_of (numbered o.ids)) o.params.now o.args.now };

    ghost to = { λ o. number_of (numbered o.ids) };

    #[tactic(auto, using(crate::proofs::Given::no_number, crate::proofs::Given::some_number))]
    fn variable(&self, alloc: Global, x: Id) -> Result<Ctrl, AllocError> {
        let y = self.ids.id(x);
        match self.of(Sought::Number, y) {
            None => Ok(Ctrl::Var(y)),
            Some(a) => number_in(alloc, y, a),
        }
    }

    #[tactic(auto, using(crate::proofs::Given::no_truth, crate::proofs::Given::some_truth))]
    fn flag(&self, alloc: Global, x: Id) -> Result<Cond, AllocError> {
        let y = self.ids.id(x);
        match self.of(Sought::Truth, y) {
            None => Ok(Cond::Var(y)),
            Some(a) => truth_in(alloc, y, a),
        }
    }

    #[tactic(auto, using(crate::proofs::Given::no_buffer, crate::proofs::Given::some_buffer))]
    fn name(&self, x: Id) -> Given<'_> {
        let y = self.ids.id(x);
        match self.of(Sought::Buffer, y) {
            Some(a) => Given::Argument(a),
            None => Given::Name(y),
        }
    }

    fn bound(&self, x: Id) -> Id {
        self.ids.id(x)
    }
}
