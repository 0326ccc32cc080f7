//! The argument of a call that a field may stand for.
ghost use Rattle.std.specs.Prelude.{◌≡◌, ℕ, IfSome, option_map};
ghost use Rattle.std.specs.Option.{option_copied};
ghost use Rattle.exo_tree.specs.PlainStatement.{statement};
ghost use Rattle.field_rewrites.specs.Binding.{named_in, control_at, bound_of};
ghost use Rattle.field_rewrites.specs.PlainBound.{plain_bound, IsBound, IsCallOf};

use crate::arguments::is_bindable;
use crate::calls::{CallAt, call_in};
use exo_tree::{Arg, Name, ParamKind, Params, Stmt};
use step_driver::Target;

/// An argument of a call that a field may stand for.
#[derive(Clone, Copy)]
pub(crate) struct BoundAt<'a> {
    pub(crate) call: CallAt<'a>,
    pub(crate) index: usize,
    pub(crate) value: &'a Arg,
}

/// The number of the first parameter of a name.
fn named_in(params: &Params, name: &Name) -> Option<usize>
    ensures { result ≡ named_in name.now params.now }
{
    for (k, p) in params.as_slice().iter().enumerate() {
        if p.binder.name.as_str().as_bytes() == name.as_str().as_bytes() {
            return Some(k);
        }
    }
    None
}

/// Whether the parameter of a number is a control one.
fn control_at(params: &Params, index: usize) -> bool
    ensures { result ≡ control_at params.now index }
{
    match params.get(index) {
        Some(p) => matches!(p.kind, ParamKind::Ctrl(_)),
        None => false,
    }
}

/// The argument of a call for a parameter of a name, where it is a control one and reads no field.
fn bound_in<'a>(call: CallAt<'a>, params: &Params, name: &Name) -> Option<BoundAt<'a>>
    ensures call { IfSome result (λ b. b.call ≡ call.entry) }
    ensures bound { (f : ℕ) →
        option_map (plain_bound f) result ≡ bound_of f name.now params.now call.entry.args.now }
{
    let index = named_in(params, name)?;
    if !control_at(params, index) {
        return None;
    }
    let value = call.args.as_slice().get(index)?;
    if !is_bindable(value) {
        return None;
    }
    Some(BoundAt { call, index, value })
}

/// The same where a statement is a call of a procedure of the unit.
#[tactic(auto, using(crate::proofs::FieldArguments::nothing_called, crate::proofs::FieldArguments::nobody_called, crate::proofs::FieldArguments::somebody_called, crate::proofs::FieldArguments::of_call))]
pub(crate) fn bound_at<'a>(on: &Target<'_>, s: Option<&'a Stmt>, name: &Name) -> Option<BoundAt<'a>>
    ensures call { IsCallOf (option_map statement (option_copied s.entry)) result }
    ensures bound { IsBound on.now name.now (option_map statement (option_copied s.entry)) result }
{
    let call = call_in(s)?;
    let callee = on.unit.procs.get(call.callee.0 as usize)?;
    bound_in(call, &callee.params, name)
}
