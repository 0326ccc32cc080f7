//! Claims of calls.
ghost use Rattle.std.specs.Prelude.{◌≡◌, ◌+◌, ◌<◌, ◌^◌, [], ◌∷◌, ◌++◌, IsTrue, drop, length, map};
ghost use Rattle.std.specs.Prelude.{flat_map, if◌then◌else◌, OnOk, slice_get, Some, option_map};
ghost use Rattle.exo_tree.specs.Tree as tree;
ghost use Rattle.exo_tree.specs.PlainBinder.{control_kind};
ghost use Rattle.exo_tree.specs.PlainControl.{control, condition};
ghost use Rattle.exo_tree.specs.PlainParam.{parameter};
ghost use Rattle.exo_tree.specs.PlainArgument.{argument};
ghost use Rattle.exo_tree.specs.PlainProcedure.{procedure};
ghost use Rattle.exo_tree.specs.PlainUnit.{program};
ghost use Rattle.affine_places.specs.Seen.{roots_in};
ghost use Rattle.text_show.specs.Seen.{words_in};
ghost use Rattle.check_claims.specs.Claim as plain;
ghost use Rattle.check_claims.specs.Pairs.{flat_zip};
ghost use Rattle.check_claims.specs.Arguments.{control_under};
ghost use Rattle.check_claims.specs.Claims.{as_shown, argument_window, given_claims, argument_size};
ghost use Rattle.check_claims.specs.Claims.{equal_extents, passed_extents, passed_root, written_by};
ghost use Rattle.check_claims.specs.Claims.{share_root, must_be_apart, pairs_with, pair_claims};
ghost use Rattle.check_claims.specs.Claims.{asserted, call_claims};
ghost use Rattle.check_claims.specs.Seen.{extents_in};
ghost use Rattle.check_claims.specs.Short.{has_few_params};

use crate::arguments::{Passed, condition_under, control_under};
use crate::bounds::{ClaimSite, put_window};
use crate::extents::{dims_of, span_extents};
use crate::list::Claims;
use affine_places::Roots;
use exo_tree::{Arg, Args, Cond, Ctrl, Id, Kind, Param, ParamKind, Proc, ProcId};
use std::alloc::{AllocError, Global};
use text_show::Words;

/// The claims of an argument's window.
fn put_argument_window(
    alloc: Global,
    out: &mut Claims,
    site: &ClaimSite,
    a: &Arg,
) -> Result<(), AllocError>
    ensures { OnOk result
        (out.new
        ≡ out.old
        ++ argument_window (words_in site.now.words.now) (extents_in site.now.extents.now)
        (argument a.now)) }
{
    match a {
        Arg::Ctrl(_) => Ok(()),
        Arg::Cond(_) => Ok(()),
        Arg::Whole(_) => Ok(()),
        Arg::Window(x, coords) => put_window(
            alloc,
            out,
            site.words,
            coords.as_slice(),
            site.extents.get(*x),
        ),
    }
}

/// The claims of the windows of all arguments.
fn put_argument_windows(
    alloc: Global,
    out: &mut Claims,
    site: &ClaimSite,
    args: &[Arg],
) -> Result<(), AllocError>
    ensures { OnOk result
        (out.new
        ≡ out.old
        ++ flat_map (argument_window (words_in site.now.words.now)
        (extents_in site.now.extents.now))
        (map argument args.now)) }
{
    for a in args {
        put_argument_window(alloc, out, site, a)?;
    }
    Ok(())
}

/// The claim of what is given for a control value of that kind: `1 <= e` for a size.
pub(crate) fn put_given(
    alloc: Global,
    out: &mut Claims,
    words: &Words,
    kind: Kind,
    a: &Arg,
) -> Result<(), AllocError>
    ensures { OnOk result (out.new ≡ out.old ++ given_claims (words_in words.now) (control_kind kind) (argument a.now)) }
{
    match (kind, a) {
        (Kind::Size, Arg::Ctrl(e)) => out.push_at_least(alloc, words, 1, e),
        _ => Ok(()),
    }
}

/// The claim of the argument of a parameter of kind size.
fn put_argument_size(
    alloc: Global,
    out: &mut Claims,
    words: &Words,
    p: &Param,
    a: &Arg,
) -> Result<(), AllocError>
    ensures { OnOk result (out.new ≡ out.old ++ argument_size (words_in words.now) (parameter p.now) (argument a.now)) }
{
    match &p.kind {
        ParamKind::Ctrl(kind) => put_given(alloc, out, words, *kind, a),
        ParamKind::Tensor(_, _, _) => Ok(()),
        ParamKind::Window(_, _, _) => Ok(()),
    }
}

/// The claims of the arguments of all parameters of kind size.
fn put_argument_sizes(
    alloc: Global,
    out: &mut Claims,
    words: &Words,
    params: &[Param],
    args: &[Arg],
) -> Result<(), AllocError>
    ensures { OnOk result
        (out.new
        ≡ out.old
        ++ flat_zip (argument_size (words_in words.now)) (map parameter params.now)
        (map argument args.now)) }
{
    for k in 0..params.len().min(args.len()) {
        put_argument_size(alloc, out, words, &params[k], &args[k])?;
    }
    Ok(())
}

/// The claim that an extent of what is passed is a dimension of the callee's parameter under the arguments.
fn put_equal(
    alloc: Global,
    out: &mut Claims,
    words: &Words,
    passed: &Passed,
    extent: &Ctrl,
    d: &Ctrl,
) -> Result<(), AllocError>
    ensures { OnOk result
        (out.new
        ≡ out.old
        ++ as_shown (words_in words.now)
        (tree.Eq (control extent.now)
        (control_under passed.now.params.now passed.now.args.now (control d.now))) ∷ []) }
{
    let left = extent.duplicate(alloc)?;
    let right = control_under(alloc, passed, d)?;
    out.push_shown(alloc, words, Cond::Eq(left, right))
}

/// The claims that extents of what is passed are the dimensions of the callee's parameter under the arguments.
fn put_equals(
    alloc: Global,
    out: &mut Claims,
    words: &Words,
    passed: &Passed,
    extents: &[Ctrl],
    dims: &[Ctrl],
) -> Result<(), AllocError>
    ensures { OnOk result
        (out.new
        ≡ out.old
        ++ equal_extents (words_in words.now) (map control extents.now)
        (map (control_under passed.now.params.now passed.now.args.now) (map control dims.now))) }
{
    for k in 0..extents.len().min(dims.len()) {
        put_equal(alloc, out, words, passed, &extents[k], &dims[k])?;
    }
    Ok(())
}

/// The claims of the extents of an argument.
fn put_extents(
    alloc: Global,
    out: &mut Claims,
    site: &ClaimSite,
    passed: &Passed,
    p: &Param,
    a: &Arg,
) -> Result<(), AllocError>
    ensures { OnOk result
        (out.new
        ≡ out.old
        ++ passed_extents (words_in site.now.words.now)
        (extents_in site.now.extents.now) passed.now.params.now passed.now.args.now
        (parameter p.now) (argument a.now)) }
{
    let dims = dims_of(&p.kind);
    match a {
        Arg::Ctrl(_) => Ok(()),
        Arg::Cond(_) => Ok(()),
        Arg::Whole(x) => put_equals(alloc, out, site.words, passed, site.extents.get(*x), dims),
        Arg::Window(_, coords) => {
            let extents = span_extents(alloc, coords.as_slice())?;
            put_equals(alloc, out, site.words, passed, extents.as_slice(), dims)
        }
    }
}

/// The claims of the extents of all arguments.
fn put_argument_extents(
    alloc: Global,
    out: &mut Claims,
    site: &ClaimSite,
    passed: &Passed,
    params: &[Param],
    args: &[Arg],
) -> Result<(), AllocError>
    ensures { OnOk result
        (out.new
        ≡ out.old
        ++ flat_zip (passed_extents (words_in site.now.words.now)
        (extents_in site.now.extents.now) passed.now.params.now passed.now.args.now)
        (map parameter params.now) (map argument args.now)) }
{
    for k in 0..params.len().min(args.len()) {
        put_extents(alloc, out, site, passed, &params[k], &args[k])?;
    }
    Ok(())
}

/// The buffer of which an argument is a part.
fn passed_root(roots: &Roots<'_>, a: &Arg) -> Option<Id>
    ensures { option_map (λ (x : Id). x.0) result ≡ passed_root (roots_in roots.now) (argument a.now) }
{
    match a {
        Arg::Ctrl(_) => None,
        Arg::Cond(_) => None,
        Arg::Whole(x) => roots.root(*x),
        Arg::Window(x, _) => roots.root(*x),
    }
}

/// A parameter of a callee, by its number, with what is passed for it.
#[derive(Drop)]
struct Slot<'a> {
    number: u32,
    param: &'a Param,
    arg: &'a Arg,
}

/// Whether parts of one buffer are passed for two parameters.
fn share_root(site: &ClaimSite, callee: ProcId, first: &Slot, second: &Slot) -> bool
    ensures { result
        ≡ share_root (roots_in site.now.roots.now) (written_by (program site.now.unit.now) callee.0)
        (argument first.now.arg.now) (argument second.now.arg.now) }
{
    match (
        passed_root(site.roots, first.arg),
        passed_root(site.roots, second.arg),
    ) {
        (Some(x), Some(y)) => x.0 == y.0,
        _ => false,
    }
}

/// Whether a callee writes or reduces a parameter.
fn is_written(site: &ClaimSite, callee: ProcId, p: &Param) -> bool
    ensures { result ≡ written_by (program site.now.unit.now) callee.0 (parameter p.now).binder.id }
{
    let modes = site.modes.get(callee, p.binder.id);
    modes.write || modes.reduce
}

/// The claim that what is passed for two parameters has no cell in common: where these are parts of one buffer, and the callee
/// writes or reduces one of the two.
fn put_pair(
    out: &mut Claims,
    site: &ClaimSite,
    callee: ProcId,
    first: &Slot,
    second: &Slot,
) -> Result<(), AllocError>
    ensures { OnOk result
        (out.new
        ≡ out.old
        ++ (if must_be_apart (roots_in site.now.roots.now)
        (written_by (program site.now.unit.now) callee.0) (parameter first.now.param.now)
        (argument first.now.arg.now) (parameter second.now.param.now) (argument second.now.arg.now)
        then plain.Apart first.now.number second.now.number ∷ []
        else [])) }
{
    if share_root(site, callee, first, second)
        && (is_written(site, callee, first.param) || is_written(site, callee, second.param))
    {
        return out.push_apart(first.number, second.number);
    }
    Ok(())
}

/// The claims of a parameter with each later one.
fn put_pairs_with(
    out: &mut Claims,
    site: &ClaimSite,
    callee: ProcId,
    first: &Slot,
    params: &[Param],
    args: &[Arg],
) -> Result<(), AllocError>
    requires { length params.now < 2 ^ 32 }
    ensures { OnOk result
        (out.new
        ≡ out.old
        ++ pairs_with (roots_in site.now.roots.now)
        (written_by (program site.now.unit.now) callee.0) first.now.number
        (parameter first.now.param.now) (argument first.now.arg.now) (first.now.number + 1)
        (map parameter (drop (first.now.number + 1) params.now))
        (map argument (drop (first.now.number + 1) args.now))) }
{
    for k in first.number as usize + 1..params.len().min(args.len()) {
        let second = Slot {
            number: k as u32,
            param: &params[k],
            arg: &args[k],
        };
        put_pair(out, site, callee, first, &second)?;
    }
    Ok(())
}

/// The claims of all pairs of parameters.
fn put_pairs(
    out: &mut Claims,
    site: &ClaimSite,
    callee: ProcId,
    params: &[Param],
    args: &[Arg],
) -> Result<(), AllocError>
    requires { length params.now < 2 ^ 32 }
    ensures { OnOk result
        (out.new
        ≡ out.old
        ++ pair_claims (roots_in site.now.roots.now)
        (written_by (program site.now.unit.now) callee.0) 0 (map parameter params.now)
        (map argument args.now)) }
{
    for j in 0..params.len().min(args.len()) {
        let first = Slot {
            number: j as u32,
            param: &params[j],
            arg: &args[j],
        };
        put_pairs_with(out, site, callee, &first, params, args)?;
    }
    Ok(())
}

/// The callee's assertions under the arguments, with their texts in the callee's words.
fn put_asserted(
    alloc: Global,
    out: &mut Claims,
    callee: &Words,
    passed: &Passed,
    asserts: &[Cond],
) -> Result<(), AllocError>
    ensures { OnOk result
        (out.new
        ≡ out.old
        ++ map (asserted (words_in callee.now) passed.now.params.now passed.now.args.now)
        (map condition asserts.now)) }
{
    for c in asserts {
        let says = condition_under(alloc, passed, c)?;
        out.push_quoted(alloc, says, callee, c)?;
    }
    Ok(())
}

/// The claims of a call of that procedure.
fn put_call_of<'a>(
    alloc: Global,
    out: &mut Claims,
    site: &ClaimSite<'_, 'a, '_>,
    k: ProcId,
    q: &'a Proc,
    args: &Args,
) -> Result<(), AllocError>
    requires { IsTrue (has_few_params (procedure q.now)) }
    ensures { OnOk result
        (out.new
        ≡ out.old
        ++ call_claims (words_in site.now.words.now) (program site.now.unit.now)
        (extents_in site.now.extents.now) (roots_in site.now.roots.now)
        (written_by (program site.now.unit.now) k.0) (Some (procedure q.now)) args.now) }
{
    let passed = Passed {
        params: &q.params,
        args,
    };
    let (params, given) = (q.params.as_slice(), args.as_slice());
    put_argument_windows(alloc, out, site, given)?;
    put_argument_sizes(alloc, out, site.words, params, given)?;
    put_argument_extents(alloc, out, site, &passed, params, given)?;
    put_pairs(out, site, k, params, given)?;
    let callee = Words::new(alloc, site.unit, q)?;
    put_asserted(alloc, out, &callee, &passed, q.asserts.as_slice())
}

/// The claims of a call; none where there is no procedure of that number.
pub(crate) fn put_call(
    alloc: Global,
    out: &mut Claims,
    site: &ClaimSite,
    k: ProcId,
    args: &Args,
) -> Result<(), AllocError>
    ensures { OnOk result
        (out.new
        ≡ out.old
        ++ call_claims (words_in site.now.words.now) (program site.now.unit.now)
        (extents_in site.now.extents.now) (roots_in site.now.roots.now)
        (written_by (program site.now.unit.now) k.0)
        (slice_get (program site.now.unit.now).procedures k.0) args.now) }
{
    match site.unit.procs.get(k.0 as usize) {
        None => Ok(()),
        Some(q) => put_call_of(alloc, out, site, k, q, args),
    }
}
