//! Expressions of a callee under the arguments of a call.
ghost use Rattle.std.specs.Prelude.{◌≡◌, ◌≤◌, length, map, IfOk, option_map};
ghost use Rattle.std.specs.Option.{option_copied};
ghost use Rattle.exo_tree.specs.PlainControl.{control, condition, coordinate};
ghost use Rattle.exo_tree.specs.PlainParam.{parameter};
ghost use Rattle.exo_tree.specs.PlainArgument.{argument};
ghost use Rattle.check_claims.specs.Arguments.{passed_for, number_for, truth_for, span_place};
ghost use Rattle.check_claims.specs.Arguments.{window_stride, stride_for, control_under};
ghost use Rattle.check_claims.specs.Arguments.{condition_under};

use affine_places::is_span;
use exo_tree::{Arg, Args, Cond, Coord, Ctrl, Id, Param, Params};
use std::alloc::{AllocError, Global};

/// The parameters of a callee, and what a call passes for them.
#[derive(Clone, Copy)]
pub(crate) struct Passed<'a> {
    pub(crate) params: &'a Params,
    pub(crate) args: &'a Args,
}

/// What is passed for a parameter; None where the id is that of no parameter.
fn argument_for<'a>(params: &[Param], args: &'a [Arg], x: Id) -> Option<&'a Arg>
    ensures { option_map argument (option_copied result) ≡ passed_for (map parameter params.now) (map argument args.now) x.0 }
{
    for k in 0..params.len().min(args.len()) {
        if params[k].binder.id.0 == x.0 {
            return Some(&args[k]);
        }
    }
    None
}

/// The number of the coordinate that is the span of that number; that of coordinates where there are not so many spans.
fn span_place(coords: &[Coord], k: u32) -> u32
    requires { length coords.now ≤ 8 }
    ensures { result ≡ span_place k (map coordinate coords.now) }
{
    let mut place = 0;
    let mut left = k;
    for c in coords {
        if is_span(c) {
            if left == 0 {
                return place;
            }
            left -= 1;
        }
        place += 1;
    }
    place
}

/// The stride of a window's dimension.
fn window_stride(y: Id, coords: &[Coord], k: u32) -> Ctrl
    ensures { control result ≡ window_stride y.0 k (map coordinate coords.now) }
{
    let rank = coords.len().min(8);
    Ctrl::Stride(y, span_place(&coords[..rank], k))
}

impl<'a> Passed<'a> {
    fn get(&self, x: Id) -> Option<&'a Arg>
        ensures { option_map argument (option_copied result) ≡ passed_for self.now.params.now self.now.args.now x.0 }
    {
        argument_for(self.params.as_slice(), self.args.as_slice(), x)
    }

    /// What stands for a control value of the callee.
    fn number(&self, alloc: Global, x: Id) -> Result<Ctrl, AllocError>
        ensures { IfOk result (λ e. control e ≡ number_for x.0 (passed_for self.now.params.now self.now.args.now x.0)) }
    {
        match self.get(x) {
            None => Ok(Ctrl::Var(x)),
            Some(Arg::Ctrl(a)) => a.duplicate(alloc),
            Some(Arg::Cond(_)) => Ok(Ctrl::Var(x)),
            Some(Arg::Whole(_)) => Ok(Ctrl::Var(x)),
            Some(Arg::Window(_, _)) => Ok(Ctrl::Var(x)),
        }
    }

    /// What stands for a bool of the callee.
    fn flag(&self, alloc: Global, x: Id) -> Result<Cond, AllocError>
        ensures { IfOk result (λ c. condition c ≡ truth_for x.0 (passed_for self.now.params.now self.now.args.now x.0)) }
    {
        match self.get(x) {
            None => Ok(Cond::Var(x)),
            Some(Arg::Ctrl(_)) => Ok(Cond::Var(x)),
            Some(Arg::Cond(c)) => c.duplicate(alloc),
            Some(Arg::Whole(_)) => Ok(Cond::Var(x)),
            Some(Arg::Window(_, _)) => Ok(Cond::Var(x)),
        }
    }

    /// What stands for the stride of a dimension of the callee's parameter.
    fn stride(&self, x: Id, k: u32) -> Ctrl
        ensures { control result ≡ stride_for x.0 k (passed_for self.now.params.now self.now.args.now x.0) }
    {
        match self.get(x) {
            None => Ctrl::Stride(x, k),
            Some(Arg::Ctrl(_)) => Ctrl::Stride(x, k),
            Some(Arg::Cond(_)) => Ctrl::Stride(x, k),
            Some(Arg::Whole(y)) => Ctrl::Stride(*y, k),
            Some(Arg::Window(y, coords)) => window_stride(*y, coords.as_slice(), k),
        }
    }
}

/// An expression of the callee under the arguments.
#[cycle(under)]
pub(crate) fn control_under(alloc: Global, passed: &Passed, e: &Ctrl) -> Result<Ctrl, AllocError>
    ensures { IfOk result (λ c. control c ≡ control_under passed.now.params.now passed.now.args.now (control e.now)) }
{
    match e {
        Ctrl::Lit(n) => Ok(Ctrl::Lit(*n)),
        Ctrl::Var(x) => passed.number(alloc, *x),
        Ctrl::Field(f) => Ok(Ctrl::Field(*f)),
        Ctrl::Stride(x, k) => Ok(passed.stride(*x, *k)),
        Ctrl::Neg(a) => Ok(Ctrl::Neg(boxed_under(alloc, passed, a)?)),
        Ctrl::Add(a, b) => {
            let (left, right) = boxes_under(alloc, passed, a, b)?;
            Ok(Ctrl::Add(left, right))
        }
        Ctrl::Sub(a, b) => {
            let (left, right) = boxes_under(alloc, passed, a, b)?;
            Ok(Ctrl::Sub(left, right))
        }
        Ctrl::Mul(a, b) => {
            let (left, right) = boxes_under(alloc, passed, a, b)?;
            Ok(Ctrl::Mul(left, right))
        }
        Ctrl::Div(a, n) => Ok(Ctrl::Div(boxed_under(alloc, passed, a)?, *n)),
        Ctrl::Mod(a, n) => Ok(Ctrl::Mod(boxed_under(alloc, passed, a)?, *n)),
    }
}

/// The same in a box.
#[cycle(under)]
fn boxed_under(alloc: Global, passed: &Passed, e: &Ctrl) -> Result<Box<Ctrl>, AllocError>
    ensures { IfOk result (λ c. control c.value ≡ control_under passed.now.params.now passed.now.args.now (control e.now)) }
{
    Ok(Box::new(alloc, control_under(alloc, passed, e)?)?)
}

/// The same of two expressions.
#[cycle(under)]
fn boxes_under(
    alloc: Global,
    passed: &Passed,
    a: &Ctrl,
    b: &Ctrl,
) -> Result<(Box<Ctrl>, Box<Ctrl>), AllocError>
    ensures first { IfOk result (λ r. control r.0.value ≡ control_under passed.now.params.now passed.now.args.now (control a.now)) }
    ensures second { IfOk result (λ r. control r.1.value ≡ control_under passed.now.params.now passed.now.args.now (control b.now)) }
{
    let left = boxed_under(alloc, passed, a)?;
    Ok((left, boxed_under(alloc, passed, b)?))
}

/// The sides of a comparison of the callee under the arguments.
fn sides_under(
    alloc: Global,
    passed: &Passed,
    a: &Ctrl,
    b: &Ctrl,
) -> Result<(Ctrl, Ctrl), AllocError>
    ensures first { IfOk result (λ r. control r.0 ≡ control_under passed.now.params.now passed.now.args.now (control a.now)) }
    ensures second { IfOk result (λ r. control r.1 ≡ control_under passed.now.params.now passed.now.args.now (control b.now)) }
{
    let left = control_under(alloc, passed, a)?;
    Ok((left, control_under(alloc, passed, b)?))
}

/// A condition of the callee under the arguments.
#[cycle(condition_under)]
pub(crate) fn condition_under(alloc: Global, passed: &Passed, c: &Cond) -> Result<Cond, AllocError>
    ensures { IfOk result (λ d. condition d ≡ condition_under passed.now.params.now passed.now.args.now (condition c.now)) }
{
    match c {
        Cond::True => Ok(Cond::True),
        Cond::False => Ok(Cond::False),
        Cond::Var(x) => passed.flag(alloc, *x),
        Cond::Field(f) => Ok(Cond::Field(*f)),
        Cond::Lt(a, b) => {
            let (left, right) = sides_under(alloc, passed, a, b)?;
            Ok(Cond::Lt(left, right))
        }
        Cond::Le(a, b) => {
            let (left, right) = sides_under(alloc, passed, a, b)?;
            Ok(Cond::Le(left, right))
        }
        Cond::Gt(a, b) => {
            let (left, right) = sides_under(alloc, passed, a, b)?;
            Ok(Cond::Gt(left, right))
        }
        Cond::Ge(a, b) => {
            let (left, right) = sides_under(alloc, passed, a, b)?;
            Ok(Cond::Ge(left, right))
        }
        Cond::Eq(a, b) => {
            let (left, right) = sides_under(alloc, passed, a, b)?;
            Ok(Cond::Eq(left, right))
        }
        Cond::And(a, b) => {
            let (left, right) = halves_under(alloc, passed, a, b)?;
            Ok(Cond::And(left, right))
        }
        Cond::Or(a, b) => {
            let (left, right) = halves_under(alloc, passed, a, b)?;
            Ok(Cond::Or(left, right))
        }
    }
}

/// The same in a box.
#[cycle(condition_under)]
fn half_under(alloc: Global, passed: &Passed, c: &Cond) -> Result<Box<Cond>, AllocError>
    ensures { IfOk result (λ d. condition d.value ≡ condition_under passed.now.params.now passed.now.args.now (condition c.now)) }
{
    Ok(Box::new(alloc, condition_under(alloc, passed, c)?)?)
}

/// The same of two conditions.
#[cycle(condition_under)]
fn halves_under(
    alloc: Global,
    passed: &Passed,
    a: &Cond,
    b: &Cond,
) -> Result<(Box<Cond>, Box<Cond>), AllocError>
    ensures first { IfOk result (λ r. condition r.0.value ≡ condition_under passed.now.params.now passed.now.args.now (condition a.now)) }
    ensures second { IfOk result (λ r. condition r.1.value ≡ condition_under passed.now.params.now passed.now.args.now (condition b.now)) }
{
    let left = half_under(alloc, passed, a)?;
    Ok((left, half_under(alloc, passed, b)?))
}
