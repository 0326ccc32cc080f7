//! What stands for arguments, and for lists of expressions.
ghost use Rattle.std.specs.Prelude.{◌≡◌, IfOk};
ghost use Rattle.exo_tree.specs.PlainArgument.{argument};
ghost use Rattle.tree_uses.specs.Outcomes.{ComesIf};
ghost use Rattle.tree_uses.specs.Uses as plain;
ghost use Rattle.tree_uses.specs.Uses.{controls_fit, argument_fits, arguments_fit};

use crate::conditions::used_condition;
use crate::uses::Uses;
use affine_forms::FormError;
use exo_tree::{Arg, Args, Indices};
use std::alloc::Global;

/// What stands for each expression of a list.
pub fn used_controls<U: Uses>(alloc: Global, uses: &U, es: &Indices) -> Result<Indices, FormError>
    ensures value { IfOk result (λ l. l ≡ plain.used_controls (U.uses uses.now) es.now) }
    ensures fits { ComesIf result (controls_fit (U.uses uses.now) es.now) }
{
    let mut made = Indices::new(alloc);
    for item in es.as_slice() {
        made.push(uses.control(alloc, item)?)?;
    }
    Ok(made)
}

/// What stands for an argument, or for the right side of a configuration write.
pub fn used_argument<U: Uses>(alloc: Global, uses: &U, a: &Arg) -> Result<Arg, FormError>
    ensures value { IfOk result (λ b. argument b
        ≡ plain.used_argument (U.uses uses.now) (argument a.now)) }
    ensures fits { ComesIf result (argument_fits (U.uses uses.now) (argument a.now)) }
{
    match a {
        Arg::Ctrl(e) => Ok(Arg::Ctrl(uses.control(alloc, e)?)),
        Arg::Cond(c) => Ok(Arg::Cond(used_condition(alloc, uses, c)?)),
        Arg::Whole(x) => {
            let whole = uses.whole(alloc, *x)?;
            Ok(whole)
        }
        Arg::Window(x, at) => {
            let coords = uses.coords(alloc, *x, at)?;
            Ok(Arg::Window(uses.name(*x), coords))
        }
    }
}

/// What stands for each argument.
pub(crate) fn used_arguments<U: Uses>(
    alloc: Global,
    uses: &U,
    args: &Args,
) -> Result<Args, FormError>
    ensures value { IfOk result (λ l. l ≡ plain.used_arguments (U.uses uses.now) args.now) }
    ensures fits { ComesIf result (arguments_fit (U.uses uses.now) args.now) }
{
    let mut made = Args::new(alloc);
    for item in args.as_slice() {
        made.push(used_argument(alloc, uses, item)?)?;
    }
    Ok(made)
}
