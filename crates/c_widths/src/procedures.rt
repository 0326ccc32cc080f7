//! Whether the control expressions of a procedure fit, and what its calls give.
ghost use Rattle.std.specs.Prelude.{◌≡◌, true, map, get_or, IfOk};
ghost use Rattle.exo_tree.specs.PlainParam.{parameter, parameter_kind};
ghost use Rattle.exo_tree.specs.PlainProcedure.{procedure};
ghost use Rattle.exo_tree.specs.PlainBinder.{control_kind};
ghost use Rattle.c_widths.specs.Widths.{most_of_kind, most_of_param, has_narrow_dims, have_narrow_dims};
ghost use Rattle.c_widths.specs.Raises.{most_from, raised, is_narrow_by};
ghost use Rattle.c_widths.specs.Given.{given_in, IsChanged};
ghost use Rattle.c_widths.specs.Bounds.{most_in};

use crate::expressions::{are_narrow, are_narrow_tests};
use crate::given::Given;
use crate::magnitudes::{Bound, FIELD_LIMIT};
use crate::statements::fits_block;
use exo_tree::{Kind, Memories, Param, ParamKind, Params, Proc};
use std::alloc::{AllocError, Global};

/// The most that a valid input gives a control parameter.
fn most_of_kind(kind: Kind) -> u64
    ensures { result ≡ most_of_kind (control_kind kind) }
{
    match kind {
        Kind::Size | Kind::Index | Kind::Bool => 2147483647,
        Kind::Stride => FIELD_LIMIT,
    }
}

/// The most that a valid input gives a parameter: 0 for a buffer.
fn most_of_param(kind: &ParamKind) -> u64
    ensures { result ≡ most_of_param (parameter_kind kind.now) }
{
    match kind {
        ParamKind::Ctrl(kind) => most_of_kind(*kind),
        ParamKind::Tensor(_, _, _) | ParamKind::Window(_, _, _) => 0,
    }
}

/// The most that is given at that place.
fn given_at(given: &[u64], i: usize) -> u64
    ensures { result ≡ get_or given.now i 0 }
{
    match given.get(i) {
        Some(most) => *most,
        None => 0,
    }
}

/// The bounds of parameters, by what calls give them.
fn bounds_of(alloc: Global, params: &[Param], given: &[u64]) -> Result<Vec<Bound>, AllocError>
    ensures { IfOk result (λ v. most_in v.items ≡ most_from (map parameter params.now) (λ i. get_or given.now i 0)) }
{
    let mut bounds = Vec::new(alloc);
    for (i, p) in params.iter().enumerate() {
        bounds.push(Bound {
            id: p.binder.id,
            most: most_of_param(&p.kind).max(given_at(given, i)),
        })?;
    }
    Ok(bounds)
}

/// Whether the dimensions of a parameter fit.
fn has_narrow_dims(bounds: &[Bound], kind: &ParamKind) -> bool
    ensures { result ≡ has_narrow_dims (most_in bounds.now) (parameter_kind kind.now) }
{
    match kind {
        ParamKind::Ctrl(_) => true,
        ParamKind::Tensor(_, dims, _) | ParamKind::Window(_, dims, _) => are_narrow(bounds, dims),
    }
}

/// Whether the dimensions of all parameters fit.
fn have_narrow_dims(bounds: &[Bound], params: &Params) -> bool
    ensures { result ≡ have_narrow_dims (most_in bounds.now) params.now }
{
    for p in params.as_slice() {
        if !has_narrow_dims(bounds, &p.kind) {
            return false;
        }
    }
    true
}

/// Whether the expressions of the procedure of that number fit, by what calls give it. Then what its own calls give is noted.
pub(crate) fn fits_procedure(
    alloc: Global,
    memories: &Memories,
    k: usize,
    p: &Proc,
    given: &mut Given,
) -> Result<bool, AllocError>
    ensures narrow { IfOk result (λ t. t ≡ is_narrow_by memories.now (most_from p.now.params (given_in given.old k)) (procedure p.now)) }
    ensures given { IfOk result
        (λ t. t ≡ true
        → IsChanged (raised (most_from p.now.params (given_in given.old k))
        (procedure p.now).body) given.old given.new) }
{
    let bounds = bounds_of(alloc, p.params.as_slice(), given.to(k))?;
    if !have_narrow_dims(&bounds, &p.params) || !are_narrow_tests(&bounds, &p.asserts) {
        return Ok(false);
    }
    fits_block(alloc, memories, &bounds, &p.body, given)
}
