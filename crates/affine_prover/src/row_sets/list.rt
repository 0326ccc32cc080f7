//! Lists of coefficients.
ghost use Rattle.std.specs.Prelude.{◌≡◌, Some, None, if◌then◌else◌, map, pos, ◌<ℤ◌, length, IfOk};
ghost use Rattle.std.specs.Prelude.{unsigned_abs, ◌≤◌, ◌^◌, OnSome, neg_ℤ, IsTrue, slice_index_or};
ghost use Rattle.affine_prover.specs.RowSets.Shapes.{AreNarrow};
ghost use Rattle.std.specs.Int.{int_div_euclid};
ghost use Rattle.std.specs.Option.{option_map};
ghost use Rattle.affine_forms.specs.Bounds.{is_narrow};
ghost use Rattle.affine_prover.specs.RowSets.Rows.{gcd_of, weighed_lists, are_narrow_weighed};

use crate::row_sets::number::{added, floored, gcd, weighed};
use std::alloc::{AllocError, Global};

/// The greatest common divisor of the coefficients, 0 where all are 0.
pub fn gcd_of(cs: &[i128]) -> u128
    ensures { result ≡ gcd_of cs.now }
{
    let mut g = 0;
    for c in cs {
        g = gcd(c.unsigned_abs(), g);
        if g == 1 {
            return 1;
        }
    }
    g
}

/// Each coefficient divided by `g`, rounded down.
pub fn divide_all(cs: &mut [i128], g: i128)
    requires { pos 1 <ℤ g }
    ensures { cs.new ≡ map (λ c. int_div_euclid c g) cs.old }
{
    for c in cs.iter_mut() {
        *c = floored(*c, g);
    }
}

/// The number at a place, 0 behind the end.
pub fn number_at(xs: &[i128], v: usize) -> i128
    ensures { result ≡ slice_index_or xs.now v (pos 0) }
{
    if v < xs.len() { xs[v] } else { 0 }
}

/// `f` times one list plus `g` times another, where each number on the way is at most 2^100 in size.
pub fn weighed_lists(
    alloc: Global,
    f: i128,
    xs: &[i128],
    g: i128,
    ys: &[i128],
) -> Result<Option<Vec<i128>>, AllocError>
    requires { length xs.now ≡ length ys.now }
    ensures { IfOk result
        (λ r. option_map (λ v. v.items) r
        ≡ (if are_narrow_weighed f xs.now g ys.now
        then Some (weighed_lists f xs.now g ys.now)
        else None)) }
{
    let mut out = Vec::with_capacity(alloc, xs.len())?;
    for i in 0..xs.len() {
        match weighed(f, xs[i], g, ys[i]) {
            Some(z) => out.push(z)?,
            None => return Ok(None),
        }
    }
    Ok(Some(out))
}

/// Adds `g` times one list to another in place, and says whether each number on the way is at most 2^100 in size.
pub fn add_times(xs: &mut [i128], g: i128, ys: &[i128]) -> bool
    requires same { length xs.old ≡ length ys.now }
    requires narrow { AreNarrow xs.old }
    ensures narrow { result ≡ are_narrow_weighed (pos 1) xs.old g ys.now }
    ensures sum { IsTrue result → xs.new ≡ weighed_lists (pos 1) xs.old g ys.now }
{
    for i in 0..xs.len() {
        match added(xs[i], g, ys[i]) {
            Some(z) => xs[i] = z,
            None => return false,
        }
    }
    true
}

/// The opposite numbers.
pub fn negated_list(alloc: Global, xs: &[i128]) -> Result<Vec<i128>, AllocError>
    requires { AreNarrow xs.now }
    ensures { IfOk result (λ v. v.items ≡ map neg_ℤ xs.now) }
{
    let mut out = Vec::with_capacity(alloc, xs.len())?;
    for x in xs {
        out.push(-*x)?;
    }
    Ok(out)
}
