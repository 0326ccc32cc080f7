//! Numbers of at most 2^100 in size.
ghost use Rattle.std.specs.Prelude.{◌≡◌, Some, None, if◌then◌else◌, ◌+ℤ◌, ◌*ℤ◌, ◌<◌, ◌≤◌, ◌^◌, unsigned_abs, IsTrue, ◌/◌, pos, ◌<ℤ◌};
ghost use Rattle.std.specs.Int.{int_div_euclid};
ghost use Rattle.affine_forms.specs.Bounds.{is_narrow};
ghost use Rattle.affine_prover.specs.RowSets.Rows.{gcd, weighed, is_narrow_weighed};

use affine_forms::is_narrow;

/// Numbers below it fit into a machine word.
const WORD: u128 = 1 << 64;

/// Two products of numbers of at most this size and their sum are at most 2^100 in size.
const SMALL: i128 = 1 << 49;

/// The product, where it is at most 2^100 in size.
fn product(x: i128, y: i128) -> Option<i128>
    ensures { result ≡ (if is_narrow (x *ℤ y) then Some (x *ℤ y) else None) }
{
    let z = x.checked_mul(y)?;
    if is_narrow(z) { Some(z) } else { None }
}

/// The sum, where it is at most 2^100 in size.
fn sum(x: i128, y: i128) -> Option<i128>
    ensures { result ≡ (if is_narrow (x +ℤ y) then Some (x +ℤ y) else None) }
{
    let z = x.checked_add(y)?;
    if is_narrow(z) { Some(z) } else { None }
}

/// Whether a number is at most 2^49 in size, so that two products of such numbers and their sum are at most 2^100 in size.
#[inline]
fn is_small(z: i128) -> bool
    ensures { IsTrue result → unsigned_abs z ≤ 2 ^ 49 }
{
    -SMALL <= z && z <= SMALL
}

/// `f * x + g * y` of numbers of any size, where both products and the sum are at most 2^100 in size.
#[cold]
fn wide_weighed(f: i128, x: i128, g: i128, y: i128) -> Option<i128>
    ensures { result ≡ (if is_narrow_weighed f x g y then Some (weighed f x g y) else None) }
{
    let left = product(f, x)?;
    let right = product(g, y)?;
    sum(left, right)
}

/// `f * x + g * y`, where both products and the sum are at most 2^100 in size.
/// Small numbers need no test of overflow, and most coefficients are 0.
#[inline]
pub fn weighed(f: i128, x: i128, g: i128, y: i128) -> Option<i128>
    ensures { result ≡ (if is_narrow_weighed f x g y then Some (weighed f x g y) else None) }
{
    if x == 0 && y == 0 {
        return Some(0);
    }
    if is_small(f) && is_small(x) && is_small(g) && is_small(y) {
        return Some(f * x + g * y);
    }
    wide_weighed(f, x, g, y)
}

/// `x + g * y`, where the product and the sum are at most 2^100 in size. Most numbers of an equation are 0.
#[inline]
pub fn added(x: i128, g: i128, y: i128) -> Option<i128>
    requires { IsTrue (is_narrow x) }
    ensures { result ≡ (if is_narrow_weighed (pos 1) x g y then Some (weighed (pos 1) x g y) else None) }
{
    if y == 0 { Some(x) } else { weighed(1, x, g, y) }
}

/// The greatest common divisor of two numbers of one machine word, by Euclid's algorithm.
fn small_gcd(a: u64, b: u64) -> u64
    ensures { result ≡ gcd a b }
{
    let mut x = a;
    let mut y = b;
    while y != 0 {
        let rest = x % y;
        x = y;
        y = rest;
    }
    x
}

/// The greatest common divisor of two numbers of any size. Two of one machine word need no wide
/// division.
fn wide_gcd(a: u128, b: u128) -> u128
    ensures { result ≡ gcd a b }
{
    if b == 0 {
        a
    } else if a < WORD && b < WORD {
        small_gcd(a as u64, b as u64) as u128
    } else {
        wide_gcd(b, a % b)
    }
}

/// The greatest common divisor. Most numbers are 0.
pub fn gcd(a: u128, b: u128) -> u128
    ensures value { result ≡ gcd a b }
    ensures positive { 0 < a → 0 < result }
{
    if a == 0 { b } else { wide_gcd(a, b) }
}

/// `a / g`. Most numbers are small, so that no wide division is needed.
pub fn quotient(a: u128, g: u128) -> u128
    requires { 0 < g }
    ensures { result ≡ a / g }
{
    if a < WORD && g < WORD {
        (a as u64 / g as u64) as u128
    } else {
        a / g
    }
}

/// `c / g`, rounded down. Most coefficients are 0, so that no wide division is needed.
pub fn floored(c: i128, g: i128) -> i128
    requires { pos 1 <ℤ g }
    ensures { result ≡ int_div_euclid c g }
{
    if c == 0 { 0 } else { c.div_euclid(g) }
}
