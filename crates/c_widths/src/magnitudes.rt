//! How large control values can become.
ghost use Rattle.std.specs.Prelude.{◌≡◌, ◌≤◌, ◌+◌, ◌-◌, ◌*◌, is_some, IfSome, unsigned_abs};
ghost use Rattle.exo_tree.specs.PlainControl.{control};
ghost use Rattle.c_widths.specs.Magnitude as widths;
ghost use Rattle.c_widths.specs.Magnitude.{rounded_up, fits, is_narrow};
ghost use Rattle.c_widths.specs.Bounds.{most_in};

use exo_tree::{Ctrl, Id};

/// How large the value of a name can be.
#[derive(Clone, Copy)]
pub struct Bound {
    pub id: Id,
    pub most: u64,
}

/// The most that a magnitude may be: 2^62.
const LIMIT: u64 = 4611686018427387904;

/// How large a configuration field or a stride can be: 2^48.
pub(crate) const FIELD_LIMIT: u64 = 281474976710656;

/// The magnitude, where it is not past its limit.
pub(crate) fn within(m: u64) -> Option<u64>
    ensures there { is_some result ≡ fits m }
    ensures value { IfSome result (λ n. n ≡ m) }
    ensures small { IfSome result (λ n. n ≤ 4611686018427387904) }
{
    if m <= LIMIT { Some(m) } else { None }
}

/// How large a name can be: 0 where it has no bound.
fn bound_of(bounds: &[Bound], x: Id) -> u64
    ensures { result ≡ most_in bounds.now x.0 }
{
    for b in bounds {
        if x.0 == b.id.0 {
            return b.most;
        }
    }
    0
}

/// The magnitude of a sum.
fn sum(a: u64, b: u64) -> Option<u64>
    requires left { a ≤ 4611686018427387904 }
    requires right { b ≤ 4611686018427387904 }
    ensures there { is_some result ≡ fits (a + b) }
    ensures value { IfSome result (λ n. n ≡ a + b) }
    ensures small { IfSome result (λ n. n ≤ 4611686018427387904) }
{
    within(a + b)
}

/// The magnitude of a product.
fn product(a: u64, b: u64) -> Option<u64>
    ensures there { is_some result ≡ fits (a * b) }
    ensures value { IfSome result (λ n. n ≡ a * b) }
    ensures small { IfSome result (λ n. n ≤ 4611686018427387904) }
{
    match a.checked_mul(b) {
        Some(m) => within(m),
        None => None,
    }
}

/// The magnitude of a quotient by `c`.
fn quotient(a: u64, c: u64) -> Option<u64>
    requires dividend { a ≤ 4611686018427387904 }
    requires divisor { c ≤ 9223372036854775808 }
    ensures there { is_some result ≡ fits (rounded_up a c) }
    ensures value { IfSome result (λ n. n ≡ rounded_up a c) }
    ensures small { IfSome result (λ n. n ≤ 4611686018427387904) }
{
    if c == 0 {
        return within(0);
    }
    within((a + (c - 1)) / c)
}

/// The magnitude of a remainder by `c`.
fn remainder(c: u64) -> Option<u64>
    ensures there { is_some result ≡ fits (c - 1) }
    ensures value { IfSome result (λ n. n ≡ c - 1) }
    ensures small { IfSome result (λ n. n ≤ 4611686018427387904) }
{
    if c == 0 {
        return Some(0);
    }
    within(c - 1)
}

/// The magnitude of an expression, by the bounds of its variables; None exactly where it or a part of it passes 2^62.
/// A field and a stride are at most 2^48.
pub fn magnitude(bounds: &[Bound], e: &Ctrl) -> Option<u64>
    ensures there { is_some result ≡ is_narrow (most_in bounds.now) (control e.now) }
    ensures value { IfSome result (λ n. n ≡ widths.magnitude (most_in bounds.now) (control e.now)) }
    ensures small { IfSome result (λ n. n ≤ 4611686018427387904) }
{
    match e {
        Ctrl::Lit(n) => within(n.unsigned_abs()),
        Ctrl::Var(x) => within(bound_of(bounds, *x)),
        Ctrl::Field(_) | Ctrl::Stride(_, _) => Some(FIELD_LIMIT),
        Ctrl::Neg(a) => magnitude(bounds, a),
        Ctrl::Add(a, b) | Ctrl::Sub(a, b) => {
            let left = magnitude(bounds, a)?;
            let right = magnitude(bounds, b)?;
            sum(left, right)
        }
        Ctrl::Mul(a, b) => {
            let left = magnitude(bounds, a)?;
            let right = magnitude(bounds, b)?;
            product(left, right)
        }
        Ctrl::Div(a, c) => {
            let left = magnitude(bounds, a)?;
            quotient(left, c.unsigned_abs())
        }
        Ctrl::Mod(a, c) => {
            magnitude(bounds, a)?;
            remainder(c.unsigned_abs())
        }
    }
}
