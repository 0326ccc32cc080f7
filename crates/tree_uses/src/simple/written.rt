//! Sums without quotients, written as expressions.
ghost use Rattle.std.specs.Prelude.{◌≡◌, ◌≤◌, ◌^◌, pos, unsigned_abs, IsTrue, IfOk};
ghost use Rattle.exo_tree.specs.Tree as tree;
ghost use Rattle.exo_tree.specs.PlainControl.{control};
ghost use Rattle.affine_forms.specs.Forms.{is_short, are_short};
ghost use Rattle.affine_forms.specs.PlainAtoms.{plain_atom, plain_terms};
ghost use Rattle.match_laws.specs.Simplify.Simplified as plain;

use affine_forms::{Atom, Linear, Weighed};
use exo_tree::Ctrl;
use std::alloc::{AllocError, Global};

/// Whether no atom of a sum is a quotient.
pub(crate) fn is_without_quotients(terms: &[Weighed]) -> bool
    ensures { result ≡ plain.is_without_quotients (plain_terms terms.now) }
{
    for w in terms {
        if matches!(&w.atom, Atom::Quotient(_)) {
            return false;
        }
    }
    true
}

/// An expression in a box.
pub(crate) fn in_box(alloc: Global, e: Ctrl) -> Result<Box<Ctrl>, AllocError>
    ensures { IfOk result (λ b. b.value ≡ e) }
{
    Ok(Box::new(alloc, e)?)
}

/// A number of at least 0.
fn number(alloc: Global, n: u64) -> Result<Box<Ctrl>, AllocError>
    requires { n ≤ 2 ^ 62 }
    ensures { IfOk result (λ e. control e.value ≡ tree.Lit (pos n)) }
{
    in_box(alloc, Ctrl::Lit(n as i64))
}

/// The size of a number.
fn size(z: i128) -> u64
    requires { IsTrue (is_short z) }
    ensures size { result ≡ unsigned_abs z }
    ensures small { result ≤ 2 ^ 62 }
{
    z.unsigned_abs() as u64
}

/// A number: one below 0 is the negation of a literal.
#[tactic(auto, using(crate::proofs::OfSimple::Signs::literal_below, crate::proofs::OfSimple::Signs::literal_from))]
fn literal(alloc: Global, z: i128) -> Result<Box<Ctrl>, AllocError>
    requires { IsTrue (is_short z) }
    ensures { IfOk result (λ e. control e.value ≡ plain.literal z) }
{
    let positive = number(alloc, size(z))?;
    if z < 0 {
        return in_box(alloc, Ctrl::Neg(positive));
    }
    Ok(positive)
}

/// An atom. No quotient is asked for.
fn atom_written(alloc: Global, a: &Atom) -> Result<Box<Ctrl>, AllocError>
    ensures { IfOk result (λ e. control e.value ≡ plain.atom_written (plain_atom a.now)) }
{
    match a {
        Atom::Variable(x) => in_box(alloc, Ctrl::Var(*x)),
        Atom::EntryField(f, _) => in_box(alloc, Ctrl::Field(*f)),
        Atom::UnknownField(f, _, _) => in_box(alloc, Ctrl::Field(*f)),
        Atom::OpaqueStride(x, k) => in_box(alloc, Ctrl::Stride(*x, *k)),
        Atom::Quotient(_) => Err(AllocError),
    }
}

/// `c * v`, or `v` for 1.
#[tactic(auto, using(crate::proofs::OfSimple::Signs::weighed_one, crate::proofs::OfSimple::Signs::weighed_more))]
fn weighed(alloc: Global, c: u64, v: Box<Ctrl>) -> Result<Box<Ctrl>, AllocError>
    requires { c ≤ 2 ^ 62 }
    ensures { IfOk result (λ e. control e.value ≡ plain.weighed c (control v.value)) }
{
    if c == 1 {
        return Ok(v);
    }
    in_box(alloc, Ctrl::Mul(number(alloc, c)?, v))
}

/// The first term: also `-v`, and `-c * v`.
#[tactic(auto, using(crate::proofs::OfSimple::Signs::first_from, crate::proofs::OfSimple::Signs::first_one, crate::proofs::OfSimple::Signs::first_more))]
fn first_written(alloc: Global, c: i128, v: Box<Ctrl>) -> Result<Box<Ctrl>, AllocError>
    requires { IsTrue (is_short c) }
    ensures { IfOk result (λ e. control e.value ≡ plain.first_written c (control v.value)) }
{
    let times = size(c);
    if c >= 0 {
        return weighed(alloc, times, v);
    }
    if times == 1 {
        return in_box(alloc, Ctrl::Neg(v));
    }
    in_box(alloc, Ctrl::Mul(literal(alloc, c)?, v))
}

/// A later term is added or subtracted.
#[tactic(auto, using(crate::proofs::OfSimple::Signs::joined_from, crate::proofs::OfSimple::Signs::joined_below))]
fn term_joined(alloc: Global, e: Box<Ctrl>, c: i128, v: Box<Ctrl>) -> Result<Box<Ctrl>, AllocError>
    requires { IsTrue (is_short c) }
    ensures { IfOk result (λ g. control g.value
        ≡ plain.term_joined (control e.value) c (control v.value)) }
{
    let term = weighed(alloc, size(c), v)?;
    if c < 0 {
        return in_box(alloc, Ctrl::Sub(e, term));
    }
    in_box(alloc, Ctrl::Add(e, term))
}

/// The later terms, one after the other.
fn terms_joined(alloc: Global, e: Box<Ctrl>, terms: &[Weighed]) -> Result<Box<Ctrl>, AllocError>
    requires { IsTrue (are_short (plain_terms terms.now)) }
    ensures { IfOk result (λ g. control g.value
        ≡ plain.terms_joined (control e.value) (plain_terms terms.now)) }
{
    let mut all = e;
    for w in terms {
        all = term_joined(alloc, all, w.coefficient, atom_written(alloc, &w.atom)?)?;
    }
    Ok(all)
}

/// The constant stands behind the terms, where it is not 0.
#[tactic(auto, using(crate::proofs::OfSimple::Signs::constant_below, crate::proofs::OfSimple::Signs::constant_none, crate::proofs::OfSimple::Signs::constant_some))]
fn constant_joined(alloc: Global, e: Box<Ctrl>, n: i128) -> Result<Box<Ctrl>, AllocError>
    requires { IsTrue (is_short n) }
    ensures { IfOk result (λ g. control g.value
        ≡ plain.constant_joined (control e.value) n) }
{
    let constant = size(n);
    if n < 0 {
        return in_box(alloc, Ctrl::Sub(e, number(alloc, constant)?));
    }
    if constant == 0 {
        return Ok(e);
    }
    in_box(alloc, Ctrl::Add(e, number(alloc, constant)?))
}

/// A form without quotients.
pub(crate) fn written(alloc: Global, l: &Linear) -> Result<Box<Ctrl>, AllocError>
    ensures { IfOk result (λ g. control g.value ≡ plain.written l.now) }
{
    match l.terms().as_slice().split_first() {
        None => literal(alloc, l.constant()),
        Some((w, rest)) => {
            let first = first_written(alloc, w.coefficient, atom_written(alloc, &w.atom)?)?;
            constant_joined(alloc, terms_joined(alloc, first, rest)?, l.constant())
        }
    }
}
