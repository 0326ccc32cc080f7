//! Rows over numbered variables.
ghost use Rattle.std.specs.Prelude.{◌≡◌, ◌^◌, ◌<◌, ◌≤◌, nat_lt, length, map, get_or, pos, IfOk, IsTrue};
ghost use Rattle.std.specs.List.{list_all, position_or_len};
ghost use Rattle.affine_forms.specs.Atoms.{same_atom};
ghost use Rattle.affine_forms.specs.Bounds.{is_narrow, is_increasing};
ghost use Rattle.affine_forms.specs.Forms.{is_within, are_within};
ghost use Rattle.affine_forms.specs.System.{coefficient_of, below, plain_row};
ghost use Rattle.affine_forms.specs.TermBounds.{are_distinct};
ghost use Rattle.affine_forms.specs.PlainAtoms.{plain_atom};
ghost use Rattle.affine_systems.specs.Systems.{added_at, numbered, affine};

use affine_forms::{Atom, Row, Term, Terms};
use std::alloc::{AllocError, Global};

/// The number of an atom: the place of the first one that is equal, or how many there are.
fn number_of(alloc: Global, atoms: &[Atom], atom: &Atom) -> Result<usize, AllocError>
    ensures { IfOk result (λ k. k ≡ position_or_len (same_atom (plain_atom atom.now)) (map plain_atom atoms.now)) }
{
    for (k, other) in atoms.iter().enumerate() {
        if atom.same(alloc, other)? {
            return Ok(k);
        }
    }
    Ok(atoms.len())
}

/// Adds to the k-th number.
fn add_at(all: &mut Vec<i128>, k: usize, z: i128)
    requires inside { k < length all.old.items }
    requires narrow { IsTrue (is_within (2 ^ 64) (get_or all.old.items k (pos 0))) }
    requires small { IsTrue (is_within (2 ^ 64) z) }
    ensures { all.new.items ≡ added_at k z all.old.items }
{
    all[k] += z;
}

/// The coefficient of each atom in a sum.
fn coefficients(alloc: Global, atoms: &[Atom], terms: &Terms) -> Result<Vec<i128>, AllocError>
    requires narrow { IsTrue (are_within (2 ^ 64) terms.now) }
    requires distinct { IsTrue (are_distinct terms.now) }
    ensures value { IfOk result (λ v. v.items ≡ numbered (map plain_atom atoms.now) terms.now) }
    ensures narrow { IfOk result (λ v. IsTrue (list_all is_narrow v.items)) }
    ensures len { IfOk result (λ v. length v.items ≡ length atoms.now) }
{
    let count = atoms.len();
    let mut all = Vec::from_elem(alloc, 0, count)?;
    for w in terms.as_slice() {
        let k = number_of(alloc, atoms, &w.atom)?;
        if k >= all.len() {
            continue;
        }
        add_at(&mut all, k, w.coefficient);
    }
    Ok(all)
}

/// The terms of the coefficients that are not 0, in the order of their variables.
fn sparse(alloc: Global, coefficients: &[i128]) -> Result<Vec<Term>, AllocError>
    requires narrow { IsTrue (list_all is_narrow coefficients.now) }
    requires few { length coefficients.now ≤ 64 }
    ensures value { IfOk result (λ v. map (coefficient_of v.items) (below (length coefficients.now)) ≡ coefficients.now) }
    ensures increasing { IfOk result (λ v. IsTrue (is_increasing (map (λ t. t.variable) v.items))) }
    ensures below { IfOk result (λ v. IsTrue (list_all (λ x. nat_lt x (length coefficients.now)) (map (λ t. t.variable) v.items))) }
{
    let mut terms = Vec::new(alloc);
    for (k, c) in coefficients.iter().enumerate() {
        if *c == 0 {
            continue;
        }
        terms.push(Term::new(k as u32, *c))?;
    }
    Ok(terms)
}

/// The row of a constant and a sum over numbered atoms.
pub fn row(alloc: Global, atoms: &[Atom], constant: i128, terms: &Terms) -> Result<Row, AllocError>
    requires few { length atoms.now ≤ 64 }
    requires constant { IsTrue (is_narrow constant) }
    requires narrow { IsTrue (are_within (2 ^ 64) terms.now) }
    requires distinct { IsTrue (are_distinct terms.now) }
    ensures value { IfOk result
        (λ r. plain_row (length atoms.now) r
        ≡ affine (map plain_atom atoms.now) (record { constant = constant; terms = terms.now })) }
    ensures below { IfOk result (λ r. IsTrue (list_all (λ x. nat_lt x (length atoms.now)) (map (λ t. t.variable) r.terms.items))) }
{
    let dense = coefficients(alloc, atoms, terms)?;
    let terms = sparse(alloc, &dense)?;
    Ok(Row::new(terms, constant))
}
