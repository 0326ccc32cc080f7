//! The cases of formulas: their disjunctive normal form.
ghost use Rattle.std.specs.Prelude.{◌≡◌, ◌++◌, ◌∷◌, [], map, min, length, IfOk, OnOk};
ghost use Rattle.affine_forms.specs.Formulas.{product, cases};
ghost use Rattle.affine_forms.specs.PlainFormulas.{plain_formula};
ghost use Rattle.affine_systems.specs.PlainCases.{plain_constraint, plain_cases};

use affine_forms::{Equation, Formula, Sum};
use std::alloc::{AllocError, Global};

/// What holds in a case.
#[derive(Clone, Copy, Drop)]
pub enum Constraint<'a> {
    /// The sum is at least 0.
    AtLeastZero(&'a Sum),
    /// The sum is 0.
    IsZero(&'a Equation),
}

/// What holds in one case, all of it.
pub type Case<'a> = Vec<Constraint<'a>>;

/// One more than the most cases of a claim.
pub const MANY: usize = 65;

/// The number of cases of a formula, or 65 where it has more than that.
pub fn case_count(f: &Formula) -> usize
    ensures { result ≡ min (length (cases (plain_formula f.now))) 65 }
{
    match f {
        Formula::AtLeastZero(_) => 1,
        Formula::IsZero(_) => 1,
        Formula::Both(f, g) => (case_count(f) * case_count(g)).min(MANY),
        Formula::Either(f, g) => (case_count(f) + case_count(g)).min(MANY),
    }
}

/// One case in which nothing need hold.
pub fn empty_case<'a>(alloc: Global) -> Result<Vec<Case<'a>>, AllocError>
    ensures { IfOk result (λ v. plain_cases v.items ≡ [] ∷ []) }
{
    let mut cases = Vec::new(alloc);
    cases.push(Vec::new(alloc))?;
    Ok(cases)
}

/// A case with another behind it.
fn joined<'a>(
    alloc: Global,
    first: &[Constraint<'a>],
    second: &[Constraint<'a>],
) -> Result<Case<'a>, AllocError>
    ensures { IfOk result (λ k. k.items ≡ first.now ++ second.now) }
{
    let mut case = Vec::from_slice(alloc, first)?;
    case.extend_from_slice(second)?;
    Ok(case)
}

/// Puts a case with each of the others behind it last.
fn push_each<'a>(
    alloc: Global,
    case: &[Constraint<'a>],
    others: &[Case<'a>],
    made: &mut Vec<Case<'a>>,
) -> Result<(), AllocError>
    ensures { OnOk result
        (plain_cases made.new.items
        ≡ plain_cases made.old.items
        ++ map (λ k. map plain_constraint case.now ++ k) (plain_cases others.now)) }
{
    for other in others {
        let both = joined(alloc, case, other)?;
        made.push(both)?;
    }
    Ok(())
}

/// Each case of the first list with each of the second behind it.
fn product<'a>(
    alloc: Global,
    firsts: &[Case<'a>],
    seconds: &[Case<'a>],
) -> Result<Vec<Case<'a>>, AllocError>
    ensures { IfOk result (λ v. plain_cases v.items ≡ product (plain_cases firsts.now) (plain_cases seconds.now)) }
{
    let mut made = Vec::new(alloc);
    for case in firsts {
        push_each(alloc, case, seconds, &mut made)?;
    }
    Ok(made)
}

/// Each case with a constraint behind it.
fn with_constraint<'a>(
    mut cases: Vec<Case<'a>>,
    c: Constraint<'a>,
) -> Result<Vec<Case<'a>>, AllocError>
    ensures { IfOk result (λ v. plain_cases v.items ≡ map (λ k. k ++ plain_constraint c.entry ∷ []) (plain_cases cases.entry.items)) }
{
    for k in 0..cases.len() {
        cases[k].push(c)?;
    }
    Ok(cases)
}

/// Each case with each case of the formula behind it.
pub fn with_cases<'a>(
    alloc: Global,
    prefixes: Vec<Case<'a>>,
    f: &'a Formula,
) -> Result<Vec<Case<'a>>, AllocError>
    ensures { IfOk result (λ v. plain_cases v.items ≡ product (plain_cases prefixes.entry.items) (cases (plain_formula f.now))) }
{
    match f {
        Formula::AtLeastZero(sum) => with_constraint(prefixes, Constraint::AtLeastZero(sum)),
        Formula::IsZero(sum) => with_constraint(prefixes, Constraint::IsZero(sum)),
        Formula::Both(f, g) => {
            let first = with_cases(alloc, prefixes, f)?;
            with_cases(alloc, first, g)
        }
        Formula::Either(f, g) => {
            let mut each = with_cases(alloc, empty_case(alloc)?, f)?;
            let mut others = with_cases(alloc, empty_case(alloc)?, g)?;
            each.append(&mut others)?;
            product(alloc, &prefixes, &each)
        }
    }
}
