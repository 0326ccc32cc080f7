//! Claims, and formulas that are not to hold together, as obligations.
ghost use Rattle.std.specs.Prelude.{◌≡◌, ◌≤◌, ◌++◌, ◌∷◌, [], map, min, length, IfOk, OnOk, IsTrue};
ghost use Rattle.affine_forms.specs.Bounds.{are_below};
ghost use Rattle.affine_forms.specs.Formulas.{cases_of_all};
ghost use Rattle.affine_forms.specs.PlainAtoms.{plain_atom};
ghost use Rattle.affine_forms.specs.PlainFormulas.{plain_formula};
ghost use Rattle.affine_forms.specs.System.{plain_row, plain_system};
ghost use Rattle.affine_systems.specs.Systems.{stated_in, cases_stated, stated, system, equations_of, rows_of};
ghost use Rattle.affine_systems.specs.PlainCases.{plain_constraint, plain_cases};
ghost use Rattle.affine_systems.specs.PlainMade.{plain_stated};
ghost use Rattle.affine_systems.specs.Outcomes.{IsAnswer, IsSystem, FailuresArePoints, owed, plain_obligation};

use crate::case::{Case, Constraint, MANY, case_count, empty_case, with_cases};
use crate::context::Context;
use crate::gathering::{Stated, gathered};
use crate::numbering::row;
use affine_forms::{Atom, FormError, Formula, Row, System};
use exo_tree::{Path, Text};
use std::alloc::{AllocError, Global};

/// A claim in one of the cases in which it might fail: it holds there if the system has no integer point.
pub struct Obligation {
    /// What holds where the context does and the claim does not.
    pub system: System,
    /// The claim as it is written.
    pub what: Text,
    /// The statement that owes it.
    pub place: Path,
}

impl Drop for Obligation {
    fn drop(self) {
        let Self {
            system: _,
            what: _,
            place: _,
        } = self;
    }
}

/// Puts the rows of constraints over numbered atoms last, the equations apart.
fn put_rows(
    alloc: Global,
    atoms: &[Atom],
    cs: &[Stated],
    equations: &mut Vec<Row>,
    rows: &mut Vec<Row>,
) -> Result<(), AllocError>
    requires few { length atoms.now ≤ 64 }
    requires equations_below { IsTrue (are_below (length atoms.now) (map (λ r. map (λ t. t.variable) r.terms.items) equations.old.items)) }
    requires rows_below { IsTrue (are_below (length atoms.now) (map (λ r. map (λ t. t.variable) r.terms.items) rows.old.items)) }
    ensures equations { OnOk result
        (map (plain_row (length atoms.now)) equations.new.items
        ≡ map (plain_row (length atoms.now)) equations.old.items
        ++ equations_of (map plain_atom atoms.now) (map plain_stated cs.now)) }
    ensures rows { OnOk result
        (map (plain_row (length atoms.now)) rows.new.items
        ≡ map (plain_row (length atoms.now)) rows.old.items
        ++ rows_of (map plain_atom atoms.now) (map plain_stated cs.now)) }
    ensures equations_below { OnOk result
        (IsTrue (are_below (length atoms.now)
        (map (λ r. map (λ t. t.variable) r.terms.items) equations.new.items))) }
    ensures rows_below { OnOk result
        (IsTrue (are_below (length atoms.now)
        (map (λ r. map (λ t. t.variable) r.terms.items) rows.new.items))) }
{
    for c in cs {
        let r = row(alloc, atoms, c.constant(), c.terms())?;
        if c.is_equation() {
            equations.push(r)?;
        } else {
            rows.push(r)?;
        }
    }
    Ok(())
}

/// The most variables of a system.
const MOST_VARIABLES: usize = 64;

/// The system of one case.
fn system_of_case(alloc: Global, case: &[Constraint<'_>]) -> Result<System, FormError>
    ensures { IsSystem result (system (map plain_constraint case.now)) }
{
    let made = gathered(alloc, case)?;
    if made.atoms.len() > MOST_VARIABLES {
        return Err(FormError::SystemTooLarge);
    }
    let vars = made.atoms.len() as u32;
    let mut equations = Vec::new(alloc);
    let mut rows = Vec::new(alloc);
    put_rows(
        alloc,
        &made.atoms,
        &made.constraints,
        &mut equations,
        &mut rows,
    )?;
    System::try_new(vars, equations, rows).ok_or(FormError::SystemTooLarge)
}

/// The number of cases in which all formulas hold, or 65 where there are more than that.
fn count_together(ctx: &Context) -> usize
    ensures { result ≡ min (length (cases_of_all ctx.now)) 65 }
{
    let mut count = 1;
    for f in ctx.formulas() {
        count = (count * case_count(f)).min(MANY);
    }
    count
}

/// The cases in which all formulas hold.
fn cases_together<'a>(alloc: Global, ctx: &'a Context) -> Result<Vec<Case<'a>>, AllocError>
    ensures { IfOk result (λ v. plain_cases v.items ≡ cases_of_all ctx.now) }
{
    let mut cases = empty_case(alloc)?;
    for f in ctx.formulas() {
        cases = with_cases(alloc, cases, f)?;
    }
    Ok(cases)
}

/// The number of cases in which formulas hold and a denied claim too, or 65 where there are more than that.
fn failing_count(ctx: &Context, denied: &Formula) -> usize
    ensures { result ≡ min (length (cases_of_all (ctx.now ++ plain_formula denied.now ∷ []))) 65 }
{
    (count_together(ctx) * case_count(denied)).min(MANY)
}

/// The cases in which formulas hold and a denied claim too.
fn failing_cases<'a>(
    alloc: Global,
    ctx: &'a Context,
    denied: &'a Formula,
) -> Result<Vec<Case<'a>>, AllocError>
    ensures { IfOk result (λ v. plain_cases v.items ≡ cases_of_all (ctx.now ++ plain_formula denied.now ∷ [])) }
{
    let cases = cases_together(alloc, ctx)?;
    with_cases(alloc, cases, denied)
}

/// Puts an obligation last.
fn owe(
    alloc: Global,
    all: &mut Vec<Obligation>,
    system: System,
    what: &Text,
    place: &Path,
) -> Result<(), AllocError>
    ensures { OnOk result
        (map plain_obligation all.new.items
        ≡ map plain_obligation all.old.items
        ++ owed what.now place.now (plain_system system) ∷ []) }
{
    all.push(Obligation {
        system,
        what: what.duplicate(alloc)?,
        place: place.duplicate(),
    })?;
    Ok(())
}

/// One obligation for each case; `SystemTooLarge` where the system of one is too large.
fn owed_in(
    alloc: Global,
    cases: &[Case<'_>],
    what: &Text,
    place: &Path,
) -> Result<Vec<Obligation>, FormError>
    requires { length (plain_cases cases.now) ≤ 64 }
    ensures { IsAnswer result (stated_in (plain_cases cases.now)) what.now place.now }
{
    let mut owed = Vec::with_capacity(alloc, cases.len())?;
    for case in cases {
        let system = match system_of_case(alloc, case) {
            Ok(s) => s,
            Err(e) => return Err(e),
        };
        owe(alloc, &mut owed, system, what, place)?;
    }
    Ok(owed)
}

/// The obligations that the formulas of a context do not hold together: a system for each case in which all of them do.
///
/// `TooManyCases` comes where there are more than 64 cases, else `SystemTooLarge` where some case has more than 64
/// variables, or more than 512 rows and equations together.
pub fn systems_together(
    alloc: Global,
    ctx: &Context,
    what: &Text,
    place: &Path,
) -> Result<Vec<Obligation>, FormError>
    ensures { IsAnswer result (cases_stated ctx.now) what.now place.now }
{
    if count_together(ctx) == MANY {
        return Err(FormError::TooManyCases);
    }
    let cases = cases_together(alloc, ctx)?;
    owed_in(alloc, &cases, what, place)
}

/// The obligations that formulas and a denied claim do not hold together.
fn owed_where(
    alloc: Global,
    ctx: &Context,
    denied: &Formula,
    what: &Text,
    place: &Path,
) -> Result<Vec<Obligation>, FormError>
    ensures { IsAnswer result (cases_stated (ctx.now ++ plain_formula denied.now ∷ [])) what.now place.now }
{
    if failing_count(ctx, denied) == MANY {
        return Err(FormError::TooManyCases);
    }
    let cases = failing_cases(alloc, ctx, denied)?;
    owed_in(alloc, &cases, what, place)
}

/// The obligations of a claim in its context: one for each case in which the context holds and the claim does not.
///
/// The hypotheses and the denied claim are brought into disjunctive normal form: the cases of `either` are those of its
/// left side and then those of its right, those of `both` are each of the left with each of the right in lexicographic
/// order, and an equation that is denied is less or greater. In each case the atoms are numbered as they appear in its
/// rows. Where a quotient q of e by c appears first, the rows `e - c * q` and `c * q + c - 1 - e` come before the row that
/// uses it, so that q is the quotient rounded down; a field is at least 1 if it is a size, and 0 or 1 if it is a bool.
///
/// `TooManyCases` comes where there are more than 64 cases, else `SystemTooLarge` where some case has more than 64
/// variables, or more than 512 rows and equations together. Integers for the atoms at which the context is met and the
/// claim fails are a point of one of the systems.
///
/// Sources: W. Pugh, The Omega test (1991), for claims as systems without integer points and for floors as new variables;
/// D. C. Cooper, Theorem proving in arithmetic without multiplication (1972), for the disjunctive normal form.
pub fn systems(
    alloc: Global,
    ctx: &Context,
    claim: &Formula,
    what: &Text,
    place: &Path,
) -> Result<Vec<Obligation>, FormError>
    ensures exact { IsAnswer result (stated ctx.now (plain_formula claim.now)) what.now place.now }
    ensures points { IfOk result (λ os. FailuresArePoints ctx.now (plain_formula claim.now) os.items) }
{
    let denied = claim.negated(alloc)?;
    owed_where(alloc, ctx, &denied, what, place)
}
