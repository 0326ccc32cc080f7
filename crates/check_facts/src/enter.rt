//! The formulas of conditions, loops and branches.
ghost use Rattle.std.specs.Prelude.{◌≡◌, ◌&&◌, ◌∷◌, [], ◌++◌, IsTrue, OnOk};
ghost use Rattle.exo_tree.specs.Tree.{Var, Le, Lt};
ghost use Rattle.exo_tree.specs.PlainControl.{control, condition};
ghost use Rattle.exo_tree.specs.PlainPlace.{branch_taken};
ghost use Rattle.exo_tree.specs.PlainStatement.{statement};
ghost use Rattle.exo_tree.specs.PlainProcedure.{procedure};
ghost use Rattle.exo_tree.specs.PlainUnit.{program};
ghost use Rattle.meaning_laws.specs.Facts.{Holds, Fails};
ghost use Rattle.meaning_laws.specs.KnownFields.{KnownFields};
ghost use Rattle.affine_forms.specs.Forms.{keeps_rules};
ghost use Rattle.affine_forms.specs.Formulas.{condition_keeps_rules, negation};
ghost use Rattle.affine_forms.specs.PlainFormulas.{FormulaMade, plain_formula};
ghost use Rattle.affine_places.specs.Rules.{statement_keeps_rules};
ghost use Rattle.check_facts.specs.Contexts.{condition_formula, condition_fits};
ghost use Rattle.check_facts.specs.Tables.{known_in};
ghost use Rattle.check_facts.specs.Walks.{SameBelow, Added, entered};

use crate::basis::Basis;
use crate::known::Known;
use affine_forms::{FormError, Formula, formula_of};
use affine_places::AtPlace;
use affine_systems::Context;
use exo_tree::{Branch, Cond, Ctrl, Id, Stmt};
use std::alloc::{AllocError, Global};

/// The formula of a condition where that is known of fields.
fn formula_where(
    basis: &Basis<'_, '_>,
    alloc: Global,
    known: &Known<'_>,
    c: &Cond,
) -> Result<Formula, FormError>
    requires { IsTrue (condition_keeps_rules (condition c.now)) }
    ensures { FormulaMade result
        (condition_fits (program basis.now.unit.now) (procedure basis.now.proc.now)
        (known_in known.now) (condition c.now))
        (condition_formula (program basis.now.unit.now) (procedure basis.now.proc.now)
        (known_in known.now) (condition c.now)) }
{
    let facts = known.facts(alloc, basis.count)?;
    let at = AtPlace {
        fields: &basis.unit.fields,
        roots: basis.roots,
        facts: &facts,
    };
    formula_of(alloc, &at, c)
}

/// Adds the formula of a condition that holds.
pub(crate) fn add_holds(
    basis: &Basis<'_, '_>,
    alloc: Global,
    known: &Known<'_>,
    c: &Cond,
    context: &mut Context,
) -> Result<(), FormError>
    requires { IsTrue (condition_keeps_rules (condition c.now)) }
    ensures { (first : KnownFields)
        → SameBelow basis.now.count (known_in known.now) first
        → Added result basis.now
        (record { known = first; fact = Holds (condition c.now) } ∷ []) context.old context.new }
{
    let f = formula_where(basis, alloc, known, c)?;
    context.push(f)?;
    Ok(())
}

/// Puts the formula last that holds where another does not.
fn push_denied(alloc: Global, f: &Formula, context: &mut Context) -> Result<(), AllocError>
    ensures { OnOk result (context.new ≡ context.old ++ negation (plain_formula f.now) ∷ []) }
{
    context.push(f.negated(alloc)?)
}

/// Adds the formula of a condition that does not hold.
fn add_fails(
    basis: &Basis<'_, '_>,
    alloc: Global,
    known: &Known<'_>,
    c: &Cond,
    context: &mut Context,
) -> Result<(), FormError>
    requires { IsTrue (condition_keeps_rules (condition c.now)) }
    ensures { (first : KnownFields)
        → SameBelow basis.now.count (known_in known.now) first
        → Added result basis.now
        (record { known = first; fact = Fails (condition c.now) } ∷ []) context.old context.new }
{
    let f = formula_where(basis, alloc, known, c)?;
    push_denied(alloc, &f, context)?;
    Ok(())
}

/// Adds the formula of a condition that holds and that was made for this alone.
fn add_made(
    basis: &Basis<'_, '_>,
    alloc: Global,
    known: &Known<'_>,
    c: Cond,
    context: &mut Context,
) -> Result<(), FormError>
    requires { IsTrue (condition_keeps_rules (condition c)) }
    ensures { (first : KnownFields)
        → SameBelow basis.now.count (known_in known.now) first
        → Added result basis.now
        (record { known = first; fact = Holds (condition c) } ∷ []) context.old context.new }
{
    let added = add_holds(basis, alloc, known, &c, context);
    // In one call: at the end of the function each of its variants would be a way of its own to check.
    drop(c);
    added
}

/// Adds the formula that one expression is at most another.
pub(crate) fn add_at_most(
    basis: &Basis<'_, '_>,
    alloc: Global,
    known: &Known<'_>,
    a: Ctrl,
    b: Ctrl,
    context: &mut Context,
) -> Result<(), FormError>
    requires { IsTrue (keeps_rules (control a) && keeps_rules (control b)) }
    ensures { (first : KnownFields)
        → SameBelow basis.now.count (known_in known.now) first
        → Added result basis.now
        (record { known = first; fact = Holds (Le (control a) (control b)) }
        ∷ []) context.old context.new }
{
    add_made(basis, alloc, known, Cond::Le(a, b), context)
}

/// Adds the formulas of a loop's bounds.
fn add_bounds(
    basis: &Basis<'_, '_>,
    alloc: Global,
    known: &Known<'_>,
    i: Id,
    lo: &Ctrl,
    hi: &Ctrl,
    context: &mut Context,
) -> Result<(), FormError>
    requires { IsTrue (keeps_rules (control lo.now) && keeps_rules (control hi.now)) }
    ensures { (first : KnownFields)
        → SameBelow basis.now.count (known_in known.now) first
        → Added result basis.now
        (record { known = first; fact = Holds (Le (control lo.now) (Var i.0)) }
        ∷ record { known = first; fact = Holds (Lt (Var i.0) (control hi.now)) }
        ∷ []) context.old context.new }
{
    let low = lo.duplicate(alloc)?;
    add_at_most(basis, alloc, known, low, Ctrl::Var(i), context)?;
    let high = hi.duplicate(alloc)?;
    add_made(basis, alloc, known, Cond::Lt(Ctrl::Var(i), high), context)
}

/// Adds the formulas of a loop or branch into which the way goes.
pub(crate) fn enter(
    basis: &Basis<'_, '_>,
    alloc: Global,
    known: &Known<'_>,
    branch: Branch,
    s: &Stmt,
    context: &mut Context,
) -> Result<(), FormError>
    requires { IsTrue (statement_keeps_rules (statement s.now)) }
    ensures { (first : KnownFields)
        → SameBelow basis.now.count (known_in known.now) first
        → Added result basis.now
        (entered (branch_taken branch) (statement s.now) first) context.old context.new }
{
    match s {
        Stmt::For(i, lo, hi, _) => add_bounds(basis, alloc, known, i.id, lo, hi, context),
        Stmt::If(c, _, _) => match branch {
            Branch::Main => add_holds(basis, alloc, known, c, context),
            Branch::Else => add_fails(basis, alloc, known, c, context),
        },
        _ => Ok(()),
    }
}
