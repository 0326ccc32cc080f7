//! The formulas of parameters and assertions.
ghost use Rattle.std.specs.Prelude.{◌≡◌, IsTrue, map};
ghost use Rattle.std.specs.List.{list_all};
ghost use Rattle.exo_tree.specs.PlainBinder.{control_kind};
ghost use Rattle.exo_tree.specs.PlainProcedure.{procedure};
ghost use Rattle.meaning_laws.specs.Facts.{Holds};
ghost use Rattle.meaning_laws.specs.Known.{kind_facts, params_facts};
ghost use Rattle.meaning_laws.specs.KnownFields.{at_entry};
ghost use Rattle.affine_forms.specs.Formulas.{condition_keeps_rules};
ghost use Rattle.check_facts.specs.Contexts.{may_be_walked};
ghost use Rattle.check_facts.specs.Tables.{known_in};
ghost use Rattle.check_facts.specs.Walks.{Added, known_first, head_facts};

use crate::basis::Basis;
use crate::enter::{add_at_most, add_holds};
use crate::known::Known;
use affine_forms::FormError;
use affine_systems::Context;
use exo_tree::{Conds, Ctrl, Id, Kind, ParamKind, Params};
use std::alloc::Global;

/// Adds the formulas of a control parameter.
fn add_kind(
    basis: &Basis<'_, '_>,
    alloc: Global,
    known: &Known<'_>,
    x: Id,
    kind: Kind,
    context: &mut Context,
) -> Result<(), FormError>
    requires { known_in known.now ≡ at_entry }
    ensures { Added result basis.now (known_first (kind_facts x.0 (control_kind kind))) context.old context.new }
{
    match kind {
        Kind::Size => add_at_most(basis, alloc, known, Ctrl::Lit(1), Ctrl::Var(x), context),
        Kind::Bool => {
            add_at_most(basis, alloc, known, Ctrl::Lit(0), Ctrl::Var(x), context)?;
            add_at_most(basis, alloc, known, Ctrl::Var(x), Ctrl::Lit(1), context)
        }
        Kind::Index => Ok(()),
        Kind::Stride => Ok(()),
    }
}

/// Adds the formulas of a procedure's parameters.
fn add_params(
    basis: &Basis<'_, '_>,
    alloc: Global,
    known: &Known<'_>,
    params: &Params,
    context: &mut Context,
) -> Result<(), FormError>
    requires { known_in known.now ≡ at_entry }
    ensures { Added result basis.now (known_first (params_facts params.now)) context.old context.new }
{
    for p in params.as_slice() {
        if let ParamKind::Ctrl(kind) = &p.kind {
            add_kind(basis, alloc, known, p.binder.id, *kind, context)?;
        }
    }
    Ok(())
}

/// Adds the formulas of its assertions.
fn add_asserts(
    basis: &Basis<'_, '_>,
    alloc: Global,
    known: &Known<'_>,
    asserts: &Conds,
    context: &mut Context,
) -> Result<(), FormError>
    requires entry { known_in known.now ≡ at_entry }
    requires rules { IsTrue (list_all condition_keeps_rules asserts.now) }
    ensures { Added result basis.now (known_first (map Holds asserts.now)) context.old context.new }
{
    for c in asserts.as_slice() {
        add_holds(basis, alloc, known, c, context)?;
    }
    Ok(())
}

/// Adds the formulas of a procedure's parameters and assertions.
pub(crate) fn add_first(
    basis: &Basis<'_, '_>,
    alloc: Global,
    known: &Known<'_>,
    context: &mut Context,
) -> Result<(), FormError>
    requires entry { known_in known.now ≡ at_entry }
    requires rules { IsTrue (may_be_walked (procedure basis.now.proc.now)) }
    ensures { Added result basis.now (head_facts (procedure basis.now.proc.now)) context.old context.new }
{
    add_params(basis, alloc, known, &basis.proc.params, context)?;
    add_asserts(basis, alloc, known, &basis.proc.asserts, context)
}
