//! The names in scope down a path.
ghost use Rattle.std.specs.Prelude.{◌≡◌, true, [], map, OnOk, IfOk};
ghost use Rattle.exo_tree.specs.Tree.{block};
ghost use Rattle.exo_tree.specs.PlainBinder.{binding};
ghost use Rattle.exo_tree.specs.PlainPlace.{step_taken};
ghost use Rattle.exo_tree.specs.PlainProcedure.{procedure};
ghost use Rattle.exo_tree.specs.PlainStatement.{statement};
ghost use Rattle.exo_tree.specs.PlainUnit.{program};
ghost use Rattle.exo_meaning.specs.Units.{is_new, IsUnit};
ghost use Rattle.rules_names.specs.Scopes.PlaceScope as place;
ghost use Rattle.rules_names.specs.Scopes.PlaceScope.{naming, naming_params, naming_after};
ghost use Rattle.rules_names.specs.Scopes.PlaceScope.{naming_inside};
ghost use Rattle.rules_names.specs.Scopes.PlaceScope.{before, scope_behind, scope_along, scope_in};
ghost use Rattle.rules_names.specs.Scopes.NewNames.{params_are_new, binds_new, step_binds_new};

use crate::scope::{Meant, Scope};
use exo_modes::Sort;
use exo_tree::{Binder, Block, Kind, Params, Path, Proc, ProcId, Step, Stmt, Unit};
use std::alloc::{AllocError, Global};

/// Puts a binder into scope.
fn bind<'u>(scope: &mut Scope<'u>, x: &'u Binder) -> Result<(), AllocError>
    requires { is_new scope.old (binding x.now) ≡ true }
    ensures { OnOk result (scope.new ≡ naming (binding x.now) scope.old) }
{
    let meant = Meant {
        id: x.id,
        sort: Sort::Control(Kind::Index),
    };
    scope.push(x.name.as_str(), meant)
}

/// Puts parameters into scope.
fn bind_params<'u>(scope: &mut Scope<'u>, params: &'u Params) -> Result<(), AllocError>
    requires { params_are_new scope.old params.now ≡ true }
    ensures { OnOk result (scope.new ≡ naming_params params.now scope.old) }
{
    for p in params.as_slice() {
        bind(scope, &p.binder)?;
    }
    Ok(())
}

/// Puts into scope what is seen behind a statement.
fn bind_after<'u>(scope: &mut Scope<'u>, s: &'u Stmt) -> Result<(), AllocError>
    requires { step_binds_new scope.old (statement s.now) ≡ true }
    ensures { OnOk result (scope.new ≡ naming_after (statement s.now) scope.old) }
{
    match s {
        Stmt::Alloc(x, _, _, _) => bind(scope, x),
        Stmt::View(w, _, _) => bind(scope, w),
        _ => Ok(()),
    }
}

/// Puts into scope what is seen in the blocks of a statement.
fn bind_inside<'u>(scope: &mut Scope<'u>, s: &'u Stmt) -> Result<(), AllocError>
    requires { step_binds_new scope.old (statement s.now) ≡ true }
    ensures { OnOk result (scope.new ≡ naming_inside (statement s.now) scope.old) }
{
    match s {
        Stmt::For(i, _, _, _) => bind(scope, i),
        _ => Ok(()),
    }
}

/// Puts into scope what is seen behind the first so many statements of a block.
fn bind_behind<'u>(scope: &mut Scope<'u>, b: &'u Block, count: usize) -> Result<(), AllocError>
    requires { binds_new scope.old (block b.now) ≡ true }
    ensures { OnOk result (scope.new ≡ scope_behind count scope.old (block b.now)) }
{
    for k in 0..count.min(b.len()) {
        bind_after(scope, b.statement(k))?;
    }
    Ok(())
}

/// How many statements stand before a place: with `after` the one at the path too.
fn before(after: bool, index: u32) -> usize
    ensures { result ≡ before after index }
{
    if after {
        return index as usize + 1;
    }
    index as usize
}

/// Puts into scope what is seen at the end of a path from a block on.
fn bind_along<'u>(
    scope: &mut Scope<'u>,
    after: bool,
    path: &[Step],
    b: &'u Block,
) -> Result<(), AllocError>
    requires { binds_new scope.old (block b.now) ≡ true }
    ensures { OnOk result (scope.new ≡ scope_along after (map step_taken path.now) scope.old (block b.now)) }
{
    let Some((step, rest)) = path.split_first() else {
        return Ok(());
    };
    let Some(next) = rest.first() else {
        return bind_behind(scope, b, before(after, step.index));
    };
    bind_behind(scope, b, step.index as usize)?;
    let Some(s) = b.get(step.index as usize) else {
        return Ok(());
    };
    let Some(inner) = s.block(next.branch) else {
        return Ok(());
    };
    bind_inside(scope, s)?;
    bind_along(scope, after, rest, inner)
}

/// The names in scope at a place of a procedure.
fn scope_in<'u>(
    alloc: Global,
    p: &'u Proc,
    path: &Path,
    after: bool,
) -> Result<Scope<'u>, AllocError>
    requires params { params_are_new [] p.now.params ≡ true }
    requires body { binds_new (naming_params p.now.params []) (block p.now.body) ≡ true }
    ensures { IfOk result (λ s. s ≡ scope_in (procedure p.now) path.now after) }
{
    let mut scope = Scope::new(alloc);
    bind_params(&mut scope, &p.params)?;
    bind_along(&mut scope, after, path.as_slice(), &p.body)?;
    Ok(scope)
}

/// The names in scope at a place of a unit; none where there is no procedure of that number.
pub fn scope_at<'u>(
    alloc: Global,
    unit: &'u Unit,
    p: ProcId,
    path: &Path,
    after: bool,
) -> Result<Scope<'u>, AllocError>
    requires { IsUnit (program unit.now) }
    ensures { IfOk result (λ s. s ≡ place.scope_at (program unit.now) p.0 path.now after) }
{
    match unit.procs.get(p.0 as usize) {
        None => Ok(Scope::new(alloc)),
        Some(found) => scope_in(alloc, found, path, after),
    }
}
