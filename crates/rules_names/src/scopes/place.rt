//! The strings of a schedule as trees, with their names resolved at a place.
ghost use Rattle.std.specs.Prelude.{◌≡◌, map, IfOk};
ghost use Rattle.exo_tree.specs.PlainUnit.{program};
ghost use Rattle.exo_meaning.specs.Units.{IsUnit};
ghost use Rattle.text_expressions.specs.Views.{tree_of};
ghost use Rattle.exo_reader.specs.Views.{plain_coordinate};
ghost use Rattle.rules_names.specs.Names.{id_in};
ghost use Rattle.rules_names.specs.Scopes.PlaceScope.{scope_at};
ghost use Rattle.rules_names.specs.Scopes.Resolved.{IsControlAt, IsConditionAt, IsWindowAt};

use crate::argument::{ArgError, condition_argument, control_argument, window_argument};
use crate::resolved::id_in;
use crate::scope::Scope;
use crate::scopes::tables::table_of;
use crate::scopes::walk::scope_at;
use crate::table::FieldTable;
use crate::tested::Names;
use exo_reader::source::SourceWindow;
use exo_tree::{Cond, Coords, Ctrl, Id, Path, ProcId, Unit};
use std::alloc::{AllocError, Global};
use text_expressions::source::SourceExpr;

/// What names stand for at a place: the fields of the unit, and the names in scope.
struct Seen<'u> {
    fields: FieldTable<'u>,
    scope: Scope<'u>,
}

impl Drop for Seen<'_> {
    fn drop(self) {
        let Self {
            fields: _,
            scope: _,
        } = self;
    }
}

impl<'u> Seen<'u> {
    fn names(&self) -> Names<'_>
        ensures fields { result.fields.now ≡ self.now.fields }
        ensures scope { result.scope.now ≡ self.now.scope }
    {
        Names {
            fields: &self.fields,
            scope: &self.scope,
        }
    }
}

/// What is seen at a place of a unit.
fn seen_at<'u>(
    alloc: Global,
    unit: &'u Unit,
    p: ProcId,
    path: &Path,
    after: bool,
) -> Result<Box<Seen<'u>>, AllocError>
    requires { IsUnit (program unit.now) }
    ensures fields { IfOk result (λ s. s.value.fields ≡ unit.now.fields) }
    ensures scope { IfOk result (λ s. s.value.scope ≡ scope_at (program unit.now) p.0 path.now after) }
{
    let fields = table_of(alloc, &unit.fields)?;
    let scope = scope_at(alloc, unit, p, path, after)?;
    Ok(Box::new(alloc, Seen { fields, scope })?)
}

/// The control value of a string at a place: before the statement at the path, or with `after` behind it; at the empty path
/// only the parameters are in scope. A name that is not in scope stands for the id 4294967295. `NotOfForm` where the string
/// is of no control value's form, else `UnknownName` where a field in it is none of the unit.
pub fn ctrl_at(
    alloc: Global,
    unit: &Unit,
    p: ProcId,
    path: &Path,
    after: bool,
    e: &SourceExpr,
) -> Result<Ctrl, ArgError>
    requires { IsUnit (program unit.now) }
    ensures { IsControlAt (program unit.now) p.0 path.now after (tree_of e.now) result }
{
    let seen = seen_at(alloc, unit, p, path, after)?;
    let names = seen.names();
    control_argument(alloc, &names, e)
}

/// The condition of a string at a place, as `ctrl_at` does it.
pub fn cond_at(
    alloc: Global,
    unit: &Unit,
    p: ProcId,
    path: &Path,
    after: bool,
    e: &SourceExpr,
) -> Result<Cond, ArgError>
    requires { IsUnit (program unit.now) }
    ensures { IsConditionAt (program unit.now) p.0 path.now after (tree_of e.now) result }
{
    let seen = seen_at(alloc, unit, p, path, after)?;
    let names = seen.names();
    condition_argument(alloc, &names, e)
}

/// The id of a name at a place, as `ctrl_at` does it.
pub fn name_at(
    alloc: Global,
    unit: &Unit,
    p: ProcId,
    path: &Path,
    after: bool,
    name: &str,
) -> Result<Id, AllocError>
    requires { IsUnit (program unit.now) }
    ensures { IfOk result (λ x. x.0
        ≡ id_in (scope_at (program unit.now) p.0 path.now after) name.now) }
{
    let seen = seen_at(alloc, unit, p, path, after)?;
    let names = seen.names();
    Ok(id_in(&names, name))
}

/// The buffer or view and the coordinates of a window in a string at a place, as `ctrl_at` does it.
pub fn window_at(
    alloc: Global,
    unit: &Unit,
    p: ProcId,
    path: &Path,
    after: bool,
    w: &SourceWindow,
) -> Result<(Id, Coords), ArgError>
    requires { IsUnit (program unit.now) }
    ensures { IsWindowAt (program unit.now) p.0 path.now after w.now.name (map plain_coordinate w.now.coords.items) result }
{
    let seen = seen_at(alloc, unit, p, path, after)?;
    let names = seen.names();
    window_argument(alloc, &names, w.name.as_str(), w.coords.as_slice())
}
