//! What is found in the body of a procedure.
ghost use Rattle.std.specs.Prelude.{◌≡◌, [], map, IfOk, OnOk};
ghost use Rattle.exo_tree.specs.Tree.{block};
ghost use Rattle.exo_tree.specs.PlainParam.{parameter};
ghost use Rattle.exo_tree.specs.PlainProcedure.{procedure};
ghost use Rattle.exo_tree.specs.PlainUnit.{program};
ghost use Rattle.exo_meaning.specs.Units as units;
ghost use Rattle.exo_modes.specs.Marks.{modes_of};
ghost use Rattle.exo_modes.specs.Seen.{table_says};
ghost use Rattle.tree_findings.specs.Findings as found;
ghost use Rattle.tree_findings.specs.Walked.{walk_scope, IsGround, ground_kinds, ground_memories};
ghost use Rattle.tree_findings.specs.Walked.{ground_callees};

use crate::call::Surroundings;
use crate::count::{are_below, ids_of, is_flat};
use crate::findings::Findings;
use crate::statement::{is_filled, is_short, walk_block};
use crate::walk::ScopeWalk;
use exo_modes::{ModeTable, param_sort};
use exo_tree::{Block, Param, Params, Proc, Unit, count_statements};
use std::alloc::{AllocError, Global};
use tree_edits::made::are_distinct;

/// Puts parameters into scope.
pub(crate) fn bind_params<'u>(
    walk: &mut ScopeWalk<'u>,
    params: &'u [Param],
) -> Result<(), AllocError>
    ensures scope { OnOk result
        (walk_scope walk.new ≡ units.scope_of (walk_scope walk.old) (map parameter params.now)) }
    ensures aliases { OnOk result (walk.new.aliases.items ≡ walk.old.aliases.items) }
{
    for p in params {
        walk.bind(&p.binder, param_sort(&p.kind))?;
    }
    Ok(())
}

/// Whether no path of a body is longer than 32, and it has at most 65,536 statements.
fn is_small(b: &Block) -> bool
    ensures { result ≡ found.is_small_body (block b.now) }
{
    is_flat(b, 32) && count_statements(b) <= 65536
}

/// What is found in the statements of a body under these parameters.
fn findings_inside<'u>(
    alloc: Global,
    ground: &Surroundings<'u>,
    params: &'u Params,
    body: &'u Block,
) -> Result<Findings, AllocError>
    requires { IsGround ground.now }
    ensures { IfOk result
        (λ f. f ≡ found.findings_of_block (ground_kinds ground.now) (ground_memories ground.now)
        (ground_callees ground.now) (units.scope_of [] params.now) (λ x. x) (block body.now)) }
{
    let mut walk = ScopeWalk::new(alloc);
    bind_params(&mut walk, params.as_slice())?;
    let inside = walk_block(ground, &mut walk, body)?;
    Ok(inside)
}

/// What is found in such a body under the parameters of a procedure of the unit, where it may call
/// each procedure of the unit. The table is that of the unit.
pub fn findings_of_body<'u>(
    alloc: Global,
    unit: &'u Unit,
    modes: &'u ModeTable,
    params: &'u Params,
    body: &'u Block,
) -> Result<Findings, AllocError>
    requires { table_says modes.now ≡ modes_of (program unit.now) }
    ensures { IfOk result
        (λ f. f ≡ found.findings_of_body (program unit.now) params.now (block body.now)) }
{
    let inside = findings_inside(alloc, &Surroundings { unit, modes }, params, body)?;
    let ids = ids_of(alloc, params.as_slice(), body)?;
    let distinct = Findings::rule(are_distinct(ids.as_slice()));
    let small = Findings::limit(is_short(body) && is_small(body));
    let rules = Findings::rule(is_filled(body)).and(distinct);
    Ok(rules.and(small.and(inside)))
}

/// What is found in a procedure with the parameters of one of the unit. Its ids are not to be
/// 65,536 above `base` or more. The table is that of the unit.
pub fn findings_of_version<'u>(
    alloc: Global,
    unit: &'u Unit,
    modes: &'u ModeTable,
    base: u32,
    q: &'u Proc,
) -> Result<Findings, AllocError>
    requires { table_says modes.now ≡ modes_of (program unit.now) }
    ensures { IfOk result
        (λ f. f ≡ found.findings_of_version (program unit.now) base (procedure q.now)) }
{
    let found = findings_of_body(alloc, unit, modes, &q.params, &q.body)?;
    let ids = ids_of(alloc, q.params.as_slice(), &q.body)?;
    let few = are_below(ids.as_slice(), base as u64 + 65536);
    Ok(found.and(Findings::limit(few)))
}
