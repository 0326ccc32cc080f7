//! Statements and blocks.
ghost use Rattle.std.specs.Prelude.{◌≡◌, ◌+◌, ◌≤◌, ◌∷◌, ◌++◌, [], map, length, IfOk, OnOk};
ghost use Rattle.exo_meaning.specs.Units as units;
ghost use Rattle.exo_tree.specs.Tree as tree;
ghost use Rattle.exo_tree.specs.PlainBinder.{binding};
ghost use Rattle.exo_tree.specs.PlainDatum.{datum};
ghost use Rattle.exo_tree.specs.PlainStatement.{statement};
ghost use Rattle.rules_names.specs.Resolved.{control_of};
ghost use Rattle.text_expressions.specs.Views.{tree_of};
ghost use Rattle.exo_reader.specs.Source.{branch, loop, allocate, call, configure, view, block_of};
ghost use Rattle.exo_reader.specs.Source as source;
ghost use Rattle.exo_reader.specs.Views.{plain_coordinate, plain_argument, plain_kind, plain_statement};
ghost use Rattle.rules_names.specs.Faults.{charged};
ghost use Rattle.exo_modes.specs.Sorts.{sort_meant, sort_seen};
ghost use Rattle.rules_names.specs.Tests.{most_tokens};
ghost use Rattle.rules_names.specs.ExpressionRules.{width};
ghost use Rattle.exo_types.specs.ArgumentRules.{dims_width};
ghost use Rattle.exo_types.specs.StatementRules.{statement_width, block_width, else_width};
ghost use Rattle.exo_types.specs.Walks as walks;
ghost use Rattle.exo_types.specs.Walks.{HasRoom, stored, stored_tree, Puts, MakesBlock};

use crate::argument::{kind_of, spans, test_kind};
use crate::call::{arguments_of, test_call};
use crate::context::{Context, ScopeState};
use crate::part::{
    binder_charge, comma_width, end_of_memory, memory_charge, memory_of, test_dims, test_store,
};
use crate::refusal::{Refusal, keep, unknown_name};
use crate::types::{cell_charge, cell_of};
use exo_modes::{PLAINLY, Sort, WITH_FIELDS, WITH_STRIDES};
use exo_reader::source::{SourceArgs, SourceCoord, SourceKind, SourceStmt};
use exo_tree::{Binder, Block, Cell, DataExpr, Id, Indices, Kind, ProcId, Stmt};
use rules_names::control::{test_condition, test_control};
use rules_names::fault::Charge;
use rules_names::resolved::{
    boxed_condition, control_of, coordinates_of, data_of, id_in, indices_of,
};
use rules_names::scope::Scope;
use rules_names::tested::{Names, is_buffer};
use rules_names::window::test_window;
use std::alloc::AllocError;
use text_expressions::source::SourceExpr;
use text_lexer::text::Text;

/// A write of a cell: a reduction, or an assignment.
fn stored(reduces: bool, of: Id, indices: Indices, value: DataExpr) -> Stmt
    ensures { statement result ≡ stored_tree reduces of.0 indices (datum value) }
{
    if reduces {
        Stmt::Reduce(of, indices, value)
    } else {
        Stmt::Assign(of, indices, value)
    }
}

/// Puts an assignment or a reduction last whose first token is `n`. Gives the number of the token behind it.
fn add_store(
    context: &Context,
    walk: &ScopeState,
    n: usize,
    reduces: bool,
    x: &Text,
    dims: &[SourceExpr],
    e: &SourceExpr,
    made: &mut Block,
) -> Result<usize, Refusal>
    requires { n + (1 + dims_width (map tree_of dims.now) + 1 + width (tree_of e.now) + 1) ≤ most_tokens }
    ensures { Puts context.now walk.now walk.now made.old made.new n (stored reduces x.now (map tree_of dims.now) (tree_of e.now)) result }
{
    let names = Names {
        fields: context.fields,
        scope: &walk.scope,
    };
    let (charge, end) = test_store(&names, n, x, dims, e);
    keep(charge)?;
    let indices = indices_of(context.alloc, &names, dims)?;
    let value = data_of(context.alloc, &names, e)?;
    made.push(stored(reduces, id_in(&names, x.as_str()), indices, value))?;
    Ok(end)
}

/// Puts a write of a configuration field last whose first token is `n`. Gives the number of the token behind it.
fn add_config(
    context: &Context,
    walk: &ScopeState,
    n: usize,
    config: &Text,
    field: &Text,
    e: &SourceExpr,
    made: &mut Block,
) -> Result<usize, Refusal>
    requires { n + statement_width (configure config.now field.now (tree_of e.now)) ≤ most_tokens }
    ensures { Puts context.now walk.now walk.now made.old made.new n (configure config.now field.now (tree_of e.now)) result }
{
    let Some((number, kind)) = context.fields.get(config.as_str(), field.as_str()) else {
        return Err(unknown_name(n));
    };
    let names = Names {
        fields: context.fields,
        scope: &walk.scope,
    };
    let tested = test_kind(&names, WITH_STRIDES, kind, n + 4, e);
    keep(tested.charge)?;
    let value = kind_of(context.alloc, &names, kind, e)?;
    made.push(Stmt::Config(number, value))?;
    Ok(tested.end + 1)
}

/// Puts a call last whose name is token `n`. Gives the number of the token behind it.
fn add_call(
    context: &Context,
    walk: &ScopeState,
    n: usize,
    name: &Text,
    arguments: &SourceArgs,
    made: &mut Block,
) -> Result<usize, Refusal>
    requires room { n + statement_width
        (call name.now (map plain_argument arguments.now.items.items) arguments.now.trailing)
        ≤ most_tokens }
    requires few { length context.now.procedures.now ≤ 4294967295 }
    ensures { Puts context.now walk.now walk.now made.old made.new n
        (call name.now
        (map plain_argument arguments.now.items.items) arguments.now.trailing) result }
{
    let names = Names {
        fields: context.fields,
        scope: &walk.scope,
    };
    let Some(number) = context.number_in(name) else {
        return Err(unknown_name(n));
    };
    let Some(callee) = context.callee(number) else {
        return Err(unknown_name(n));
    };
    let given = arguments.items.as_slice();
    let (charge, end) = test_call(context.alloc, &names, &walk.aliases, callee, n, given)?;
    keep(charge)?;
    let args = arguments_of(context.alloc, &names, callee.params.as_slice(), given)?;
    made.push(Stmt::Call(ProcId(number as u32), args))?;
    let comma = comma_width(arguments.trailing);
    Ok(end + comma + 1)
}

/// The charge of an allocation whose name is token `n`, and the number of the token behind it.
fn test_alloc(
    context: &Context,
    walk: &ScopeState,
    n: usize,
    x: &Text,
    kind: &SourceKind,
    dims: &[SourceExpr],
    memory: &Option<Text>,
) -> (Charge, usize)
    requires { n + statement_width (allocate x.now (plain_kind kind.now) (map tree_of dims.now) memory.now) ≤ most_tokens }
    ensures charge { result.0
        ≡ charged (walks.own_faults context.now walk.now n
        (allocate x.now (plain_kind kind.now) (map tree_of dims.now) memory.now)) }
    ensures end { result.1 ≡ n + statement_width (allocate x.now (plain_kind kind.now) (map tree_of dims.now) memory.now) }
{
    let names = Names {
        fields: context.fields,
        scope: &walk.scope,
    };
    let name = binder_charge(&walk.scope, x, n);
    let (extents, end) = test_dims(&names, n + 3, dims);
    let place = memory_charge(context.memories, end, memory);
    let charge = name.and(cell_charge(kind, n + 2).and(extents.and(place)));
    (charge, end_of_memory(end, memory) + 1)
}

/// Puts an allocation last whose name is token `n`. Gives the number of the token behind it.
fn add_alloc<'c>(
    context: &Context<'c>,
    walk: &mut ScopeState<'c>,
    n: usize,
    x: &'c Text,
    kind: &SourceKind,
    dims: &[SourceExpr],
    memory: &Option<Text>,
    made: &mut Block,
) -> Result<usize, Refusal>
    requires { HasRoom context.now walk.old n (statement_width (allocate x.now (plain_kind kind.now) (map tree_of dims.now) memory.now)) }
    ensures { Puts context.now walk.old walk.new made.old made.new n
        (allocate x.now (plain_kind kind.now) (map tree_of dims.now) memory.now) result }
{
    let (charge, end) = test_alloc(context, walk, n, x, kind, dims, memory);
    keep(charge)?;
    let names = Names {
        fields: context.fields,
        scope: &walk.scope,
    };
    let indices = indices_of(context.alloc, &names, dims)?;
    let cell = cell_of(kind);
    let home = memory_of(context.memories, memory);
    let sort = Sort::Buffer(cell, dims.len(), true);
    let binder = walk.bind_buffer(context.alloc, x.as_str(), sort)?;
    made.push(Stmt::Alloc(binder, cell, indices, home))?;
    Ok(end)
}

/// What a view of that rank stands for; of what is no buffer there is none.
fn view_sort(sort: Option<Sort>, rank: usize) -> Sort
    ensures { sort_meant result ≡ units.view_sort (sort_seen sort) rank }
{
    match sort {
        Some(Sort::Buffer(cell, _, _)) => Sort::Buffer(cell, rank, false),
        _ => Sort::Buffer(Cell::I32, rank, false),
    }
}

/// The charge of a view whose name is token `n`, and the number of the token behind it.
fn test_view(
    context: &Context,
    walk: &ScopeState,
    n: usize,
    w: &Text,
    x: &Text,
    coords: &[SourceCoord],
) -> (Charge, usize)
    requires { n + statement_width (view w.now x.now (map plain_coordinate coords.now)) ≤ most_tokens }
    ensures charge { result.0 ≡ charged (walks.own_faults context.now walk.now n (view w.now x.now (map plain_coordinate coords.now))) }
    ensures end { result.1 ≡ n + statement_width (view w.now x.now (map plain_coordinate coords.now)) }
{
    let names = Names {
        fields: context.fields,
        scope: &walk.scope,
    };
    let sort = walk.scope.sort(x.as_str());
    let name = binder_charge(&walk.scope, w, n);
    let (window, end) = test_window(&names, is_buffer(sort), n + 2, x.as_str(), coords);
    (name.and(window), end + 1)
}

/// Puts a view last whose name is token `n`. Gives the number of the token behind it.
fn add_view<'c>(
    context: &Context<'c>,
    walk: &mut ScopeState<'c>,
    n: usize,
    w: &'c Text,
    x: &Text,
    coords: &[SourceCoord],
    made: &mut Block,
) -> Result<usize, Refusal>
    requires { HasRoom context.now walk.old n (statement_width (view w.now x.now (map plain_coordinate coords.now))) }
    ensures { Puts context.now walk.old walk.new made.old made.new n (view w.now x.now (map plain_coordinate coords.now)) result }
{
    let (charge, end) = test_view(context, walk, n, w, x, coords);
    keep(charge)?;
    let names = Names {
        fields: context.fields,
        scope: &walk.scope,
    };
    let of = id_in(&names, x.as_str());
    let sort = view_sort(names.scope.sort(x.as_str()), spans(coords));
    let window = coordinates_of(context.alloc, &names, coords)?;
    let binder = walk.bind_view(context.alloc, w.as_str(), of, sort)?;
    made.push(Stmt::View(binder, of, window))?;
    Ok(end)
}

/// Puts a statement last whose first token is `n`. Gives the number of the token behind it.
#[cycle(statements)]
fn add_statement<'c>(
    context: &Context<'c>,
    walk: &mut ScopeState<'c>,
    n: usize,
    s: &'c SourceStmt,
    made: &mut Block,
) -> Result<usize, Refusal>
    requires { HasRoom context.now walk.old n (statement_width (plain_statement s.now)) }
    ensures { Puts context.now walk.old walk.new made.old made.new n (plain_statement s.now) result }
{
    match s {
        SourceStmt::Pass => {
            made.push(Stmt::Pass)?;
            Ok(n + 2)
        }
        SourceStmt::If(c, a, b) => add_branch(context, walk, n, c, a, b, made),
        SourceStmt::For(i, low, high, a) => add_loop(context, walk, n, i, low, high, a, made),
        SourceStmt::Alloc(x, kind, dims, memory) => {
            add_alloc(context, walk, n, x, kind, dims, memory, made)
        }
        SourceStmt::Call(name, arguments) => add_call(context, walk, n, name, arguments, made),
        SourceStmt::Config(config, field, e) => {
            add_config(context, walk, n, config, field, e, made)
        }
        SourceStmt::Assign(x, dims, e) => add_store(context, walk, n, false, x, dims, e, made),
        SourceStmt::Reduce(x, dims, e) => add_store(context, walk, n, true, x, dims, e, made),
        SourceStmt::View(w, x, coords) => add_view(context, walk, n, w, x, coords, made),
    }
}

/// Puts a branch last whose first token is `n`. Gives the number of the token behind it.
#[cycle(statements)]
fn add_branch<'c>(
    context: &Context<'c>,
    walk: &mut ScopeState<'c>,
    n: usize,
    c: &SourceExpr,
    a: &'c [SourceStmt],
    b: &'c [SourceStmt],
    made: &mut Block,
) -> Result<usize, Refusal>
    requires { HasRoom context.now walk.old n
        (statement_width (branch (tree_of c.now) (block_of (map plain_statement a.now))
        (block_of (map plain_statement b.now)))) }
    ensures { Puts context.now walk.old walk.new made.old made.new n
        (branch (tree_of c.now) (block_of (map plain_statement a.now))
        (block_of (map plain_statement b.now))) result }
{
    let names = Names {
        fields: context.fields,
        scope: &walk.scope,
    };
    let tested = test_condition(&names, WITH_FIELDS, n + 1, c);
    keep(tested.charge)?;
    let condition = boxed_condition(context.alloc, &names, c)?;
    let mut then_part = Block::new(context.alloc);
    let end = add_statements(context, walk, tested.end + 3, a, &mut then_part)?;
    let mut else_part = Block::new(context.alloc);
    let next = add_else(context, walk, end + 1, b, &mut else_part)?;
    made.push(Stmt::If(Box::into_inner(condition), then_part, else_part))?;
    Ok(next)
}

/// Makes the block of an `else`, which is token `n`, or an empty one. Gives the number of the token behind it.
#[cycle(statements)]
fn add_else<'c>(
    context: &Context<'c>,
    walk: &mut ScopeState<'c>,
    n: usize,
    b: &'c [SourceStmt],
    made: &mut Block,
) -> Result<usize, Refusal>
    requires room { HasRoom context.now walk.old n (else_width (block_of (map plain_statement b.now))) }
    requires empty { made.old ≡ [] }
    ensures made { MakesBlock context.now walk.old walk.new made.new (n + 4) (block_of (map plain_statement b.now)) result }
    ensures end { IfOk result (λ end. end ≡ n + else_width (block_of (map plain_statement b.now))) }
{
    if b.is_empty() {
        return Ok(n);
    }
    let end = add_statements(context, walk, n + 4, b, made)?;
    Ok(end + 1)
}

/// The charge of the header of a loop whose first token is `n`, and the number of the token behind its bounds.
fn test_loop(
    context: &Context,
    walk: &ScopeState,
    n: usize,
    i: &Text,
    low: &SourceExpr,
    high: &SourceExpr,
) -> (Charge, usize)
    requires { n + 5 + width (tree_of low.now) + 1 + width (tree_of high.now) ≤ most_tokens }
    ensures charge { result.0
        ≡ charged (walks.own_faults context.now walk.now n
        (loop i.now (tree_of low.now) (tree_of high.now) source.end)) }
    ensures end { result.1 ≡ n + 5 + width (tree_of low.now) + 1 + width (tree_of high.now) }
{
    let names = Names {
        fields: context.fields,
        scope: &walk.scope,
    };
    let name = binder_charge(&walk.scope, i, n + 1);
    let first = test_control(&names, PLAINLY, n + 5, low);
    let second = test_control(&names, PLAINLY, first.end + 1, high);
    (name.and(first.charge.and(second.charge)), second.end)
}

/// Puts a loop over that block last. Its bounds are of names in that scope.
fn put_loop(
    context: &Context,
    scope: &Scope,
    binder: Binder,
    low: &SourceExpr,
    high: &SourceExpr,
    inside: Block,
    made: &mut Block,
) -> Result<(), AllocError>
    ensures { OnOk result
        (made.new
        ≡ made.old
        ++ tree.For (binding binder) (control_of context.now.fields.now scope.now (tree_of low.now))
        (control_of context.now.fields.now scope.now (tree_of high.now)) (tree.block inside) ∷ []) }
{
    let names = Names {
        fields: context.fields,
        scope,
    };
    let from = control_of(context.alloc, &names, low)?;
    let to = control_of(context.alloc, &names, high)?;
    made.push(Stmt::For(binder, from, to, inside))
}

/// Puts a loop last whose first token is `n`. Gives the number of the token behind it. Its bounds do not see its variable.
#[cycle(statements)]
fn add_loop<'c>(
    context: &Context<'c>,
    walk: &mut ScopeState<'c>,
    n: usize,
    i: &'c Text,
    low: &SourceExpr,
    high: &SourceExpr,
    a: &'c [SourceStmt],
    made: &mut Block,
) -> Result<usize, Refusal>
    requires { HasRoom context.now walk.old n
        (statement_width (loop i.now (tree_of low.now) (tree_of high.now)
        (block_of (map plain_statement a.now)))) }
    ensures { Puts context.now walk.old walk.new made.old made.new n
        (loop i.now (tree_of low.now) (tree_of high.now)
        (block_of (map plain_statement a.now))) result }
{
    let (charge, bounds_end) = test_loop(context, walk, n, i, low, high);
    keep(charge)?;
    let known = walk.scope.len();
    let binder = walk.bind(context.alloc, i.as_str(), Sort::Control(Kind::Index))?;
    let mut inside = Block::new(context.alloc);
    let end = add_statements(context, walk, bounds_end + 4, a, &mut inside)?;
    walk.scope.truncate(known);
    put_loop(context, &walk.scope, binder, low, high, inside, made)?;
    Ok(end + 1)
}

/// Makes a block of the statements, the first token of which is `n`. Gives the number of the token behind the last. Names end with it.
#[cycle(statements)]
pub fn add_statements<'c>(
    context: &Context<'c>,
    walk: &mut ScopeState<'c>,
    n: usize,
    statements: &'c [SourceStmt],
    made: &mut Block,
) -> Result<usize, Refusal>
    requires room { HasRoom context.now walk.old n (block_width (block_of (map plain_statement statements.now))) }
    requires empty { made.old ≡ [] }
    ensures made { MakesBlock context.now walk.old walk.new made.new n (block_of (map plain_statement statements.now)) result }
    ensures end { IfOk result (λ end. end ≡ n + block_width (block_of (map plain_statement statements.now))) }
{
    let named = walk.scope.len();
    let viewed = walk.aliases.len();
    let mut next = n;
    for s in statements {
        walk.lines.push(context.line(next))?;
        next = add_statement(context, walk, next, s, made)?;
    }
    walk.scope.truncate(named);
    walk.aliases.truncate(viewed);
    Ok(next)
}
