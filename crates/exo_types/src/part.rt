//! Parts of parameters and statements: binders, memories, dimensions, and what is stored.
ghost use Rattle.std.specs.Prelude.{◌≡◌, ◌+◌, ◌≤◌, ◌<◌, map, length};
ghost use Rattle.exo_meaning.specs.Units.{plainly};
ghost use Rattle.text_expressions.specs.Views.{tree_of};
ghost use Rattle.rules_names.specs.Faults.{charged};
ghost use Rattle.rules_names.specs.Tests.{most_tokens};
ghost use Rattle.rules_names.specs.ExpressionRules.{width, is_buffer, controls_faults};
ghost use Rattle.rules_names.specs.WindowRules.{window_faults};
ghost use Rattle.exo_types.specs.TypeRules.{binder_faults, memory_faults, memory_width, memory_of};
ghost use Rattle.exo_types.specs.ArgumentRules.{dims_width, comma_width, points};
ghost use Rattle.exo_types.specs.StatementRules.{store_faults};

use exo_modes::PLAINLY;
use exo_tree::MemId;
use rules_names::control::test_controls;
use rules_names::datum::test_data;
use rules_names::error::TypeKind;
use rules_names::fault::Charge;
use rules_names::scope::Scope;
use rules_names::table::NameTable;
use rules_names::tested::{Names, is_buffer, name_charge, rank_charge};
use text_expressions::source::SourceExpr;
use text_lexer::text::Text;

/// The charge of a name that is given already in its procedure.
pub fn binder_charge(scope: &Scope, name: &Text, n: usize) -> Charge
    ensures { result ≡ charged (binder_faults scope.now n name.now) }
{
    let is_taken = scope.get(name.as_str()).is_some();
    Charge::unless(!is_taken, TypeKind::Redefined, n)
}

/// The charge of the memory behind an `@`, which is token `n`.
pub fn memory_charge(memories: &NameTable, n: usize, memory: &Option<Text>) -> Charge
    requires { n < most_tokens }
    ensures { result ≡ charged (memory_faults memories.now n memory.now) }
{
    match memory {
        None => Charge::none(),
        Some(name) => match memories.get(name.as_str()) {
            None => Charge::of(TypeKind::UnknownName, n + 1),
            Some(_) => Charge::none(),
        },
    }
}

/// The number of the token behind a memory.
pub fn end_of_memory(n: usize, memory: &Option<Text>) -> usize
    requires { n + memory_width memory.now ≤ most_tokens }
    ensures { result ≡ n + memory_width memory.now }
{
    match memory {
        None => n,
        Some(_) => n + 2,
    }
}

/// The memory that is named; the first one where none is.
pub fn memory_of(memories: &NameTable, memory: &Option<Text>) -> MemId
    requires { length memories.now ≤ 4294967295 }
    ensures { result.0 ≡ memory_of memories.now memory.now }
{
    let Some(name) = memory else {
        return MemId(0);
    };
    match memories.get(name.as_str()) {
        Some(number) => MemId(number as u32),
        None => MemId(0),
    }
}

/// How many tokens the comma behind the last one of a list has, where there may be one.
pub fn comma_width(trailing: bool) -> usize
    ensures { result ≡ comma_width trailing }
{
    if trailing { 1 } else { 0 }
}

/// The charge of dimensions or indices whose bracket is token `n`, and the number of the token behind them.
pub fn test_dims(names: &Names, n: usize, dims: &[SourceExpr]) -> (Charge, usize)
    requires { n + dims_width (map tree_of dims.now) ≤ most_tokens }
    ensures charge { result.0 ≡ charged (controls_faults names.now.fields.now plainly names.now.scope.now (n + 1) (map tree_of dims.now)) }
    ensures end { result.1 ≡ n + dims_width (map tree_of dims.now) }
{
    if dims.is_empty() {
        return (Charge::none(), n);
    }
    test_controls(names, PLAINLY, n + 1, dims)
}

/// The charge of the left side of an assignment, and the number of the token behind it.
fn test_target(names: &Names, n: usize, x: &Text, dims: &[SourceExpr]) -> (Charge, usize)
    requires { n + 1 + dims_width (map tree_of dims.now) ≤ most_tokens }
    ensures charge { result.0
        ≡ charged (window_faults names.now.fields.now is_buffer names.now.scope.now n x.now
        (points (map tree_of dims.now))) }
    ensures end { result.1 ≡ n + 1 + dims_width (map tree_of dims.now) }
{
    let sort = names.scope.sort(x.as_str());
    let name = name_charge(sort, is_buffer(sort), n);
    let rank = rank_charge(sort, dims.len(), n);
    let (parts, end) = test_dims(names, n + 1, dims);
    (name.and(rank.and(parts)), end)
}

/// The charge of a store or a reduction, and the number of the token behind its line.
pub fn test_store(
    names: &Names,
    n: usize,
    x: &Text,
    dims: &[SourceExpr],
    e: &SourceExpr,
) -> (Charge, usize)
    requires { n + (1 + dims_width (map tree_of dims.now) + 1 + width (tree_of e.now) + 1) ≤ most_tokens }
    ensures charge { result.0
        ≡ charged (store_faults names.now.fields.now names.now.scope.now n x.now
        (map tree_of dims.now) (tree_of e.now)) }
    ensures end { result.1 ≡ n + (1 + dims_width (map tree_of dims.now) + 1 + width (tree_of e.now) + 1) }
{
    let (target, end) = test_target(names, n, x, dims);
    let value = test_data(names, end + 1, e);
    (target.and(value.charge), value.end + 1)
}
