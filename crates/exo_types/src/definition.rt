//! Procedures and instructions: parameters, assertions and bodies.
ghost use Rattle.std.specs.Prelude.{◌≡◌, ◌+◌, ◌≤◌, ◌<◌, [], List, map, length, IfOk, MatchResult};
ghost use Rattle.exo_tree.specs.Tree.{ConfigField};
ghost use Rattle.exo_tree.specs.PlainParam.{parameter_kind};
ghost use Rattle.text_expressions.specs.Views.{tree_of};
ghost use Rattle.exo_reader.specs.Views.{plain_kind, plain_form, plain_parameter, plain_definition};
ghost use Rattle.rules_names.specs.Faults.{charged};
ghost use Rattle.rules_names.specs.Tests.{most_tokens};
ghost use Rattle.rules_names.specs.ExpressionRules.{width};
ghost use Rattle.exo_types.specs.TypeRules.{memory_width, kind_named};
ghost use Rattle.exo_types.specs.ItemRules as rules;
ghost use Rattle.exo_types.specs.ItemRules.{form_width, parameter_width, params_width, asserts_width};
ghost use Rattle.exo_types.specs.Refusals.{Refuses};
ghost use Rattle.exo_types.specs.Walks.{HasRoom};
ghost use Rattle.exo_types.specs.Definitions as definitions;
ghost use Rattle.exo_types.specs.Definitions.{HasSpace, IsPut, AreParams, IsAssert, AreAsserts, IsDefined};

use crate::context::{Context, ScopeState};
use crate::part::{binder_charge, comma_width, end_of_memory, memory_charge, memory_of, test_dims};
use crate::refusal::{Refusal, keep};
use crate::statement::add_statements;
use crate::types::{cell_charge, cell_of, kind_named};
use exo_modes::{PLAINLY, WITH_BOTH, param_sort};
use exo_reader::source::{SourceDef, SourceKind, SourceParam, SourceType};
use exo_tree::{
    Block, Conds, Indices, Name, Param, ParamKind, Params, Proc, StatementLines, Text as Template,
};
use rules_names::control::{test_condition, test_controls};
use rules_names::error::TypeKind;
use rules_names::fault::Charge;
use rules_names::resolved::{condition_of, indices_of};
use rules_names::scope::Scope;
use rules_names::table::NameTable;
use rules_names::tested::Names;
use std::alloc::{AllocError, Global};
use text_expressions::source::SourceExpr;
use text_lexer::text::Text;

/// The charge of a memory that stands behind a control parameter; its `@` is token `n`.
fn no_memory_charge(memories: &NameTable, n: usize, memory: &Option<Text>) -> Charge
    requires { n < most_tokens }
    ensures { result ≡ charged (rules.no_memory_faults memories.now n memory.now) }
{
    match memory {
        None => Charge::none(),
        Some(_) => {
            let named = memory_charge(memories, n, memory);
            named.and(Charge::of(TypeKind::KindMismatch, n + 1))
        }
    }
}

/// The charge of a type without dimensions, which is token `n`, and of the memory behind it.
fn test_scalar(memories: &NameTable, n: usize, kind: &SourceKind, memory: &Option<Text>) -> Charge
    requires { n + 1 < most_tokens }
    ensures { (fields : List ConfigField)
        → result
        ≡ charged (rules.scalar_faults fields memories.now (kind_named (plain_kind kind.now))
        (plain_kind kind.now) n memory.now) }
{
    match kind_named(kind) {
        Some(_) => no_memory_charge(memories, n + 1, memory),
        None => cell_charge(kind, n).and(memory_charge(memories, n + 1, memory)),
    }
}

/// The charge of the type of a parameter, whose first token is `n`, and of the memory behind it; and the number of the token
/// behind the type.
fn test_form(
    names: &Names,
    memories: &NameTable,
    n: usize,
    form: &SourceType,
    memory: &Option<Text>,
) -> (Charge, usize)
    requires { n + form_width (plain_form form.now) < most_tokens }
    ensures charge { result.0
        ≡ charged (rules.form_faults names.now.fields.now memories.now names.now.scope.now n
        (plain_form form.now) memory.now) }
    ensures end { result.1 ≡ n + form_width (plain_form form.now) }
{
    match form {
        SourceType::Plain(kind, dims) => {
            if dims.is_empty() {
                return (test_scalar(memories, n, kind, memory), n + 1);
            }
            let (extents, end) = test_dims(names, n + 1, dims);
            let place = memory_charge(memories, end, memory);
            (cell_charge(kind, n).and(extents.and(place)), end)
        }
        SourceType::Window(kind, dims) => {
            let (extents, end) = test_controls(names, PLAINLY, n + 4, dims);
            let place = memory_charge(memories, end, memory);
            (cell_charge(kind, n + 1).and(extents.and(place)), end)
        }
    }
}

/// What a parameter of a type without dimensions takes: a control value, or a single cell.
fn scalar_of(
    alloc: Global,
    memories: &NameTable,
    kind: &SourceKind,
    memory: &Option<Text>,
) -> ParamKind
    requires { length memories.now ≤ 4294967295 }
    ensures { (fields : List ConfigField)
        → parameter_kind result
        ≡ rules.scalar_of fields memories.now (kind_named (plain_kind kind.now))
        (plain_kind kind.now) memory.now }
{
    match kind_named(kind) {
        Some(named) => ParamKind::Ctrl(named),
        None => {
            let home = memory_of(memories, memory);
            ParamKind::Tensor(cell_of(kind), Indices::new(alloc), home)
        }
    }
}

/// What a parameter of that type takes.
fn form_of(
    alloc: Global,
    names: &Names,
    memories: &NameTable,
    form: &SourceType,
    memory: &Option<Text>,
) -> Result<ParamKind, AllocError>
    requires { length memories.now ≤ 4294967295 }
    ensures { IfOk result
        (λ k. parameter_kind k
        ≡ rules.form_of names.now.fields.now memories.now names.now.scope.now
        (plain_form form.now) memory.now) }
{
    match form {
        SourceType::Plain(kind, dims) => {
            if dims.is_empty() {
                return Ok(scalar_of(alloc, memories, kind, memory));
            }
            let extents = indices_of(alloc, names, dims)?;
            Ok(ParamKind::Tensor(cell_of(kind), extents, memory_of(memories, memory)))
        }
        SourceType::Window(kind, dims) => {
            let extents = indices_of(alloc, names, dims)?;
            Ok(ParamKind::Window(cell_of(kind), extents, memory_of(memories, memory)))
        }
    }
}

/// What a parameter breaks whose first token is `n`, and the number of the token behind it.
fn test_param(
    context: &Context,
    walk: &ScopeState,
    n: usize,
    param: &SourceParam,
) -> (Charge, usize)
    requires { HasRoom context.now walk.now n (parameter_width (plain_parameter param.now)) }
    ensures charge { result.0 ≡ charged (definitions.param_faults context.now walk.now n (plain_parameter param.now)) }
    ensures end { result.1 ≡ n + parameter_width (plain_parameter param.now) }
{
    let names = Names {
        fields: context.fields,
        scope: &walk.scope,
    };
    let taken = binder_charge(&walk.scope, &param.name, n);
    let (form, end) = test_form(&names, context.memories, n + 2, &param.form, &param.memory);
    (taken.and(form), end_of_memory(end, &param.memory))
}

/// Puts the parameter last whose first token is `n`. Gives the number of the token behind it.
fn add_param<'c>(
    context: &Context<'c>,
    walk: &mut ScopeState<'c>,
    n: usize,
    param: &'c SourceParam,
    made: &mut Params,
) -> Result<usize, Refusal>
    requires { HasRoom context.now walk.old n (parameter_width (plain_parameter param.now)) }
    ensures { MatchResult result
        (λ end. IsPut context.now walk.old walk.new made.old made.new n end
        (plain_parameter param.now))
        (λ e. Refuses e
        (definitions.param_fault context.now walk.old n (plain_parameter param.now))) }
{
    let (charge, end) = test_param(context, walk, n, param);
    keep(charge)?;
    let names = Names {
        fields: context.fields,
        scope: &walk.scope,
    };
    let kind = form_of(
        context.alloc,
        &names,
        context.memories,
        &param.form,
        &param.memory,
    )?;
    let binder = walk.bind(context.alloc, param.name.as_str(), param_sort(&kind))?;
    made.push(Param { binder, kind })?;
    Ok(end)
}

/// Makes the parameters of a procedure, the first token of which is `n`. Gives the number of the token behind the parenthesis that
/// closes them, if no comma stands before it.
fn add_params<'c>(
    context: &Context<'c>,
    walk: &mut ScopeState<'c>,
    n: usize,
    params: &'c [SourceParam],
    made: &mut Params,
) -> Result<usize, Refusal>
    requires room { HasRoom context.now walk.old n (params_width (map plain_parameter params.now)) }
    requires empty { made.old ≡ [] }
    ensures made { MatchResult result
        (λ _. AreParams context.now walk.old walk.new made.new n (map plain_parameter params.now))
        (λ e. Refuses e
        (definitions.params_fault context.now walk.old n (map plain_parameter params.now))) }
    ensures end { IfOk result (λ end. end ≡ n + params_width (map plain_parameter params.now)) }
{
    let mut next = n;
    for param in params {
        next = add_param(context, walk, next, param, made)? + 1;
    }
    let end = if params.is_empty() { n + 1 } else { next };
    Ok(end)
}

/// Puts the assertion last whose `assert` is token `n`. Gives the number of the token behind its line.
fn add_assert(
    context: &Context,
    scope: &Scope,
    n: usize,
    e: &SourceExpr,
    made: &mut Conds,
) -> Result<usize, Refusal>
    requires { n + width (tree_of e.now) + 2 ≤ most_tokens }
    ensures made { MatchResult result
        (λ _. IsAssert context.now scope.now n made.old made.new (tree_of e.now))
        (λ r. Refuses r (definitions.assert_fault context.now scope.now n (tree_of e.now))) }
    ensures end { IfOk result (λ end. end ≡ n + width (tree_of e.now) + 2) }
{
    let names = Names {
        fields: context.fields,
        scope,
    };
    let tested = test_condition(&names, WITH_BOTH, n + 1, e);
    keep(tested.charge)?;
    made.push(condition_of(context.alloc, &names, e)?)?;
    Ok(tested.end + 1)
}

/// Makes the assertions of a procedure, the first token of which is `n`. Gives the number of the token behind them.
fn add_asserts(
    context: &Context,
    scope: &Scope,
    n: usize,
    asserts: &[SourceExpr],
    made: &mut Conds,
) -> Result<usize, Refusal>
    requires room { n + asserts_width (map tree_of asserts.now) ≤ most_tokens }
    requires empty { made.old ≡ [] }
    ensures made { MatchResult result
        (λ _. AreAsserts context.now scope.now n made.new (map tree_of asserts.now))
        (λ r. Refuses r
        (definitions.asserts_fault context.now scope.now n (map tree_of asserts.now))) }
    ensures end { IfOk result (λ end. end ≡ n + asserts_width (map tree_of asserts.now)) }
{
    let mut next = n;
    for e in asserts {
        next = add_assert(context, scope, next, e, made)?;
    }
    Ok(next)
}

/// What is made of a procedure: its tree, the lines of its statements, the id of the next binder, and the number of the token
/// behind it.
#[derive(Drop)]
pub struct Defined {
    pub procedure: Proc,
    pub lines: StatementLines,
    pub next_id: u32,
    pub end: usize,
}

/// A walk in which no name is given yet.
fn first_walk<'c>(alloc: Global, first_id: u32) -> ScopeState<'c>
    ensures scope { result.scope ≡ [] }
    ensures aliases { result.aliases.items ≡ [] }
    ensures ids { result.next_id ≡ first_id }
    ensures lines { result.lines ≡ [] }
{
    ScopeState {
        scope: Scope::new(alloc),
        aliases: Vec::new(alloc),
        next_id: first_id,
        lines: StatementLines::new(alloc),
    }
}

/// A procedure of that name, of which no more is made yet.
fn empty_procedure(
    alloc: Global,
    name: &str,
    template: Option<Template>,
) -> Result<Proc, AllocError>
    ensures name { IfOk result (λ p. p.name ≡ name.now) }
    ensures params { IfOk result (λ p. p.params ≡ []) }
    ensures asserts { IfOk result (λ p. p.asserts ≡ []) }
    ensures body { IfOk result (λ p. p.body ≡ []) }
    ensures template { IfOk result (λ p. p.template ≡ template) }
{
    let name = Name::new(alloc, name)?;
    Ok(Proc {
        name,
        params: Params::new(alloc),
        asserts: Conds::new(alloc),
        body: Block::new(alloc),
        template,
    })
}

/// Makes the parts of a procedure whose `def` is token `n`. Gives the number of the token behind it. No name is given yet.
fn fill<'c>(
    context: &Context<'c>,
    walk: &mut ScopeState<'c>,
    n: usize,
    definition: &'c SourceDef,
    made: &mut Proc,
) -> Result<usize, Refusal>
    requires scope { walk.old.scope ≡ [] }
    requires aliases { walk.old.aliases.items ≡ [] }
    requires lines { walk.old.lines ≡ [] }
    requires space { HasSpace context.now walk.old.next_id n (plain_definition definition.now) }
    requires name { made.old.name ≡ definition.now.name }
    requires params { made.old.params ≡ [] }
    requires asserts { made.old.asserts ≡ [] }
    requires body { made.old.body ≡ [] }
    ensures { MatchResult result
        (λ end. IsDefined context.now walk.old.next_id made.old.template n (record {
          procedure = made.new;
          lines = walk.new.lines;
          next_id = walk.new.next_id;
          end = end;
        }) (plain_definition definition.now))
        (λ e. Refuses e
        (definitions.definition_fault context.now walk.old.next_id n
        (plain_definition definition.now))) }
{
    let closed = add_params(
        context,
        walk,
        n + 3,
        &definition.params.items,
        &mut made.params,
    )?;
    let start = closed + comma_width(definition.params.trailing) + 3;
    let middle = add_asserts(
        context,
        &walk.scope,
        start,
        &definition.asserts,
        &mut made.asserts,
    )?;
    let end = add_statements(context, walk, middle, &definition.body, &mut made.body)?;
    Ok(end + 1)
}

/// The procedure of a definition whose `def` is token `n`, and whose first binder gets that id.
pub fn definition_of<'c>(
    context: &Context<'c>,
    first_id: u32,
    n: usize,
    template: Option<Template>,
    definition: &'c SourceDef,
) -> Result<Defined, Refusal>
    requires { HasSpace context.now first_id n (plain_definition definition.now) }
    ensures { MatchResult result
        (λ r. IsDefined context.now first_id template n r (plain_definition definition.now))
        (λ e. Refuses e
        (definitions.definition_fault context.now first_id n (plain_definition definition.now))) }
{
    let mut procedure = empty_procedure(context.alloc, definition.name.as_str(), template)?;
    let mut walk = first_walk(context.alloc, first_id);
    let end = fill(context, &mut walk, n, definition, &mut procedure)?;
    Ok(Defined {
        procedure,
        lines: walk.lines,
        next_id: walk.next_id,
        end,
    })
}
