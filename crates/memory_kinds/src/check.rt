//! The memory check of a procedure.
ghost use Rattle.std.specs.Prelude.{◌≡◌, map, OnOk};
ghost use Rattle.std.specs.Result.{result_err};
ghost use Rattle.exo_tree.specs.Tree.{block};
ghost use Rattle.exo_tree.specs.PlainDatum.{datum};
ghost use Rattle.exo_tree.specs.PlainParam.{parameter};
ghost use Rattle.exo_tree.specs.PlainArgument.{argument};
ghost use Rattle.exo_tree.specs.PlainStatement.{statement};
ghost use Rattle.exo_tree.specs.PlainUnit.{program};
ghost use Rattle.memory_kinds.specs.Faults.{or_first, in_memory, reads_fault, given_fault};
ghost use Rattle.memory_kinds.specs.Faults.{argument_fault, arguments_fault, call_fault};
ghost use Rattle.memory_kinds.specs.Faults.{block_fault, step_fault, kind_fault, params_fault};
ghost use Rattle.memory_kinds.specs.Faults.{alloc_fault, fault_of};
ghost use Rattle.memory_kinds.specs.Uses.{use_fault};
ghost use Rattle.memory_kinds.specs.Scope.{homes_in};
ghost use Rattle.memory_kinds.specs.Recent.{AreTrue};
ghost use Rattle.exo_tree.specs.PlainBinder.{cell_type};

use crate::class::{Use, check_alloc, check_param, check_use, check_window, refuse};
use crate::error::KindError;
use crate::recent::Recent;
use crate::scope::{Scope, bound_after, memory_of, recall, remember};
use exo_tree::{
    Arg, Args, Block, Cell, DataExpr, Id, Indices, MemId, Memories, Param, ProcId, Procs, Stmt,
    Unit,
};

/// The tables of a unit.
#[derive(Clone, Copy)]
struct Tables<'a> {
    procs: &'a Procs,
    memories: &'a Memories,
}

/// Something is done to the buffer of a name.
fn check_name(
    memories: &Memories,
    scope: &Scope,
    recent: &mut Recent,
    x: Id,
    what: Use,
) -> Result<(), KindError>
    requires { AreTrue recent.old (homes_in scope.now) }
    ensures value { result_err result ≡ in_memory memories.now (homes_in scope.now x.0) (use_fault what) }
    ensures kept { OnOk result (AreTrue recent.new (homes_in scope.now)) }
{
    match memories.get(recall(scope, recent, x).0 as usize) {
        Some(m) => check_use(m, what),
        None => Ok(()),
    }
}

/// The reads of an expression, from left to right.
#[cycle(reads)]
#[tactic(auto, using(crate::proofs::Firsts::grouped))]
fn check_reads(
    memories: &Memories,
    scope: &Scope,
    recent: &mut Recent,
    e: &DataExpr,
) -> Result<(), KindError>
    requires { AreTrue recent.old (homes_in scope.now) }
    ensures value { result_err result ≡ reads_fault memories.now (homes_in scope.now) (datum e.now) }
    ensures kept { OnOk result (AreTrue recent.new (homes_in scope.now)) }
{
    match e {
        DataExpr::Lit(_) => Ok(()),
        DataExpr::Read(x, _) => check_name(memories, scope, recent, *x, Use::Reading),
        DataExpr::Neg(a) => check_reads(memories, scope, recent, a),
        DataExpr::Relu(a) => check_reads(memories, scope, recent, a),
        DataExpr::Add(a, b) => check_both(memories, scope, recent, a, b),
        DataExpr::Sub(a, b) => check_both(memories, scope, recent, a, b),
        DataExpr::Mul(a, b) => check_both(memories, scope, recent, a, b),
        DataExpr::Select(a, b, c, d) => {
            check_both(memories, scope, recent, a, b)?;
            check_both(memories, scope, recent, c, d)
        }
    }
}

/// The reads of two expressions.
#[cycle(reads)]
fn check_both(
    memories: &Memories,
    scope: &Scope,
    recent: &mut Recent,
    a: &DataExpr,
    b: &DataExpr,
) -> Result<(), KindError>
    requires { AreTrue recent.old (homes_in scope.now) }
    ensures value { result_err result
        ≡ or_first (reads_fault memories.now (homes_in scope.now) (datum a.now))
        (reads_fault memories.now (homes_in scope.now) (datum b.now)) }
    ensures kept { OnOk result (AreTrue recent.new (homes_in scope.now)) }
{
    check_reads(memories, scope, recent, a)?;
    check_reads(memories, scope, recent, b)
}

/// A buffer is made in that memory.
fn check_made(memories: &Memories, cell: Cell, dims: &Indices, m: MemId) -> Result<(), KindError>
    ensures { result_err result ≡ in_memory memories.now m.0 (alloc_fault (cell_type cell) dims.now) }
{
    match memories.get(m.0 as usize) {
        Some(m) => check_alloc(m, cell, dims),
        None => Ok(()),
    }
}

/// A parameter in that memory is given an argument.
fn check_given(
    memories: &Memories,
    scope: &Scope,
    recent: &mut Recent,
    m: MemId,
    a: &Arg,
) -> Result<(), KindError>
    requires { AreTrue recent.old (homes_in scope.now) }
    ensures value { result_err result ≡ given_fault memories.now (homes_in scope.now) m.0 (argument a.now) }
    ensures kept { OnOk result (AreTrue recent.new (homes_in scope.now)) }
{
    match a {
        Arg::Ctrl(_) => Ok(()),
        Arg::Cond(_) => Ok(()),
        Arg::Whole(x) => refuse(
            recall(scope, recent, *x).0 != m.0,
            KindError::MemoryMismatch,
        ),
        Arg::Window(x, coords) => {
            let held = recall(scope, recent, *x);
            refuse(held.0 != m.0, KindError::MemoryMismatch)?;
            match memories.get(held.0 as usize) {
                Some(m) => check_window(m, coords),
                None => Ok(()),
            }
        }
    }
}

/// A parameter is given an argument.
fn check_argument(
    memories: &Memories,
    scope: &Scope,
    recent: &mut Recent,
    p: &Param,
    a: &Arg,
) -> Result<(), KindError>
    requires { AreTrue recent.old (homes_in scope.now) }
    ensures value { result_err result ≡ argument_fault memories.now (homes_in scope.now) (parameter p.now) (argument a.now) }
    ensures kept { OnOk result (AreTrue recent.new (homes_in scope.now)) }
{
    match memory_of(p) {
        Some(m) => check_given(memories, scope, recent, m, a),
        None => Ok(()),
    }
}

/// Parameters are given their arguments.
fn check_arguments(
    memories: &Memories,
    scope: &Scope,
    recent: &mut Recent,
    params: &[Param],
    args: &[Arg],
) -> Result<(), KindError>
    requires { AreTrue recent.old (homes_in scope.now) }
    ensures value { result_err result
        ≡ arguments_fault memories.now (homes_in scope.now) (map parameter params.now)
        (map argument args.now) }
    ensures kept { OnOk result (AreTrue recent.new (homes_in scope.now)) }
{
    for k in 0..params.len().min(args.len()) {
        check_argument(memories, scope, recent, &params[k], &args[k])?;
    }
    Ok(())
}

/// A procedure is called.
fn check_call(
    tables: &Tables,
    scope: &Scope,
    recent: &mut Recent,
    k: ProcId,
    args: &Args,
) -> Result<(), KindError>
    requires { AreTrue recent.old (homes_in scope.now) }
    ensures value { result_err result ≡ call_fault tables.now.procs.now tables.now.memories.now (homes_in scope.now) k.0 args.now }
    ensures kept { OnOk result (AreTrue recent.new (homes_in scope.now)) }
{
    match tables.procs.get(k.0 as usize) {
        Some(p) => check_arguments(
            tables.memories,
            scope,
            recent,
            p.params.as_slice(),
            args.as_slice(),
        ),
        None => Ok(()),
    }
}

/// A statement, with all that is in it.
#[cycle(walk)]
fn check_statement<'a>(
    tables: &Tables,
    scope: &'a Scope<'a>,
    recent: &mut Recent,
    s: &'a Stmt,
) -> Result<(), KindError>
    requires { AreTrue recent.old (homes_in scope.now) }
    ensures value { result_err result ≡ step_fault tables.now.procs.now tables.now.memories.now (homes_in scope.now) (statement s.now) }
    ensures kept { OnOk result (AreTrue recent.new (homes_in scope.now)) }
{
    match s {
        Stmt::Assign(x, _, e) => {
            check_name(tables.memories, scope, recent, *x, Use::Writing)?;
            check_reads(tables.memories, scope, recent, e)
        }
        Stmt::Reduce(x, _, e) => {
            check_name(tables.memories, scope, recent, *x, Use::Reducing)?;
            check_reads(tables.memories, scope, recent, e)
        }
        Stmt::If(_, a, b) => {
            check_inner(tables, scope, recent, a)?;
            check_inner(tables, scope, recent, b)
        }
        Stmt::For(_, _, _, b) => check_inner(tables, scope, recent, b),
        Stmt::Alloc(_, cell, dims, m) => check_made(tables.memories, *cell, dims, *m),
        Stmt::View(_, x, _) => check_name(tables.memories, scope, recent, *x, Use::Viewing),
        Stmt::Call(k, args) => check_call(tables, scope, recent, *k, args),
        _ => Ok(()),
    }
}

/// The statements of a block inside another; what is remembered there is forgotten behind it.
#[cycle(walk)]
fn check_inner<'a>(
    tables: &Tables,
    scope: &'a Scope<'a>,
    recent: &Recent,
    b: &'a Block,
) -> Result<(), KindError>
    requires { AreTrue recent.now (homes_in scope.now) }
    ensures { result_err result ≡ block_fault tables.now.procs.now tables.now.memories.now (homes_in scope.now) (block b.now) }
{
    let mut inner = *recent;
    check_block(tables, scope, &mut inner, b)
}

/// The statements of a block. A name is looked for among those up to the last one that binds a name.
#[cycle(walk)]
fn check_block<'a>(
    tables: &Tables,
    scope: &'a Scope<'a>,
    recent: &mut Recent,
    b: &'a Block,
) -> Result<(), KindError>
    requires { AreTrue recent.old (homes_in scope.now) }
    ensures value { result_err result ≡ block_fault tables.now.procs.now tables.now.memories.now (homes_in scope.now) (block b.now) }
{
    let mut bound = 0;
    for k in 0..b.len() {
        let inside = Scope::Block(b, bound, scope);
        let s = b.statement(k);
        check_statement(tables, &inside, recent, s)?;
        remember(&inside, recent, s);
        bound = bound_after(s, bound, k + 1);
    }
    Ok(())
}

/// A parameter stands in its memory.
fn check_param_memory(memories: &Memories, p: &Param) -> Result<(), KindError>
    ensures { result_err result ≡ kind_fault memories.now (parameter p.now).kind }
{
    let Some(m) = memory_of(p) else {
        return Ok(());
    };
    match memories.get(m.0 as usize) {
        Some(m) => check_param(m),
        None => Ok(()),
    }
}

/// The parameters of a procedure.
fn check_params(memories: &Memories, params: &[Param]) -> Result<(), KindError>
    ensures { result_err result ≡ params_fault memories.now (map parameter params.now) }
{
    for p in params {
        check_param_memory(memories, p)?;
    }
    Ok(())
}

/// Checks the rules on memories of a procedure, in the order of its text: of its parameters, and then of each statement,
/// its left side before its reads. Ok where all hold or the unit has no such procedure; else the first rule that is broken.
/// Of a memory that the unit has not, nothing is asked. It takes no memory, and the time of a walk, but that a name which
/// more than 256 others may have driven out of what is remembered is looked for again in the statements before it.
pub fn check_memories(unit: &Unit, p: ProcId) -> Result<(), KindError>
    ensures { result_err result ≡ fault_of (program unit.now) p.0 }
{
    let Some(found) = unit.procs.get(p.0 as usize) else {
        return Ok(());
    };
    let tables = Tables {
        procs: &unit.procs,
        memories: &unit.memories,
    };
    check_params(tables.memories, found.params.as_slice())?;
    let mut recent = Recent::new();
    check_block(
        &tables,
        &Scope::Params(&found.params),
        &mut recent,
        &found.body,
    )
}
