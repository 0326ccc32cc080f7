//! The memories of the names in scope, looked for in the tree itself.
ghost use Rattle.std.specs.Prelude.{◌≡◌, if◌then◌else◌, map, take, option_map};
ghost use Rattle.exo_tree.specs.PlainParam.{parameter};
ghost use Rattle.exo_tree.specs.PlainStatement.{statement};
ghost use Rattle.memory_kinds.specs.Homes.{Homes, memory_of_kind, with_param, param_homes, homes_after, homes_past, binds};
ghost use Rattle.memory_kinds.specs.Scope.{homes_in, found_in};
ghost use Rattle.memory_kinds.specs.Recent.{AreTrue};

use crate::recent::Recent;
use exo_tree::{Block, Id, MemId, Param, ParamKind, Params, Stmt};

/// The names in scope at a place.
#[derive(Clone, Copy)]
pub(crate) enum Scope<'a> {
    /// The parameters.
    Params(&'a Params),
    /// Those that the first so many statements of a block bind, within those around the block.
    Block(&'a Block, usize, &'a Scope<'a>),
}

/// What statements say of the memory of a name: which it is, or that it is that of another name before them.
#[derive(Clone, Copy)]
pub(crate) enum Found {
    Memory(MemId),
    Name(Id),
}

/// The memory of a parameter; None of a control value.
pub(crate) fn memory_of(p: &Param) -> Option<MemId>
    ensures { option_map (λ (m : MemId). m.0) result ≡ memory_of_kind (parameter p.now).kind }
{
    match p.kind {
        ParamKind::Ctrl(_) => None,
        ParamKind::Tensor(_, _, m) => Some(m),
        ParamKind::Window(_, _, m) => Some(m),
    }
}

/// The memory of a name, where it is the given one without this parameter.
fn home_with(p: &Param, x: Id, known: MemId) -> MemId
    ensures { result.0 ≡ with_param (λ y. known.0) (parameter p.now) x.0 }
{
    if x.0 != p.binder.id.0 {
        return known;
    }
    memory_of(p).unwrap_or(known)
}

/// The memory of a name among the parameters; the first memory of the unit for any other name.
fn home_of_param(params: &[Param], x: Id) -> MemId
    ensures { result.0 ≡ param_homes (map parameter params.now) x.0 }
{
    let mut home = MemId(0);
    for p in params {
        home = home_with(p, x, home);
    }
    home
}

/// What a statement says of the memory of a name behind it.
fn found_by(s: &Stmt, x: Id) -> Found
    ensures { (home : Homes) → homes_after home (statement s.now) x.0 ≡ found_in home result }
{
    match s {
        Stmt::Alloc(b, _, _, m) => {
            if x.0 == b.id.0 {
                Found::Memory(*m)
            } else {
                Found::Name(x)
            }
        }
        Stmt::View(w, y, _) => {
            if x.0 == w.id.0 {
                Found::Name(*y)
            } else {
                Found::Name(x)
            }
        }
        _ => Found::Name(x),
    }
}

/// How many statements are looked through for a name behind this one: all of them, where it binds a name, else as many as before it.
pub(crate) fn bound_after(s: &Stmt, before: usize, all: usize) -> usize
    ensures { result ≡ (if binds (statement s.now) then all else before) }
{
    match s {
        Stmt::Alloc(_, _, _, _) => all,
        Stmt::View(_, _, _) => all,
        _ => before,
    }
}

/// What the first `upto` statements of a block say of the memory of a name behind them.
fn found_in_block(b: &Block, upto: usize, x: Id) -> Found
    ensures { (home : Homes) → homes_past home (take upto b.now) x.0 ≡ found_in home result }
{
    let count = upto.min(b.len());
    let mut name = x;
    for k in 0..count {
        match found_by(b.statement(count - 1 - k), name) {
            Found::Memory(m) => return Found::Memory(m),
            Found::Name(y) => name = y,
        }
    }
    Found::Name(name)
}

/// The memory that a name stands in; the first memory of the unit where it names no buffer.
fn home(scope: &Scope, x: Id) -> MemId
    ensures { result.0 ≡ homes_in scope.now x.0 }
{
    match scope {
        Scope::Params(params) => home_of_param(params.as_slice(), x),
        Scope::Block(b, upto, around) => match found_in_block(b, *upto, x) {
            Found::Memory(m) => m,
            Found::Name(y) => home(around, y),
        },
    }
}

/// The memory that a name stands in, which is looked for only where it is not remembered.
#[tactic(auto, using(crate::proofs::Remembered::kept_true))]
pub(crate) fn recall(scope: &Scope, recent: &mut Recent, x: Id) -> MemId
    requires { AreTrue recent.old (homes_in scope.now) }
    ensures value { result.0 ≡ homes_in scope.now x.0 }
    ensures kept { AreTrue recent.new (homes_in scope.now) }
{
    if let Some(m) = recent.get(x) {
        return m;
    }
    let m = home(scope, x);
    recent.put(x, m);
    m
}

/// Remembers the memory of the name that a statement binds.
pub(crate) fn remember(scope: &Scope, recent: &mut Recent, s: &Stmt)
    requires { AreTrue recent.old (homes_in scope.now) }
    ensures { AreTrue recent.new (homes_after (homes_in scope.now) (statement s.now)) }
{
    match s {
        Stmt::Alloc(b, _, _, m) => recent.put(b.id, *m),
        Stmt::View(w, x, _) => {
            let m = recall(scope, recent, *x);
            recent.put(w.id, m);
        }
        _ => {}
    }
}
