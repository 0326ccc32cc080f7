//! Lists of names.
ghost use Rattle.std.specs.Prelude.{◌≡◌, [], ◌∷◌, ◌++◌, map, if◌then◌else◌, IfOk, OnOk};
ghost use Rattle.exo_tree.specs.Tree.{block};
ghost use Rattle.exo_tree.specs.PlainBinder.{binding};
ghost use Rattle.exo_tree.specs.PlainParam.{parameter};
ghost use Rattle.exo_tree.specs.PlainStatement.{statement};
ghost use Rattle.exo_meaning.specs.Units.{is_text};
ghost use Rattle.tree_edits.specs.Made.Names as plain;
ghost use Rattle.tree_edits.specs.Made.Names.{binder_names, names_below, names_of, own_name};
ghost use Rattle.tree_edits.specs.Made.Names.{top_name};
ghost use Rattle.tree_edits.specs.Made.Walked.{top_level};

use exo_tree::{Binder, Block, Name, Param, Stmt};
use std::alloc::{AllocError, Global};

/// Whether the texts are the same.
fn is_same(one: &str, other: &str) -> bool
    ensures { result ≡ is_text one.now other.now }
{
    one == other
}

/// Whether the name is one of the list.
pub(crate) fn is_in(names: &[Name], x: &str) -> bool
    ensures { result ≡ plain.is_in names.now x.now }
{
    for name in names {
        if is_same(x, name.as_str()) {
            return true;
        }
    }
    false
}

/// Appends a copy of a name.
pub(crate) fn put(names: &mut Vec<Name>, alloc: Global, x: &Name) -> Result<(), AllocError>
    ensures { OnOk result (names.new.items ≡ names.old.items ++ x.now ∷ []) }
{
    names.push(x.duplicate(alloc)?)?;
    Ok(())
}

/// Appends the names of parameters.
pub(crate) fn put_params(
    names: &mut Vec<Name>,
    alloc: Global,
    params: &[Param],
) -> Result<(), AllocError>
    ensures { OnOk result (names.new.items ≡ names.old.items ++ names_of (map parameter params.now)) }
{
    for p in params {
        put(names, alloc, &p.binder.name)?;
    }
    Ok(())
}

/// Appends the names of the binders of a block.
#[cycle(names)]
pub(crate) fn put_block(names: &mut Vec<Name>, alloc: Global, b: &Block) -> Result<(), AllocError>
    ensures { OnOk result (names.new.items ≡ names.old.items ++ binder_names (block b.now)) }
{
    for k in 0..b.len() {
        put_statement(names, alloc, b.statement(k))?;
    }
    Ok(())
}

/// Appends the names of the binders of a statement.
#[cycle(names)]
fn put_statement(names: &mut Vec<Name>, alloc: Global, s: &Stmt) -> Result<(), AllocError>
    ensures { OnOk result (names.new.items ≡ names.old.items ++ names_below (statement s.now)) }
{
    match s {
        Stmt::If(_, a, b) => {
            put_block(names, alloc, a)?;
            put_block(names, alloc, b)
        }
        Stmt::For(i, _, _, b) => {
            put(names, alloc, &i.name)?;
            put_block(names, alloc, b)
        }
        Stmt::Alloc(x, _, _, _) | Stmt::View(x, _, _) => put(names, alloc, &x.name),
        _ => Ok(()),
    }
}

/// Whether a binder is one of a copy, where copies have ids from the given one on.
fn is_copy(x: &Binder, copies: Option<u32>) -> bool
    ensures { own_name copies (binding x.now) ≡ (if result then [] else x.now.name ∷ []) }
{
    match copies {
        None => false,
        Some(copies) => x.id.0 >= copies,
    }
}

/// Appends the name that a statement leaves to its block; where a first id of copies is given,
/// unless it is a copy's.
fn put_top(
    names: &mut Vec<Name>,
    alloc: Global,
    copies: Option<u32>,
    s: &Stmt,
) -> Result<(), AllocError>
    ensures { OnOk result (names.new.items ≡ names.old.items ++ top_name copies (statement s.now)) }
{
    match s {
        Stmt::Alloc(x, _, _, _) | Stmt::View(x, _, _) => {
            if is_copy(x, copies) {
                return Ok(());
            }
            put(names, alloc, &x.name)
        }
        _ => Ok(()),
    }
}

/// The names at the top level of a block; where a first id of copies is given, but for those of
/// copies.
fn top_names(alloc: Global, copies: Option<u32>, b: &Block) -> Result<Vec<Name>, AllocError>
    ensures { IfOk result (λ l. l.items ≡ plain.top_names copies (block b.now)) }
{
    let mut names = Vec::new(alloc);
    for k in 0..b.len() {
        put_top(&mut names, alloc, copies, b.statement(k))?;
    }
    Ok(names)
}

/// The names of the allocations and views at the top level of a block: those of no copy, and all.
pub(crate) struct Tops {
    pub(crate) own: Vec<Name>,
    pub(crate) all: Vec<Name>,
}

impl Drop for Tops {
    fn drop(self) {
        let Self { own: _, all: _ } = self;
    }
}

impl Tops {
    /// Those of a block.
    pub(crate) fn of(alloc: Global, copies: u32, b: &Block) -> Result<Tops, AllocError>
        ensures { IfOk result (λ t. top_level t ≡ plain.tops copies (block b.now)) }
    {
        let own = top_names(alloc, Some(copies), b)?;
        let all = top_names(alloc, None, b)?;
        Ok(Tops { own, all })
    }
}
