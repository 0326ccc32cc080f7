//! The table of a procedure's names.
ghost use Rattle.std.specs.Prelude.{◌≡◌, [], ◌∷◌, ◌++◌, map, IfOk, OnOk};
ghost use Rattle.exo_tree.specs.Tree.{block};
ghost use Rattle.exo_tree.specs.PlainBinder.{binding};
ghost use Rattle.exo_tree.specs.PlainParam.{parameter};
ghost use Rattle.exo_tree.specs.PlainStatement.{statement};
ghost use Rattle.exo_tree.specs.PlainProcedure.{procedure};
ghost use Rattle.c_tree.specs.Names.Binders.{binders_in, binders_of, param_binders, all_binders};
ghost use Rattle.c_tree.specs.Names.Binders.{names_of, called, c_names, name_in};

use crate::names::globals::Globals;
use crate::names::names::c_name;
use exo_tree::{Binder, Block, Id, Name, Param, Proc, Stmt};
use std::alloc::{AllocError, Global};
use std::marker::Model;

/// The C names of a procedure's binders.
pub struct NameTable {
    entries: Vec<Binder>,
}

impl Drop for NameTable {
    fn drop(self) {
        let Self { entries: _ } = self;
    }
}

impl Model for NameTable {
    ghost use Rattle.std.specs.Prelude.{List, map};
    ghost use Rattle.std.specs.Coded.{coded_list};
    ghost use Rattle.exo_tree.specs.Tree.{Binder};
    ghost use Rattle.exo_tree.specs.Codes.{binder_code};
    ghost use Rattle.exo_tree.specs.PlainBinder.{binding};

    ghost Value = { List Binder };

    ghost coded = { coded_list binder_code };

    ghost view = { λ t. map binding t.entries.items };
}

impl NameTable {
    /// The names of the binders of a procedure, beside functions and fields with the names `globals`.
    pub fn new(alloc: Global, globals: &Globals<'_>, p: &Proc) -> Result<NameTable, AllocError>
        ensures { IfOk result (λ t. t ≡ c_names globals.now (procedure p.now)) }
    {
        let binders = all_binders(alloc, p)?;
        let names = names_of(alloc, &binders)?;
        let mut entries = Vec::new(alloc);
        for b in &binders {
            let name = c_name(alloc, globals, &names, &b.name)?;
            entries.push(Binder { id: b.id, name })?;
        }
        Ok(NameTable { entries })
    }

    /// The C name of the binder of that number; empty where there is none.
    pub fn name(&self, x: Id) -> &str
        ensures { result.now ≡ name_in self.now x.0 }
    {
        for b in &self.entries {
            if x.0 == b.id.0 {
                return b.name.as_str();
            }
        }
        ""
    }
}

/// The names of binders.
fn names_of(alloc: Global, binders: &[Binder]) -> Result<Vec<Name>, AllocError>
    ensures { IfOk result (λ v. v.items ≡ names_of (map binding binders.now)) }
{
    let mut names = Vec::new(alloc);
    for b in binders {
        names.push(b.name.duplicate(alloc)?)?;
    }
    Ok(names)
}

/// The parameters, and then the binders of the body in the order of the text.
fn all_binders(alloc: Global, p: &Proc) -> Result<Vec<Binder>, AllocError>
    ensures { IfOk result (λ v. map binding v.items ≡ all_binders (procedure p.now)) }
{
    let mut binders = Vec::new(alloc);
    put_params(alloc, &mut binders, p.params.as_slice())?;
    put_block(alloc, &mut binders, &p.body)?;
    Ok(binders)
}

/// Appends a binder.
fn put_binder(alloc: Global, out: &mut Vec<Binder>, b: &Binder) -> Result<(), AllocError>
    ensures { OnOk result (map binding out.new.items ≡ map binding out.old.items ++ binding b.now ∷ []) }
{
    out.push(b.duplicate(alloc)?)?;
    Ok(())
}

/// Appends parameters.
fn put_params(alloc: Global, out: &mut Vec<Binder>, params: &[Param]) -> Result<(), AllocError>
    ensures { OnOk result (map binding out.new.items ≡ map binding out.old.items ++ param_binders (map parameter params.now)) }
{
    for p in params {
        put_binder(alloc, out, &p.binder)?;
    }
    Ok(())
}

/// Appends the binders of a block.
#[cycle(put)]
fn put_block(alloc: Global, out: &mut Vec<Binder>, b: &Block) -> Result<(), AllocError>
    ensures { OnOk result (map binding out.new.items ≡ map binding out.old.items ++ binders_in (block b.now)) }
{
    for k in 0..b.len() {
        put_statement(alloc, out, b.statement(k))?;
    }
    Ok(())
}

/// Appends the binders of a statement.
#[cycle(put)]
fn put_statement(alloc: Global, out: &mut Vec<Binder>, s: &Stmt) -> Result<(), AllocError>
    ensures { OnOk result (map binding out.new.items ≡ map binding out.old.items ++ binders_of (statement s.now)) }
{
    match s {
        Stmt::If(_, a, b) => {
            put_block(alloc, out, a)?;
            put_block(alloc, out, b)
        }
        Stmt::For(i, _, _, body) => {
            put_binder(alloc, out, i)?;
            put_block(alloc, out, body)
        }
        Stmt::Alloc(x, _, _, _) | Stmt::View(x, _, _) => put_binder(alloc, out, x),
        _ => Ok(()),
    }
}
