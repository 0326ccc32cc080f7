//! The claims of a procedure, statement by statement.
ghost use Rattle.std.specs.Prelude.{◌≡◌, ◌+◌, ◌<◌, ◌++◌, IsTrue, true, [], length, map, flat_map, OnOk, IfOk, zero};
ghost use Rattle.std.specs.List.{list_all};
ghost use Rattle.exo_tree.specs.Tree.{block};
ghost use Rattle.exo_tree.specs.PlainPlace.{branch_taken};
ghost use Rattle.exo_tree.specs.PlainParam.{parameter};
ghost use Rattle.exo_tree.specs.PlainArgument.{argument};
ghost use Rattle.exo_tree.specs.PlainStatement.{statement};
ghost use Rattle.exo_tree.specs.PlainProcedure.{procedure};
ghost use Rattle.exo_tree.specs.PlainUnit.{program};
ghost use Rattle.exo_meaning.specs.Units.{field_kind, is_short, levels, step_levels, IsUnit};
ghost use Rattle.exo_modes.specs.Marks.{modes_of};
ghost use Rattle.exo_modes.specs.Seen.{table_says};
ghost use Rattle.affine_places.specs.Roots.{roots_of, unit_roots};
ghost use Rattle.affine_places.specs.Seen.{roots_in};
ghost use Rattle.text_show.specs.Seen.{words_in};
ghost use Rattle.check_claims.specs.Claims.{write_claims, own_claims, block_claims};
ghost use Rattle.check_claims.specs.Claims.{inner_claims, param_claims, procedure_claims};
ghost use Rattle.check_claims.specs.Claims.{placed_at, claims_of, unit_claims};
ghost use Rattle.check_claims.specs.Claims.{claims_there, unit_claims_there};
ghost use Rattle.check_claims.specs.PlainClaim.{placed};
ghost use Rattle.check_claims.specs.Seen.{extents_in};
ghost use Rattle.check_claims.specs.Short.{is_short_inside, step_is_short, has_few_params};

use crate::bounds::{ClaimSite, put_sizes, put_store, put_window};
use crate::call::{put_call, put_given};
use crate::claim::Placed;
use crate::extents::{Extents, dims_of};
use crate::list::Claims;
use affine_places::Roots;
use exo_modes::ModeTable;
use exo_tree::{Arg, Block, Branch, FieldId, Param, Path, Proc, ProcId, Stmt, Unit, at};
use std::alloc::{AllocError, Global};
use text_show::Words;

/// The claim of a write of a configuration field.
fn put_write(
    alloc: Global,
    out: &mut Claims,
    site: &ClaimSite,
    f: FieldId,
    a: &Arg,
) -> Result<(), AllocError>
    ensures { OnOk result
        (out.new
        ≡ out.old
        ++ write_claims (words_in site.now.words.now)
        (field_kind (program site.now.unit.now).fields f.0) (argument a.now)) }
{
    match site.unit.fields.get(f.0 as usize) {
        None => Ok(()),
        Some(field) => put_given(alloc, out, site.words, field.kind, a),
    }
}

/// The claims of a statement itself.
pub(crate) fn put_own(
    alloc: Global,
    out: &mut Claims,
    site: &ClaimSite,
    s: &Stmt,
) -> Result<(), AllocError>
    ensures { OnOk result
        (out.new
        ≡ out.old
        ++ own_claims (words_in site.now.words.now) (program site.now.unit.now)
        (extents_in site.now.extents.now) (roots_in site.now.roots.now) (statement s.now)) }
{
    match s {
        Stmt::Assign(x, at, e) => put_store(alloc, out, site, *x, at.as_slice(), e),
        Stmt::Reduce(x, at, e) => put_store(alloc, out, site, *x, at.as_slice(), e),
        Stmt::Config(f, a) => put_write(alloc, out, site, *f, a),
        Stmt::Pass => Ok(()),
        Stmt::If(_, _, _) => Ok(()),
        Stmt::For(_, _, _, _) => Ok(()),
        Stmt::Alloc(_, _, dims, _) => put_sizes(alloc, out, site.words, dims.as_slice()),
        Stmt::View(_, x, coords) => put_window(
            alloc,
            out,
            site.words,
            coords.as_slice(),
            site.extents.get(*x),
        ),
        Stmt::Call(k, args) => put_call(alloc, out, site, *k, args),
    }
}

/// The claims of the statements of a block and of the blocks inside them.
#[cycle(walk)]
fn put_block(
    alloc: Global,
    out: &mut Vec<Placed>,
    site: &ClaimSite,
    outer: &Path,
    branch: Branch,
    b: &Block,
) -> Result<(), AllocError>
    requires short { is_short (block b.now) ≡ true }
    requires inside { is_short_inside (block b.now) ≡ true }
    requires levels { length outer.now + levels (block b.now) < 33 }
    ensures { OnOk result
        (map placed out.new.items
        ≡ map placed out.old.items
        ++ block_claims (words_in site.now.words.now) (program site.now.unit.now)
        (extents_in site.now.extents.now) (roots_in site.now.roots.now) outer.now
        (branch_taken branch) 0 (block b.now)) }
{
    for k in 0..b.len() {
        let s = b.statement(k);
        let path = outer.below(branch, k as u32);
        let mut own = Claims::new(alloc);
        put_own(alloc, &mut own, site, s)?;
        own.place(out, &path)?;
        put_inner(alloc, out, site, &path, s)?;
    }
    Ok(())
}

/// The claims of the blocks of the statement at the path.
#[tactic(auto, using(crate::proofs::Walks::left_least, crate::proofs::Walks::right_least))]
#[cycle(walk)]
fn put_inner(
    alloc: Global,
    out: &mut Vec<Placed>,
    site: &ClaimSite,
    path: &Path,
    s: &Stmt,
) -> Result<(), AllocError>
    requires inside { step_is_short (statement s.now) ≡ true }
    requires levels { length path.now + step_levels (statement s.now) < 33 }
    ensures { OnOk result
        (map placed out.new.items
        ≡ map placed out.old.items
        ++ inner_claims (words_in site.now.words.now) (program site.now.unit.now)
        (extents_in site.now.extents.now) (roots_in site.now.roots.now) path.now
        (statement s.now)) }
{
    match s {
        Stmt::If(_, a, b) => {
            put_block(alloc, out, site, path, Branch::Main, a)?;
            put_block(alloc, out, site, path, Branch::Else, b)
        }
        Stmt::For(_, _, _, b) => put_block(alloc, out, site, path, Branch::Main, b),
        _ => Ok(()),
    }
}

/// The claims of parameters: `1 <= d` for each dimension of a buffer.
pub(crate) fn put_params(
    alloc: Global,
    out: &mut Claims,
    words: &Words,
    params: &[Param],
) -> Result<(), AllocError>
    ensures { OnOk result (out.new ≡ out.old ++ param_claims (words_in words.now) (map parameter params.now)) }
{
    for p in params {
        put_sizes(alloc, out, words, dims_of(&p.kind))?;
    }
    Ok(())
}

/// Puts the claims of a procedure of the unit last: those of its parameters, then those of its body.
fn put_procedure(
    alloc: Global,
    out: &mut Vec<Placed>,
    site: &ClaimSite,
    p: &Proc,
) -> Result<(), AllocError>
    requires short { is_short (block p.now.body) ≡ true }
    requires inside { is_short_inside (block p.now.body) ≡ true }
    requires levels { levels (block p.now.body) < 33 }
    ensures { OnOk result
        (map placed out.new.items
        ≡ map placed out.old.items
        ++ procedure_claims (words_in site.now.words.now) (program site.now.unit.now)
        (extents_in site.now.extents.now) (roots_in site.now.roots.now) (procedure p.now)) }
{
    let top = Path::new();
    let mut own = Claims::new(alloc);
    put_params(alloc, &mut own, site.words, p.params.as_slice())?;
    own.place(out, &top)?;
    put_block(alloc, out, site, &top, Branch::Main, &p.body)
}

/// Puts the claims of a procedure of the unit last.
fn put_claims(
    alloc: Global,
    out: &mut Vec<Placed>,
    unit: &Unit,
    modes: &ModeTable,
    roots: &Roots<'_>,
    p: &Proc,
) -> Result<(), AllocError>
    requires short { is_short (block p.now.body) ≡ true }
    requires inside { is_short_inside (block p.now.body) ≡ true }
    requires levels { levels (block p.now.body) < 33 }
    requires few { IsTrue (list_all has_few_params (program unit.now).procedures) }
    requires modes { table_says modes.now ≡ modes_of (program unit.now) }
    requires roots { roots_in roots.now ≡ roots_of (procedure p.now) }
    ensures { OnOk result (map placed out.new.items ≡ map placed out.old.items ++ claims_of (program unit.now) (procedure p.now)) }
{
    let words = Words::new(alloc, unit, p)?;
    let extents = Extents::of(alloc, p)?;
    let site = ClaimSite {
        unit,
        modes,
        words: &words,
        extents: &extents,
        roots,
    };
    put_procedure(alloc, out, &site, p)
}

/// What the procedure `p` of the unit has to show so that no run of it faults, in text order; nothing where the unit has no such
/// procedure. The modes are those of the unit's procedures, the roots those of the names of `p`. A claim's text is in the words of
/// the procedure, that of a callee's assertion in the words of the callee.
pub fn claims_of(
    alloc: Global,
    unit: &Unit,
    modes: &ModeTable,
    roots: &Roots<'_>,
    p: ProcId,
) -> Result<Vec<Placed>, AllocError>
    requires unit { IsUnit (program unit.now) }
    requires modes { table_says modes.now ≡ modes_of (program unit.now) }
    requires roots { roots_in roots.now ≡ unit_roots (program unit.now) p.0 }
    ensures { IfOk result (λ l. map placed l.items ≡ unit_claims (program unit.now) p.0) }
{
    let mut out = Vec::new(alloc);
    if let Some(found) = unit.procs.get(p.0 as usize) {
        put_claims(alloc, &mut out, unit, modes, roots, found)?;
    }
    Ok(out)
}

/// The claims of a statement itself, with its path.
fn placed_own(
    alloc: Global,
    site: &ClaimSite,
    path: &Path,
    s: &Stmt,
) -> Result<Vec<Placed>, AllocError>
    ensures { IfOk result (λ l. map placed l.items
        ≡ placed_at path.now
        (own_claims (words_in site.now.words.now) (program site.now.unit.now)
        (extents_in site.now.extents.now) (roots_in site.now.roots.now) (statement s.now))) }
{
    let mut out = Vec::new(alloc);
    let mut own = Claims::new(alloc);
    put_own(alloc, &mut own, site, s)?;
    own.place(&mut out, path)?;
    Ok(out)
}

/// The claims of the statement at a path of a procedure of the unit.
fn own_there(
    alloc: Global,
    unit: &Unit,
    modes: &ModeTable,
    roots: &Roots<'_>,
    p: &Proc,
    path: &Path,
) -> Result<Vec<Placed>, AllocError>
    requires few { IsTrue (list_all has_few_params (program unit.now).procedures) }
    requires modes { table_says modes.now ≡ modes_of (program unit.now) }
    requires roots { roots_in roots.now ≡ roots_of (procedure p.now) }
    ensures { IfOk result (λ l. map placed l.items
        ≡ claims_there (program unit.now) (procedure p.now) path.now) }
{
    let Some(s) = at(p, path) else {
        return Ok(Vec::new(alloc));
    };
    let words = Words::new(alloc, unit, p)?;
    let extents = Extents::of(alloc, p)?;
    let site = ClaimSite {
        unit,
        modes,
        words: &words,
        extents: &extents,
        roots,
    };
    placed_own(alloc, &site, path, s)
}

/// Those of them that the statement at a path has to show itself, without the blocks inside it;
/// nothing where no statement stands there.
pub fn claims_there(
    alloc: Global,
    unit: &Unit,
    modes: &ModeTable,
    roots: &Roots<'_>,
    p: ProcId,
    path: &Path,
) -> Result<Vec<Placed>, AllocError>
    requires unit { IsUnit (program unit.now) }
    requires modes { table_says modes.now ≡ modes_of (program unit.now) }
    requires roots { roots_in roots.now ≡ unit_roots (program unit.now) p.0 }
    ensures { IfOk result (λ l. map placed l.items
        ≡ unit_claims_there (program unit.now) p.0 path.now) }
{
    match unit.procs.get(p.0 as usize) {
        None => Ok(Vec::new(alloc)),
        Some(found) => own_there(alloc, unit, modes, roots, found, path),
    }
}
