//! The claims of a procedure, so many places at a time.
ghost use Rattle.std.specs.Prelude.{◌≡◌, ◌++◌, ◌+◌, ◌<◌, IsTrue, true, [], map, OnOk, IfOk, Some};
ghost use Rattle.std.specs.Prelude.{length, slice_get};
ghost use Rattle.std.specs.List.{list_all};
ghost use Rattle.exo_tree.specs.Tree.{Procedure, block};
ghost use Rattle.exo_tree.specs.PlainPlace.{branch_taken};
ghost use Rattle.exo_tree.specs.PlainParam.{parameter};
ghost use Rattle.exo_tree.specs.PlainStatement.{statement};
ghost use Rattle.exo_tree.specs.PlainProcedure.{procedure};
ghost use Rattle.exo_tree.specs.PlainUnit.{program};
ghost use Rattle.exo_meaning.specs.Units.{is_short, levels, step_levels, IsUnit};
ghost use Rattle.exo_modes.specs.Marks.{modes_of};
ghost use Rattle.exo_modes.specs.Seen.{table_says};
ghost use Rattle.affine_places.specs.Roots.{roots_of, unit_roots};
ghost use Rattle.affine_places.specs.Seen.{roots_in};
ghost use Rattle.text_show.specs.Seen.{words_in};
ghost use Rattle.check_claims.specs.Claims.{own_claims, param_claims, placed_at};
ghost use Rattle.exo_tree.specs.Places.{path_below};
ghost use Rattle.check_claims.specs.PlainClaim.{placed};
ghost use Rattle.check_claims.specs.Places.{block_places, inner_places, places_of};
ghost use Rattle.check_claims.specs.Places.{with_place, with_places};
ghost use Rattle.check_claims.specs.Places.{claims_between, has_more};
ghost use Rattle.check_claims.specs.Places.{unit_claims_between, unit_has_more};
ghost use Rattle.check_claims.specs.Seen.{extents_in};
ghost use Rattle.check_claims.specs.Sources.{AreSources};
ghost use Rattle.check_claims.specs.Short.{is_short_inside, step_is_short, has_few_params};

use crate::bounds::ClaimSite;
use crate::claim::Placed;
use crate::list::Claims;
use crate::sources::Sources;
use crate::walk::{put_own, put_params};
use affine_places::Roots;
use exo_modes::ModeTable;
use exo_tree::{Block, Branch, Param, Path, Proc, ProcId, Stmt, Unit};
use std::alloc::{AllocError, Global};
use text_show::Words;

/// Which of the places that come are taken: so many are passed over, and then so many are taken.
#[derive(Clone, Copy)]
pub(crate) struct Window {
    pub(crate) skip: usize,
    pub(crate) left: usize,
    /// Whether a place came behind those.
    pub(crate) more: bool,
}

impl Window {
    ghost use Rattle.std.specs.Prelude.{◌≡◌};
    ghost use Rattle.std.specs.Prelude.{List, true};
    ghost use Rattle.check_claims.specs.Claim as plain;
    ghost use Rattle.check_claims.specs.Places.{Place, moved, takes, with_places};

    /// Goes on over a place, and tells whether it is taken.
    fn takes_next(&mut self) -> bool
        ensures taken { result ≡ takes self.old }
        ensures moved { self.new ≡ moved self.old }
    {
        if self.skip > 0 {
            self.skip -= 1;
            return false;
        }
        if self.left > 0 {
            self.left -= 1;
            return true;
        }
        self.more = true;
        false
    }

    /// Whether no place that comes changes anything any more.
    fn is_past(&self) -> bool
        ensures { result ≡ true → (os : List plain.Placed) (is : List Place)
            → with_places (os, self.now) is ≡ (os, self.now) }
    {
        if self.skip > 0 {
            return false;
        }
        if self.left > 0 {
            return false;
        }
        self.more
    }
}

/// The claims of some places of a procedure.
#[derive(Drop)]
pub struct Part {
    pub claims: Vec<Placed>,
    /// Whether the procedure has a place behind those.
    pub more: bool,
}

/// Puts the own claims of the statement of that number in a branch of the statement at a path last.
fn put_taken(
    alloc: Global,
    out: &mut Vec<Placed>,
    site: &ClaimSite,
    outer: &Path,
    branch: Branch,
    k: u32,
    s: &Stmt,
) -> Result<(), AllocError>
    requires { length outer.now < 32 }
    ensures { OnOk result
        (map placed out.new.items
        ≡ map placed out.old.items
        ++ placed_at (path_below outer.now (branch_taken branch) k)
        (own_claims (words_in site.now.words.now) (program site.now.unit.now)
        (extents_in site.now.extents.now) (roots_in site.now.roots.now) (statement s.now))) }
{
    let path = outer.below(branch, k);
    let mut own = Claims::new(alloc);
    put_own(alloc, &mut own, site, s)?;
    own.place(out, &path)
}

/// Goes on over the statement of that number in a branch of the statement at a path: puts its own
/// claims last, if it is taken.
fn put_place(
    alloc: Global,
    out: &mut Vec<Placed>,
    site: &ClaimSite,
    window: &mut Window,
    outer: &Path,
    branch: Branch,
    k: u32,
    s: &Stmt,
) -> Result<(), AllocError>
    requires { length outer.now < 32 }
    ensures { OnOk result
        ((map placed out.new.items, window.new)
        ≡ with_place (map placed out.old.items, window.old) (
          path_below outer.now (branch_taken branch) k,
          own_claims (words_in site.now.words.now) (program site.now.unit.now)
              (extents_in site.now.extents.now) (roots_in site.now.roots.now) (statement s.now),
        )) }
{
    if window.takes_next() {
        put_taken(alloc, out, site, outer, branch, k, s)?;
    }
    Ok(())
}

/// Goes on over the statements of a block and of the blocks inside them.
#[cycle(walk)]
fn put_block_places(
    alloc: Global,
    out: &mut Vec<Placed>,
    site: &ClaimSite,
    window: &mut Window,
    outer: &Path,
    branch: Branch,
    b: &Block,
) -> Result<(), AllocError>
    requires short { is_short (block b.now) ≡ true }
    requires inside { is_short_inside (block b.now) ≡ true }
    requires levels { length outer.now + levels (block b.now) < 33 }
    ensures { OnOk result
        ((map placed out.new.items, window.new)
        ≡ with_places (map placed out.old.items, window.old)
        (block_places (words_in site.now.words.now) (program site.now.unit.now)
        (extents_in site.now.extents.now) (roots_in site.now.roots.now) outer.now
        (branch_taken branch) 0 (block b.now))) }
{
    for k in 0..b.len() {
        if window.is_past() {
            return Ok(());
        }
        let s = b.statement(k);
        put_place(alloc, out, site, window, outer, branch, k as u32, s)?;
        put_inner_places(alloc, out, site, window, outer, branch, k as u32, s)?;
    }
    Ok(())
}

/// Goes on over the blocks of the statement of that number in a branch of the statement at a path.
#[tactic(auto, using(crate::proofs::Walks::left_least, crate::proofs::Walks::right_least))]
#[cycle(walk)]
fn put_inner_places(
    alloc: Global,
    out: &mut Vec<Placed>,
    site: &ClaimSite,
    window: &mut Window,
    outer: &Path,
    branch: Branch,
    k: u32,
    s: &Stmt,
) -> Result<(), AllocError>
    requires inside { step_is_short (statement s.now) ≡ true }
    requires levels { length outer.now + step_levels (statement s.now) < 32 }
    ensures { OnOk result
        ((map placed out.new.items, window.new)
        ≡ with_places (map placed out.old.items, window.old)
        (inner_places (words_in site.now.words.now) (program site.now.unit.now)
        (extents_in site.now.extents.now) (roots_in site.now.roots.now)
        (path_below outer.now (branch_taken branch) k) (statement s.now))) }
{
    match s {
        Stmt::If(_, a, b) => {
            put_under(alloc, out, site, window, outer, branch, k, Branch::Main, a)?;
            put_under(alloc, out, site, window, outer, branch, k, Branch::Else, b)
        }
        Stmt::For(_, _, _, b) => {
            put_under(alloc, out, site, window, outer, branch, k, Branch::Main, b)
        }
        _ => Ok(()),
    }
}

/// Goes on over one block of that statement.
#[tactic(auto, using(crate::proofs::Walks::below_length))]
#[cycle(walk)]
fn put_under(
    alloc: Global,
    out: &mut Vec<Placed>,
    site: &ClaimSite,
    window: &mut Window,
    outer: &Path,
    branch: Branch,
    k: u32,
    inner: Branch,
    b: &Block,
) -> Result<(), AllocError>
    requires short { is_short (block b.now) ≡ true }
    requires inside { is_short_inside (block b.now) ≡ true }
    requires levels { length outer.now + levels (block b.now) < 32 }
    ensures { OnOk result
        ((map placed out.new.items, window.new)
        ≡ with_places (map placed out.old.items, window.old)
        (block_places (words_in site.now.words.now) (program site.now.unit.now)
        (extents_in site.now.extents.now) (roots_in site.now.roots.now)
        (path_below outer.now (branch_taken branch) k) (branch_taken inner) 0 (block b.now))) }
{
    let path = outer.below(branch, k);
    put_block_places(alloc, out, site, window, &path, inner, b)
}

/// Goes on over the parameters of a procedure, which are its first place.
fn put_head(
    alloc: Global,
    out: &mut Vec<Placed>,
    words: &Words,
    window: &mut Window,
    params: &[Param],
) -> Result<(), AllocError>
    ensures { OnOk result
        ((map placed out.new.items, window.new)
        ≡ with_place (map placed out.old.items, window.old)
        ([], param_claims (words_in words.now) (map parameter params.now))) }
{
    if window.takes_next() {
        let mut own = Claims::new(alloc);
        put_params(alloc, &mut own, words, params)?;
        own.place(out, &Path::new())?;
    }
    Ok(())
}

/// Goes on over all places of a procedure of the unit.
fn put_places<'u>(
    alloc: Global,
    out: &mut Vec<Placed>,
    unit: &'u Unit,
    modes: &ModeTable,
    roots: &Roots<'_>,
    sources: &Sources<'u>,
    window: &mut Window,
    p: &Proc,
) -> Result<(), AllocError>
    requires short { is_short (block p.now.body) ≡ true }
    requires inside { is_short_inside (block p.now.body) ≡ true }
    requires levels { levels (block p.now.body) < 33 }
    requires few { IsTrue (list_all has_few_params (program unit.now).procedures) }
    requires modes { table_says modes.now ≡ modes_of (program unit.now) }
    requires roots { roots_in roots.now ≡ roots_of (procedure p.now) }
    requires sources { AreSources sources.now (program unit.now) (procedure p.now) }
    ensures { OnOk result
        ((map placed out.new.items, window.new)
        ≡ with_places (map placed out.old.items, window.old)
        (places_of (program unit.now) (procedure p.now))) }
{
    let site = ClaimSite {
        unit,
        modes,
        words: &sources.words,
        extents: &sources.extents,
        roots,
    };
    put_head(alloc, out, &sources.words, window, p.params.as_slice())?;
    put_block_places(
        alloc,
        out,
        &site,
        window,
        &Path::new(),
        Branch::Main,
        &p.body,
    )
}

/// For how many claims there is room at first: a small procedure has no more.
const COMMON: usize = 3;

/// The claims of so many places of a procedure of the unit, behind so many others.
fn part_of<'u>(
    alloc: Global,
    unit: &'u Unit,
    modes: &ModeTable,
    roots: &Roots<'_>,
    sources: &Sources<'u>,
    p: &Proc,
    skip: usize,
    count: usize,
) -> Result<Part, AllocError>
    requires short { is_short (block p.now.body) ≡ true }
    requires inside { is_short_inside (block p.now.body) ≡ true }
    requires levels { levels (block p.now.body) < 33 }
    requires few { IsTrue (list_all has_few_params (program unit.now).procedures) }
    requires modes { table_says modes.now ≡ modes_of (program unit.now) }
    requires roots { roots_in roots.now ≡ roots_of (procedure p.now) }
    requires sources { AreSources sources.now (program unit.now) (procedure p.now) }
    ensures claims { IfOk result (λ part. map placed part.claims.items
        ≡ claims_between (program unit.now) (procedure p.now) skip count) }
    ensures more { IfOk result (λ part. part.more
        ≡ has_more (program unit.now) (procedure p.now) skip count) }
{
    let mut claims = Vec::with_capacity(alloc, COMMON)?;
    let mut window = Window {
        skip,
        left: count,
        more: false,
    };
    put_places(
        alloc,
        &mut claims,
        unit,
        modes,
        roots,
        sources,
        &mut window,
        p,
    )?;
    Ok(Part {
        claims,
        more: window.more,
    })
}

/// The claims of so many places of the procedure `p` of the unit, behind so many others: the first
/// place is that of its parameters, then come its statements, in text order. The parts one after
/// the other are what `claims_of` gives.
pub fn claims_between<'u>(
    alloc: Global,
    unit: &'u Unit,
    modes: &ModeTable,
    roots: &Roots<'_>,
    sources: &Sources<'u>,
    p: ProcId,
    skip: usize,
    count: usize,
) -> Result<Part, AllocError>
    requires unit { IsUnit (program unit.now) }
    requires modes { table_says modes.now ≡ modes_of (program unit.now) }
    requires roots { roots_in roots.now ≡ unit_roots (program unit.now) p.0 }
    requires sources { (q : Procedure)
        → slice_get (program unit.now).procedures p.0 ≡ Some q
        → AreSources sources.now (program unit.now) q }
    ensures claims { IfOk result (λ part. map placed part.claims.items
        ≡ unit_claims_between (program unit.now) p.0 skip count) }
    ensures more { IfOk result (λ part. part.more
        ≡ unit_has_more (program unit.now) p.0 skip count) }
{
    match unit.procs.get(p.0 as usize) {
        None => Ok(Part {
            claims: Vec::new(alloc),
            more: false,
        }),
        Some(found) => part_of(alloc, unit, modes, roots, sources, found, skip, count),
    }
}
