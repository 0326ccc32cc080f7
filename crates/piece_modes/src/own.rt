//! Whether statements at a place look at what they write.
ghost use Rattle.std.specs.Prelude.{◌≡◌, OnOk, IfOk};
ghost use Rattle.std.specs.List.{list_any};
ghost use Rattle.exo_tree.specs.Tree.{block};
ghost use Rattle.exo_tree.specs.Places.{opened};
ghost use Rattle.exo_tree.specs.PlainProcedure.{procedure};
ghost use Rattle.exo_tree.specs.PlainUnit.{program};
ghost use Rattle.exo_modes.specs.Aliases.{roots_in};
ghost use Rattle.exo_modes.specs.Marks.{modes_of};
ghost use Rattle.exo_modes.specs.Seen.{table_says};
ghost use Rattle.piece_modes.specs.Own.{looks_back, sees_own_root};
ghost use Rattle.piece_modes.specs.PlainMode.{plain_mode};
ghost use Rattle.piece_modes.specs.Touching.{block_touches};
ghost use Rattle.piece_modes.specs.Way.{around_of};
ghost use Rattle.place_laws.specs.Scope.Roots.{own_roots_at};

use crate::touches::{Mode, TouchQuestion};
use crate::way::Way;
use exo_modes::{Alias, ModeTable};
use exo_tree::{Block, Path, Proc, Unit};
use std::alloc::{AllocError, Global};

/// What names stand for at so many statements from a path on; where they are not there, at the
/// start of the body.
pub fn roots_at(alloc: Global, p: &Proc, path: &Path, count: u32) -> Result<Vec<Alias>, AllocError>
    ensures { IfOk result (λ v. roots_in v.items
        ≡ own_roots_at (around_of (opened count path.now (procedure p.now).body))) }
{
    let Way { aliases, names: _ } = Way::to(alloc, p, path, count)?;
    Ok(aliases)
}

/// Whether a block touches a buffer so, directly, through views, or through calls, by the table of
/// what each procedure of the unit touches. The aliases say what its names stand for before it.
pub fn touches_buffer(
    unit: &Unit,
    modes: &ModeTable,
    b: &Block,
    aliases: &mut Vec<Alias>,
    mode: Mode,
    y: u32,
) -> Result<bool, AllocError>
    requires { table_says modes.now ≡ modes_of (program unit.now) }
    ensures touches { IfOk result (λ r. r
        ≡ block_touches (program unit.now) (plain_mode mode) (roots_in aliases.old.items)
        (block b.now) y) }
    ensures kept { OnOk result (aliases.new.items ≡ aliases.old.items) }
{
    let asked = TouchQuestion {
        unit,
        modes,
        mode,
        buffer: y,
    };
    asked.block_touches(aliases, b)
}

/// Whether a block reduces into a buffer, or reads it and writes it.
fn looks_back(
    unit: &Unit,
    modes: &ModeTable,
    b: &Block,
    aliases: &mut Vec<Alias>,
    y: u32,
) -> Result<bool, AllocError>
    requires { table_says modes.now ≡ modes_of (program unit.now) }
    ensures looks { IfOk result (λ r. r
        ≡ looks_back (program unit.now) (roots_in aliases.old.items) (block b.now) y) }
    ensures kept { OnOk result (aliases.new.items ≡ aliases.old.items) }
{
    let reduces = touches_buffer(unit, modes, b, aliases, Mode::Reducing, y)?;
    let writes = touches_buffer(unit, modes, b, aliases, Mode::Writing, y)?;
    let reads = touches_buffer(unit, modes, b, aliases, Mode::Reading, y)?;
    Ok(reduces || (writes && reads))
}

/// Whether it does so with one of these buffers.
fn looks_back_at(
    unit: &Unit,
    modes: &ModeTable,
    b: &Block,
    aliases: &mut Vec<Alias>,
    buffers: &[u32],
) -> Result<bool, AllocError>
    requires { table_says modes.now ≡ modes_of (program unit.now) }
    ensures { IfOk result (λ r. r
        ≡ list_any (looks_back (program unit.now) (roots_in aliases.old.items) (block b.now))
        buffers.now) }
{
    for y in buffers {
        if looks_back(unit, modes, b, aliases, *y)? {
            return Ok(true);
        }
    }
    Ok(false)
}

/// Whether a block reduces into a buffer that is there before so many statements from a path on, or
/// reads one that it writes, directly, through views, or through calls, by the table of what each
/// procedure of the unit touches. Its names stand for what they stand for at that place; where the
/// statements are not there, for what they do at the start of the body.
pub fn sees_own_root(
    alloc: Global,
    unit: &Unit,
    modes: &ModeTable,
    p: &Proc,
    path: &Path,
    count: u32,
    body: &Block,
) -> Result<bool, AllocError>
    requires { table_says modes.now ≡ modes_of (program unit.now) }
    ensures { IfOk result (λ r. r
        ≡ sees_own_root (program unit.now) (procedure p.now)
        (around_of (opened count path.now (procedure p.now).body)) (block body.now)) }
{
    let Way { mut aliases, names } = Way::to(alloc, p, path, count)?;
    let found = looks_back_at(unit, modes, body, &mut aliases, &names)?;
    Ok(found)
}
