//! The text line of what is refused.
ghost use Rattle.std.specs.Prelude.{◌≡◌, ℕ, [], map, option_map, slice_get, slice_index_or};
ghost use Rattle.std.specs.List.{position_or_len};
ghost use Rattle.exo_tree.specs.Tree.{block};
ghost use Rattle.exo_tree.specs.Nodes.{capped};
ghost use Rattle.exo_tree.specs.Places.{Main};
ghost use Rattle.exo_tree.specs.PlainPlace.{branch_taken, step_taken};
ghost use Rattle.exo_tree.specs.PlainProcedure.{procedure};
ghost use Rattle.exo_tree.specs.PlainStatement.{statement};
ghost use Rattle.exo_tree.specs.PlainUnit.{program};
ghost use Rattle.bounds_check.specs.Paths.{same_path};
ghost use Rattle.unit_check.specs.Preorder.{before, block_paths, line_in, line_of, place_in, place_of};

use crate::refused::UnitRefused;
use exo_tree::{
    Block, Branch, Path, Proc, ProcId, ProcLines, Step, Stmt, Unit, count_first, count_statements,
};

// Counts stop at the greatest number of 64 bits: no procedure has so many lines.

/// The number of statements inside a statement before those of a branch.
fn count_before(s: &Stmt, branch: Branch) -> usize
    ensures { result ≡ capped (before (branch_taken branch) (statement s.now)) }
{
    match (s, branch) {
        (Stmt::If(_, a, _), Branch::Else) => count_statements(a),
        _ => 0,
    }
}

/// How many statements stand before the one at a path of the block, in preorder; None where it has no such statement.
fn place_in(b: &Block, steps: &[Step]) -> Option<usize>
    ensures { result ≡ option_map capped (place_in (map step_taken steps.now) (block b.now)) }
{
    let (step, rest) = steps.split_first()?;
    let k = step.index as usize;
    let s = b.get(k)?;
    let outside = count_first(b, k);
    match rest.first() {
        None => Some(outside),
        Some(next) => {
            let inside = place_in(s.block(next.branch)?, rest)?;
            let skipped = outside.saturating_add(count_before(s, next.branch));
            Some(skipped.saturating_add(inside).saturating_add(1))
        }
    }
}

/// How many statements stand before the one at a path of a procedure's body; None where it has no such statement.
fn place_of(body: &Block, steps: &[Step]) -> Option<usize>
    ensures { result ≡ option_map capped (place_of (map step_taken steps.now) (block body.now)) }
{
    match steps.first()?.branch {
        Branch::Main => place_in(body, steps),
        Branch::Else => None,
    }
}

/// The same number; that of all statements where there is no such statement.
fn number_of(body: &Block, steps: &[Step]) -> usize
    ensures { result ≡ capped (position_or_len (same_path (map step_taken steps.now)) (block_paths [] Main 0 (block body.now))) }
{
    match place_of(body, steps) {
        Some(number) => number,
        None => count_statements(body),
    }
}

/// The line of that number; 0 where there are not so many.
fn numbered(lines: &[u32], number: usize) -> u32
    ensures { (n : ℕ) → number ≡ capped n → result ≡ slice_index_or lines.now n 0 }
{
    if number < lines.len() {
        lines[number]
    } else {
        0
    }
}

/// The text line of the statement at a path of the procedure; that of its `def` for the empty path; 0 where the text has no such line.
fn line_in_procedure(proc: &Proc, lines: &ProcLines, path: &Path) -> u32
    ensures { result ≡ line_of (procedure proc.now) lines.now path.now }
{
    let steps = path.as_slice();
    if steps.is_empty() {
        return lines.def;
    }
    numbered(lines.statements.as_slice(), number_of(&proc.body, steps))
}

/// The text line of the statement at a path of a procedure of the unit; 0 where it has no such procedure.
fn line_at(unit: &Unit, p: ProcId, path: &Path) -> u32
    ensures { result ≡ line_in (slice_get (program unit.now).procedures p.0) (slice_get unit.now.lines p.0) path.now }
{
    let k = p.0 as usize;
    match (unit.procs.get(k), unit.lines.get(k)) {
        (Some(proc), Some(lines)) => line_in_procedure(proc, lines, path),
        _ => 0,
    }
}

/// The text line that a refusal names: that of the statement that owes what is not shown, and that of the procedure's `def`
/// for what a parameter owes and for every `Check`.
pub fn line_of(unit: &Unit, refused: &UnitRefused) -> u32
    ensures { result
        ≡ line_in (slice_get (program unit.now).procedures refused.now.proc.0)
        (slice_get unit.now.lines refused.now.proc.0) refused.now.place }
{
    line_at(unit, refused.proc, &refused.place)
}
