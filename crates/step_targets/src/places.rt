//! Places in what is found and in what is made.
ghost use Rattle.std.specs.Prelude.{◌≡◌, ◌≤◌, ◌+◌, [], ◌∷◌, ◌++◌, map, length, IfOk, OnOk};
ghost use Rattle.exo_tree.specs.Places.{Main};
ghost use Rattle.exo_tree.specs.PlainPlace.{step_taken};
ghost use Rattle.cursor_forward.specs.Shifts as shifts;
ghost use Rattle.place_laws.specs.Scope.PlacesCompose as plain;
ghost use Rattle.loop_laws.specs.Shapes as shapes;

use exo_tree::{Branch, Path, Step};
use std::alloc::{AllocError, Global};

/// The step to the first statement of a block.
pub const FIRST: Step = Step {
    branch: Branch::Main,
    index: 0,
};

/// The step to the statement of a number.
pub fn numbered(index: u32) -> Step
    ensures { step_taken result ≡ record { branch = Main; index = index } }
{
    Step {
        branch: Branch::Main,
        index,
    }
}

/// The path to the statement of a number of a piece.
pub fn at_index(index: u32) -> Path
    ensures { result ≡ shifts.at_index index }
{
    let mut path = Path::new();
    path.push(numbered(index));
    path
}

/// The path to the first statement so many blocks below the first one.
#[tactic(auto, using(crate::proofs::Made::inside_more, crate::proofs::Made::inside_long))]
pub fn path_below(depth: u8) -> Path
    requires { depth ≤ 8 }
    ensures { result ≡ shapes.inside depth }
{
    let mut path = Path::new();
    path.push(FIRST);
    for _ in 0..depth {
        path.push(FIRST);
    }
    path
}

/// The last step of a path, so many statements further on.
fn moved_on(s: Step, index: u32) -> Result<Step, AllocError>
    ensures { IfOk result (λ t. step_taken t ≡ record (step_taken s) { index = s.index + index }) }
{
    match s.index.checked_add(index) {
        None => Err(AllocError),
        Some(index) => Ok(Step {
            branch: s.branch,
            index,
        }),
    }
}

/// Puts a step last. Where the path has no room for it, it is answered as want of memory.
fn put(path: &mut Path, s: Step) -> Result<(), AllocError>
    ensures { OnOk result (path.new ≡ path.old ++ step_taken s ∷ []) }
{
    if path.len() == 32 {
        return Err(AllocError);
    }
    path.push(s);
    Ok(())
}

/// Puts steps last.
#[tactic(auto, using(crate::proofs::Made::put_more, crate::proofs::Made::put_none))]
fn put_all(path: &mut Path, steps: &[Step]) -> Result<(), AllocError>
    ensures { OnOk result (path.new ≡ path.old ++ map step_taken steps.now) }
{
    match steps.split_first() {
        None => Ok(()),
        Some((s, rest)) => {
            put(path, *s)?;
            put_all(path, rest)
        }
    }
}

/// Puts a step and others last.
#[tactic(auto, using(crate::proofs::Made::put_more))]
fn put_from(path: &mut Path, first: Step, rest: &[Step]) -> Result<(), AllocError>
    ensures { OnOk result (path.new ≡ path.old ++ step_taken first ∷ map step_taken rest.now) }
{
    put(path, first)?;
    put_all(path, rest)
}

/// Puts the path last that leads from the statement so many behind the one at a path on.
#[tactic(auto, using(crate::proofs::Made::put_more, crate::proofs::Made::none_onward, crate::proofs::Made::last_onward, crate::proofs::Made::more_onward))]
fn put_onward(path: &mut Path, at: &[Step], index: u32, below: &[Step]) -> Result<(), AllocError>
    ensures { OnOk result (path.new
        ≡ path.old
        ++ plain.onward (map step_taken at.now) (record { branch = Main; index = index })
        (map step_taken below.now)) }
{
    match at.split_first() {
        None => { put_from(path, numbered(index), below) }
        Some((s, more)) => {
            if more.is_empty() {
                return put_from(path, moved_on(*s, index)?, below);
            }
            put(path, *s)?;
            put_onward(path, more, index, below)
        }
    }
}

/// The path that leads from the statement so many behind the one at a path on. Where a path has no
/// room for it, it is answered as want of memory.
pub fn path_onward(at: &Path, index: u32, below: &[Step]) -> Result<Path, AllocError>
    ensures { IfOk result (λ p. p ≡ plain.onward at.now (record { branch = Main; index = index })
        (map step_taken below.now)) }
{
    let mut path = Path::new();
    put_onward(&mut path, at.as_slice(), index, below)?;
    Ok(path)
}
