//! Paths from parts.
ghost use Rattle.std.specs.Prelude.{◌≡◌, ◌∷◌, ◌++◌, ◌+◌, ◌≤◌, length, map, option_map, option_and_then};
ghost use Rattle.exo_tree.specs.Places.{same_step};
ghost use Rattle.exo_tree.specs.PlainPlace.{step_taken};
ghost use Rattle.cursor_forward.specs.Cursors.{earlier, inside, later, owner};
ghost use Rattle.cursor_forward.specs.Shifts.{beyond, held};

use exo_tree::{Branch, Path, Step};

/// The most steps that a path has.
const STEPS: usize = 32;

/// Whether the two steps are the same.
pub(crate) fn is_same_step(a: Step, b: Step) -> bool
    ensures { result ≡ same_step (step_taken a) (step_taken b) }
{
    a.branch == b.branch && a.index == b.index
}

/// Adds the steps.
fn add_steps(path: &mut Path, steps: &[Step])
    requires { length path.old + length steps.now ≤ 32 }
    ensures { path.new ≡ path.old ++ map step_taken steps.now }
{
    for step in steps {
        path.push(*step);
    }
}

/// The path of these parts; None exactly where it would have more than 32 steps.
pub(crate) fn joined(up: &[Step], last: Step, rest: &[Step]) -> Option<Path>
    ensures { result ≡ held (map step_taken up.now ++ step_taken last ∷ map step_taken rest.now) }
{
    if rest.len() >= STEPS || up.len() >= STEPS - rest.len() {
        return None;
    }
    let mut path = Path::new();
    add_steps(&mut path, up);
    path.push(last);
    add_steps(&mut path, rest);
    Some(path)
}

/// The path to the statement so many behind the one at a path, and further down.
pub(crate) fn beyond(to: &[Step], k: u32, rest: &[Step]) -> Option<Path>
    ensures { result ≡ option_and_then held (beyond (map step_taken to.now) k (map step_taken rest.now)) }
{
    let (last, up) = to.split_last()?;
    let index = last.index.checked_add(k)?;
    joined(
        up,
        Step {
            branch: last.branch,
            index,
        },
        rest,
    )
}

/// The path to the statement so many behind; None exactly where 32 bits do not hold its index.
pub(crate) fn later(k: u32, path: &Path) -> Option<Path>
    ensures { result ≡ later k path.now }
{
    beyond(path.as_slice(), k, &[])
}

/// The path to the statement so many before; None exactly where its block has none there.
pub(crate) fn earlier(k: u32, path: &Path) -> Option<Path>
    ensures { result ≡ earlier k path.now }
{
    let (last, up) = path.as_slice().split_last()?;
    let index = last.index.checked_sub(k)?;
    joined(
        up,
        Step {
            branch: last.branch,
            index,
        },
        &[],
    )
}

/// The path to the statement round the block in which a path ends; None exactly where that is the procedure's body.
pub(crate) fn owner(path: &Path) -> Option<Path>
    ensures { result ≡ owner path.now }
{
    let (_last, up) = path.as_slice().split_last()?;
    if up.is_empty() {
        return None;
    }
    let mut made = Path::new();
    add_steps(&mut made, up);
    Some(made)
}

/// The path to the first statement of a loop, or of the first branch of an `if`; None exactly where it has more than 32 steps.
pub(crate) fn inside(path: &Path) -> Option<Path>
    ensures { result ≡ inside path.now }
{
    let first = Step {
        branch: Branch::Main,
        index: 0,
    };
    joined(path.as_slice(), first, &[])
}
