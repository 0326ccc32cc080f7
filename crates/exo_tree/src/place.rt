//! Paths to statements.
ghost use Rattle.std.specs.Prelude.{◌≡◌, [], ◌∷◌, ◌++◌, ◌<◌, ◌≤◌, length, map, option_map};
ghost use Rattle.std.specs.Prelude.{option_and_then};
ghost use Rattle.std.specs.Option.{option_copied};
ghost use Rattle.exo_tree.specs.Tree.{block};
ghost use Rattle.exo_tree.specs.Places.{statement_at, opened_in, first_of, path_below};
ghost use Rattle.exo_tree.specs.Branches.{branch_of};
ghost use Rattle.exo_tree.specs.PlainPlace.{branch_taken, step_taken};
ghost use Rattle.exo_tree.specs.PlainStatement.{statement};

use crate::block::{Block, Stmt};
use crate::procedure::Proc;
use arrayvec::ArrayVec;
use std::marker::Model;

/// Which block of a statement. A loop's block and the first one of a condition are the main one.
#[derive(Clone, Copy, PartialEq, Eq)]
pub enum Branch {
    Main,
    Else,
}

/// Into a branch, and there to the statement of that index. The first step of a path goes into the
/// procedure's body.
#[derive(Clone, Copy, PartialEq, Eq)]
pub struct Step {
    pub branch: Branch,
    pub index: u32,
}

impl Default for Step {
    fn default() -> Step {
        Step {
            branch: Branch::Main,
            index: 0,
        }
    }
}

/// The steps from a procedure's body down to a statement, at most 32.
#[derive(Drop)]
pub struct Path {
    steps: ArrayVec<Step, 32>,
}

impl Model for Path {
    ghost use Rattle.std.specs.Prelude.{List, map};
    ghost use Rattle.std.specs.Coded.{coded_list};
    ghost use Rattle.exo_tree.specs.Places.{Step};
    ghost use Rattle.exo_tree.specs.Codes.{step_code};
    ghost use Rattle.exo_tree.specs.PlainPlace.{step_taken};

    ghost Value = { List Step };

    ghost coded = { coded_list step_code };

    ghost view = { λ p. map step_taken p.steps.items };
}

impl Path {
    /// The path of no statement.
    pub fn new() -> Path
        ensures { result ≡ [] }
    {
        Path {
            steps: ArrayVec::new(),
        }
    }

    /// The path of these steps.
    pub fn from_steps(steps: &[Step]) -> Path
        requires { length steps.now ≤ 32 }
        ensures { result ≡ map step_taken steps.now }
    {
        let mut path = Path::new();
        for step in steps {
            path.push(*step);
        }
        path
    }

    /// One step more.
    pub fn push(&mut self, step: Step)
        requires { length self.old < 32 }
        ensures { self.new ≡ self.old ++ step_taken step ∷ [] }
    {
        self.steps.push(step);
    }

    pub fn len(&self) -> usize
        ensures exact { result ≡ length self.now }
        ensures bound { result ≤ 32 }
    {
        self.as_slice().len()
    }

    pub fn as_slice(&self) -> &[Step]
        ensures value { map step_taken result.now ≡ self.now }
        ensures bound { length result.now ≤ 32 }
    {
        self.steps.as_slice()
    }

    pub fn duplicate(&self) -> Path
        ensures { result ≡ self.now }
    {
        Path::from_steps(self.as_slice())
    }

    /// The path of a statement in a branch of the statement at this one.
    pub fn below(&self, branch: Branch, index: u32) -> Path
        requires { length self.now < 32 }
        ensures { result ≡ path_below self.now (branch_taken branch) index }
    {
        let mut inner = self.duplicate();
        inner.push(Step { branch, index });
        inner
    }
}

impl Stmt {
    /// The block of a branch, where the statement has it.
    pub fn block(&self, which: Branch) -> Option<&Block>
        ensures { option_map block (option_copied result)
            ≡ branch_of (branch_taken which) (statement self.now) }
    {
        match (self, which) {
            (Stmt::If(_, then_part, _), Branch::Main) => Some(then_part),
            (Stmt::If(_, _, else_part), Branch::Else) => Some(else_part),
            (Stmt::For(_, _, _, body), Branch::Main) => Some(body),
            _ => None,
        }
    }
}

/// The statement at a path within a block.
fn below<'a>(b: &'a Block, path: &[Step]) -> Option<&'a Stmt>
    ensures { option_map statement (option_copied result)
        ≡ option_and_then (λ o. first_of o.piece)
        (opened_in 1 (map step_taken path.now) (block b.now)) }
{
    let (step, rest) = path.split_first()?;
    let s = b.get(step.index as usize)?;
    match rest.first() {
        None => Some(s),
        Some(next) => below(s.block(next.branch)?, rest),
    }
}

/// The statement at a path; None exactly where no statement has it.
pub fn at<'a>(p: &'a Proc, path: &Path) -> Option<&'a Stmt>
    ensures { option_map statement (option_copied result)
        ≡ statement_at path.now (block p.now.body) }
{
    let steps = path.as_slice();
    match steps.first() {
        Some(step) if step.branch == Branch::Main => below(&p.body, steps),
        _ => None,
    }
}
