//! What is known of fields on the way to a place.
ghost use Rattle.std.specs.Prelude.{◌≡◌, ◌≤◌, ◌∷◌, [], IfSome, IfNone, OnOk};
ghost use Rattle.check_facts.specs.Trails.{levels_of};

use crate::known::Known;
use exo_tree::Branch;
use std::alloc::{AllocError, Global};

/// What is known of fields before the statement of that index in a branch of the statement around it.
#[derive(Drop)]
pub(crate) struct Level<'a> {
    pub(crate) branch: Branch,
    pub(crate) index: u32,
    pub(crate) known: Known<'a>,
}

/// The levels on the way to a place, the outermost last.
#[derive(Drop)]
pub(crate) struct Trail<'a> {
    pub(crate) levels: Vec<Level<'a>>,
}

impl<'a> Trail<'a> {
    pub(crate) fn new(alloc: Global) -> Trail<'a>
        ensures { levels_of result ≡ [] }
    {
        Trail {
            levels: Vec::new(alloc),
        }
    }

    /// Takes the outermost level, if it is in that branch and not past that index; else forgets all.
    pub(crate) fn take(&mut self, branch: Branch, to: u32) -> Option<Level<'a>>
        ensures taken { IfSome result (λ l. levels_of self.old ≡ l ∷ levels_of self.new) }
        ensures branch { IfSome result (λ l. l.branch ≡ branch) }
        ensures index { IfSome result (λ l. l.index ≤ to) }
        ensures none { IfNone result (levels_of self.new ≡ []) }
    {
        let Some(level) = self.levels.pop() else {
            return None;
        };
        if level.branch == branch && level.index <= to {
            return Some(level);
        }
        self.forget();
        None
    }

    /// Puts a level around the others.
    pub(crate) fn put(&mut self, level: Level<'a>) -> Result<(), AllocError>
        ensures { OnOk result (levels_of self.new ≡ level.entry ∷ levels_of self.old) }
    {
        self.levels.push(level)?;
        Ok(())
    }

    pub(crate) fn forget(&mut self)
        ensures { levels_of self.new ≡ [] }
    {
        self.levels.clear();
    }
}
