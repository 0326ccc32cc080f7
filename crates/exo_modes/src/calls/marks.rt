//! Sets of a unit's procedures.
ghost use Rattle.std.specs.Prelude.{◌≡◌, ◌==◌, false, length, replicate, IfOk};
ghost use Rattle.exo_modes.specs.Calls.Marked.{contains, Marked};

use exo_tree::ProcId;
use std::alloc::{AllocError, Global};
use std::marker::Model;

/// A set of the procedures of a unit.
#[derive(Drop)]
pub struct Marks {
    held: Vec<bool>,
}

impl Model for Marks {
    ghost use Rattle.std.specs.Prelude.{List, Bool};
    ghost use Rattle.std.specs.Coded.{coded_list, coded_bool};

    ghost Value = { List Bool };

    ghost coded = { coded_list coded_bool };

    ghost view = { λ s. s.held.items };
}

impl Marks {
    /// None of so many procedures.
    pub fn empty(alloc: Global, count: usize) -> Result<Marks, AllocError>
        ensures { IfOk result (λ s. s ≡ replicate count false) }
    {
        let held = vec![in alloc; false; count]?;
        Ok(Marks { held })
    }

    /// How many procedures the unit has.
    pub fn count(&self) -> usize
        ensures { result ≡ length self.now }
    {
        self.held.len()
    }

    /// Whether the procedure at that index is in the set; one that the unit has not is in none.
    pub fn has(&self, k: usize) -> bool
        ensures { result ≡ contains self.now k }
    {
        match self.held.get(k) {
            Some(held) => *held,
            None => false,
        }
    }

    /// Puts a procedure of the unit into the set.
    pub fn insert(&mut self, p: ProcId)
        ensures { Marked (λ k. k == p.0) self.old self.new }
    {
        let index = p.0 as usize;
        if index < self.held.len() {
            self.held[index] = true;
        }
    }
}
