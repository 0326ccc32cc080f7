//! The memories of the names that were met last.
ghost use Rattle.std.specs.Prelude.{◌≡◌, IfSome};
ghost use Rattle.exo_meaning.specs.Scene.{updated};
ghost use Rattle.memory_kinds.specs.Homes.{Homes};
ghost use Rattle.memory_kinds.specs.Recent.{AreTrue};

use exo_tree::{Id, MemId};

/// How many slots there are; a name has the one of its remainder.
const SLOTS: usize = 256;

/// A name with its memory.
#[derive(Clone, Copy)]
pub(crate) struct Home {
    name: Id,
    memory: MemId,
}

/// The memories of names that were met, in each slot the last one, so that few have to be looked for in the tree.
#[derive(Clone, Copy)]
pub(crate) struct Recent {
    slots: [Option<Home>; SLOTS],
}

impl Recent {
    /// No name.
    pub(crate) fn new() -> Recent
        ensures { (home : Homes) → AreTrue result home }
    {
        Recent {
            slots: [None; SLOTS],
        }
    }

    /// The memory of a name, where it is remembered.
    pub(crate) fn get(&self, x: Id) -> Option<MemId>
        ensures { IfSome result (λ m. (home : Homes) → AreTrue self.now home → m.0 ≡ home x.0) }
    {
        match self.slots[x.0 as usize % SLOTS] {
            Some(h) => {
                if h.name.0 == x.0 {
                    Some(h.memory)
                } else {
                    None
                }
            }
            None => None,
        }
    }

    /// The name stands in that memory from now on.
    pub(crate) fn put(&mut self, x: Id, m: MemId)
        ensures { (home : Homes) → AreTrue self.old home → AreTrue self.new (updated home x.0 m.0) }
    {
        self.slots[x.0 as usize % SLOTS] = Some(Home { name: x, memory: m });
    }
}
