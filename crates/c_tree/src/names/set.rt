//! Sets of names.
ghost use Rattle.std.specs.Prelude.{◌≡◌, ◌||◌, false, OnOk};
ghost use Rattle.c_tree.specs.Names.Held.{names_in};
ghost use Rattle.c_tree.specs.Names.Words.{same_name};

use indexmap::IndexSet;
use std::alloc::{AllocError, Global};

/// A set of names that are kept elsewhere.
pub(crate) struct NameSet<'a> {
    set: IndexSet<&'a str>,
}

impl Drop for NameSet<'_> {
    fn drop(self) {
        let Self { set: _ } = self;
    }
}

impl<'a> NameSet<'a> {
    /// No name.
    pub(crate) fn new(alloc: Global) -> NameSet<'a>
        ensures { names_in result ≡ (λ x. false) }
    {
        NameSet {
            set: IndexSet::new(alloc),
        }
    }

    /// Whether a name is in it.
    pub(crate) fn has(&self, x: &str) -> bool
        ensures { result ≡ names_in self.now x.now }
    {
        self.set.contains(x)
    }

    /// One name more.
    pub(crate) fn insert(&mut self, x: &'a str) -> Result<(), AllocError>
        ensures { OnOk result (names_in self.new
            ≡ (λ y. same_name x.now y || names_in self.old y)) }
    {
        self.set.insert(x)?;
        Ok(())
    }
}
