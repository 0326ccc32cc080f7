//! The names of a file's functions and fields, which no binder may have.
ghost use Rattle.std.specs.Prelude.{◌≡◌, IfOk};
ghost use Rattle.c_tree.specs.Names.Words as words;

use crate::names::set::NameSet;
use exo_tree::Name;
use std::alloc::{AllocError, Global};
use std::marker::Model;

/// The names of functions and fields, and a set in which one is found at once.
pub struct Globals<'a> {
    names: &'a [Name],
    held: NameSet<'a>,
}

impl Drop for Globals<'_> {
    fn drop(self) {
        let Self { names: _, held: _ } = self;
    }
}

impl<'a> Model for Globals<'a> {
    ghost use Rattle.std.specs.Prelude.{◌≡◌, ℕ, List};
    ghost use Rattle.c_tree.specs.Names.Words.{is_in};
    ghost use Rattle.c_tree.specs.Names.Held.{names_in};

    ghost Value = { List (List ℕ) };

    ghost view = { λ g. g.names.now };

    ghost invariant = { λ g. names_in g.held ≡ is_in g.names.now };
}

impl<'a> Globals<'a> {
    /// These names.
    pub fn new(alloc: Global, names: &'a [Name]) -> Result<Globals<'a>, AllocError>
        ensures { IfOk result (λ g. g ≡ names.now) }
    {
        let mut held = NameSet::new(alloc);
        let mut k = names.len();
        while k > 0 {
            k -= 1;
            held.insert(names[k].as_str())?;
        }
        Ok(Globals { names, held })
    }

    /// The names as they were given.
    pub(crate) fn names(&self) -> &[Name]
        ensures { result.now ≡ self.now }
    {
        self.names
    }

    /// Whether a name is one of them.
    pub(crate) fn has(&self, x: &str) -> bool
        ensures { result ≡ words.is_in self.now x.now }
    {
        self.held.has(x)
    }
}
