//! The names in scope.
ghost use Rattle.std.specs.Prelude.{◌≡◌, None, [], ◌-◌, drop, length, OnOk, OnErr, option_map};
ghost use Rattle.exo_meaning.specs.Units.{with_name};
ghost use Rattle.exo_modes.specs.Sorts.{sort_meant};
ghost use Rattle.rules_names.specs.Names.{named_in, sort_of};
ghost use Rattle.rules_names.specs.Tables.{named};

use exo_modes::Sort;
use exo_tree::Id;
use indexmap::IndexMap;
use std::alloc::{AllocError, Global};
use std::marker::Model;

/// What a name stands for: its id and its sort.
#[derive(Clone, Copy)]
pub struct Meant {
    pub id: Id,
    pub sort: Sort,
}

/// The names in scope. It is seen as the list of them, the innermost first.
pub struct Scope<'a> {
    table: IndexMap<&'a str, Meant>,
}

impl Drop for Scope<'_> {
    fn drop(self) {
        let Self { table: _ } = self;
    }
}

impl<'a> Model for Scope<'a> {
    ghost use Rattle.std.specs.Prelude.{List, map, reverse};
    ghost use Rattle.std.specs.Str.{bytes_eq};
    ghost use Rattle.indexmap.specs.IndexMap.{IsUnique};
    ghost use Rattle.exo_meaning.specs.Units.{Named};
    ghost use Rattle.rules_names.specs.Tables.{named};

    ghost Value = { List Named };

    ghost view = { λ s. reverse (map (λ e. named e.0.now e.1) s.table.entries) };

    ghost invariant = { λ s. IsUnique (λ x y. bytes_eq x.now y.now) s.table };
}

impl<'a> Scope<'a> {
    /// No names.
    pub fn new(alloc: Global) -> Scope<'a>
        ensures { result ≡ [] }
    {
        Scope {
            table: IndexMap::new(alloc),
        }
    }

    /// Puts a name into scope. After want of memory the scope is unchanged.
    pub fn push(&mut self, name: &'a str, meant: Meant) -> Result<(), AllocError>
        requires { named_in self.old name.now ≡ None }
        ensures pushed { OnOk result (self.new ≡ with_name self.old (named name.now meant).binder (sort_meant meant.sort)) }
        ensures unchanged { OnErr result (self.new ≡ self.old) }
    {
        self.table.insert(name, meant)?;
        Ok(())
    }

    /// What a name stands for; None exactly where it is not in scope.
    pub fn get(&self, name: &str) -> Option<Meant>
        ensures { option_map (named name.now) result ≡ named_in self.now name.now }
    {
        self.table.get(name).copied()
    }

    /// The sort of what a name stands for; None exactly where it is not in scope.
    pub fn sort(&self, name: &str) -> Option<Sort>
        ensures { option_map sort_meant result ≡ sort_of (named_in self.now name.now) }
    {
        let meant = self.get(name)?;
        Some(meant.sort)
    }

    /// How many names are in scope.
    pub fn len(&self) -> usize
        ensures { result ≡ length self.now }
    {
        self.table.len()
    }

    /// Takes the innermost names out of scope, until so many are left.
    pub fn truncate(&mut self, len: usize)
        ensures { self.new ≡ drop (length self.old - len) self.old }
    {
        self.table.truncate(len);
    }
}
