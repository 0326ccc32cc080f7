//! Sets of a unit's configuration fields.
ghost use Rattle.std.specs.Prelude.{◌≡◌, ◌++◌, ◌==◌, ◌&&◌, not, [], ◌∷◌, ◌<◌, false, length, map};
ghost use Rattle.std.specs.Prelude.{replicate, IfOk, OnOk, OnErr, slice_get, option_map};
ghost use Rattle.std.specs.Option.{option_copied};
ghost use Rattle.config_state.specs.FieldSets.{contains, in_table, Marked, Changed, fields_where};

use exo_tree::FieldId;
use std::alloc::{AllocError, Global};
use std::marker::Model;

/// A set of the fields of a unit.
#[derive(Drop)]
pub struct FieldSet {
    held: Vec<bool>,
}

impl Model for FieldSet {
    ghost use Rattle.std.specs.Prelude.{List, Bool};
    ghost use Rattle.std.specs.Coded.{coded_list, coded_bool};

    ghost Value = { List Bool };

    ghost coded = { coded_list coded_bool };

    ghost view = { λ s. s.held.items };
}

impl FieldSet {
    /// None of so many fields.
    pub fn empty(alloc: Global, count: usize) -> Result<FieldSet, AllocError>
        ensures { IfOk result (λ s. s ≡ replicate count false) }
    {
        let held = vec![in alloc; false; count]?;
        Ok(FieldSet { held })
    }

    /// Whether the field is in the set; one that the unit has not is in none.
    pub fn contains(&self, f: usize) -> bool
        ensures { result ≡ contains self.now f }
    {
        match self.held.get(f) {
            Some(held) => *held,
            None => false,
        }
    }

    /// Puts a field of the unit into the set.
    pub fn insert(&mut self, f: FieldId)
        ensures { Marked (λ g. g == f.0) self.old self.new }
    {
        let index = f.0 as usize;
        if index < self.held.len() {
            self.held[index] = true;
        }
    }

    /// Puts the fields of another set into this one.
    pub fn unite(&mut self, other: &FieldSet)
        ensures { Marked (contains other.now) self.old self.new }
    {
        for k in 0..self.held.len() {
            if other.contains(k) {
                self.held[k] = true;
            }
        }
    }

    /// How many fields the unit has.
    pub fn len(&self) -> usize
        ensures { result ≡ length self.now }
    {
        self.held.len()
    }

    /// Takes a field out of the set.
    pub fn remove(&mut self, f: FieldId)
        ensures { Changed (λ g held. held && not (g == f.0)) self.old self.new }
    {
        let index = f.0 as usize;
        if index < self.held.len() {
            self.held[index] = false;
        }
    }

    /// The fields of the set in unit order.
    pub fn to_vec(&self, alloc: Global) -> Result<Vec<FieldId>, AllocError>
        requires { length self.now < 4294967296 }
        ensures { IfOk result (λ v. map (λ (f : FieldId). f.0) v.items ≡ fields_where (length self.now) (contains self.now)) }
    {
        let mut fields = Vec::new(alloc);
        for k in 0..self.held.len() {
            if self.contains(k) {
                fields.push(FieldId(k as u32))?;
            }
        }
        Ok(fields)
    }
}

/// A set of fields for each of the first procedures of a unit.
#[derive(Drop)]
pub struct FieldTable {
    sets: Vec<FieldSet>,
}

impl Model for FieldTable {
    ghost use Rattle.std.specs.Prelude.{List, Bool, map};
    ghost use Rattle.std.specs.Coded.{coded_list, coded_bool};

    ghost Value = { List (List Bool) };

    ghost coded = { coded_list (coded_list coded_bool) };

    ghost view = { λ t. t.sets.items };
}

impl FieldTable {
    pub fn new(alloc: Global) -> FieldTable
        ensures { result ≡ [] }
    {
        FieldTable {
            sets: Vec::new(alloc),
        }
    }

    /// The set of the next procedure.
    pub fn push(&mut self, set: FieldSet) -> Result<(), AllocError>
        ensures pushed { OnOk result (self.new ≡ self.old ++ set ∷ []) }
        ensures unchanged { OnErr result (self.new ≡ self.old) }
    {
        self.sets.push(set)?;
        Ok(())
    }

    /// The set of that procedure; None exactly where the table is not so long.
    pub fn get(&self, k: usize) -> Option<&FieldSet>
        ensures { option_copied result ≡ slice_get self.now k }
    {
        self.sets.get(k)
    }

    /// Adds to a set what is in the set of that procedure.
    pub fn add(&self, k: usize, set: &mut FieldSet)
        ensures { Marked (in_table self.now k) set.old set.new }
    {
        if let Some(called) = self.get(k) {
            set.unite(called);
        }
    }
}
