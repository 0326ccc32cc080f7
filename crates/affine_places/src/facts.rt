//! What is known of configuration fields at a place.
ghost use Rattle.std.specs.Prelude.{◌≡◌, [], ◌∷◌, OnOk, OnErr, IfSome, IsTrue, option_map};
ghost use Rattle.std.specs.Option.{option_copied};
ghost use Rattle.affine_places.specs.Facts as plain;
ghost use Rattle.affine_places.specs.Facts.{fact_of, fact_keeps_rules};
ghost use Rattle.affine_places.specs.PlainFacts.{plain_fact};

use exo_tree::{Arg, FieldId, Path};
use std::alloc::{AllocError, Global};
use std::marker::Model;

/// What is known of a field.
pub enum Fact {
    /// It has the value of that expression or condition, which reads no field.
    Known(Arg),
    /// The statement at that path made its value unknown.
    Unknown(Path),
}

impl Drop for Fact {
    fn drop(self) {
        match self {
            Self::Known(_) | Self::Unknown(_) => {}
        }
    }
}

/// A field with what is known of it.
#[derive(Drop)]
pub struct FieldFact {
    pub field: FieldId,
    pub fact: Fact,
}

/// What is known of fields at a place: the first fact of a field counts, and a field without one has its value at entry.
#[derive(Drop)]
pub struct Facts {
    items: Vec<FieldFact>,
}

impl Model for Facts {
    ghost use Rattle.std.specs.Prelude.{List, map};
    ghost use Rattle.std.specs.Coded.{coded_list};
    ghost use Rattle.affine_places.specs.Facts as plain;
    ghost use Rattle.affine_places.specs.FactCodes.{entry_code};

    ghost Value = { List plain.FieldFact };

    ghost coded = { coded_list entry_code };

    ghost use Rattle.affine_places.specs.PlainFacts.{plain_entry};

    ghost view = { λ f. map plain_entry f.items.items };

    ghost use Rattle.std.specs.Prelude.{IsTrue};
    ghost use Rattle.affine_places.specs.Facts.{facts_keep_rules};

    ghost invariant = { λ f. IsTrue (facts_keep_rules (map plain_entry f.items.items)) };
}

impl Facts {
    /// Each field has its value at entry.
    pub fn new(alloc: Global) -> Facts
        ensures { result ≡ [] }
    {
        Facts {
            items: Vec::new(alloc),
        }
    }

    /// Puts a fact before the others. After want of memory nothing has changed.
    pub fn set(&mut self, field: FieldId, fact: Fact) -> Result<(), AllocError>
        requires { IsTrue (fact_keeps_rules (plain_fact fact)) }
        ensures set { OnOk result (self.new ≡ record { field = field.0; fact = plain_fact fact } ∷ self.old) }
        ensures unchanged { OnErr result (self.new ≡ self.old) }
    {
        self.items.insert(0, FieldFact { field, fact })?;
        Ok(())
    }

    /// What is known of a field; None exactly where it has its value at entry.
    pub fn get(&self, f: FieldId) -> Option<&Fact>
        ensures fact { option_map plain_fact (option_copied result) ≡ fact_of self.now f.0 }
        ensures rules { IfSome (option_copied result) (λ fact. IsTrue (fact_keeps_rules (plain_fact fact))) }
    {
        for e in &self.items {
            if e.field.0 == f.0 {
                return Some(&e.fact);
            }
        }
        None
    }
}
