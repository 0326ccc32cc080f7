//! What is known of all configuration fields while a procedure is gone through.
ghost use Rattle.std.specs.Prelude.{◌≡◌, IfOk, OnOk, zero};
ghost use Rattle.exo_meaning.specs.Scene.{updated};
ghost use Rattle.meaning_laws.specs.KnownFields.{at_entry};
ghost use Rattle.check_facts.specs.Contexts.{with_value, facts_from};
ghost use Rattle.check_facts.specs.Values.{plain_value};
ghost use Rattle.check_facts.specs.Tables.{known_in};
ghost use Rattle.check_facts.specs.Walks.{SameBelow};

use crate::value::Value;
use affine_places::{Fact, Facts};
use exo_tree::FieldId;
use indexmap::IndexMap;
use std::alloc::{AllocError, Global};

/// What is known of each field; one that is not in the table has its value at entry.
pub(crate) struct Known<'a> {
    pub(crate) table: IndexMap<u32, Value<'a>>,
}

impl Drop for Known<'_> {
    fn drop(self) {
        let Self { table: _ } = self;
    }
}

impl<'a> Known<'a> {
    /// Each field has its value at entry.
    pub(crate) fn new(alloc: Global) -> Known<'a>
        ensures { known_in result ≡ at_entry }
    {
        Known {
            table: IndexMap::new(alloc),
        }
    }

    /// What is known of a field.
    pub(crate) fn get(&self, f: FieldId) -> Value<'a>
        ensures { plain_value result ≡ known_in self.now f.0 }
    {
        match self.table.get(&f.0) {
            None => Value::Entry,
            Some(value) => value.duplicate(),
        }
    }

    pub(crate) fn set(&mut self, f: FieldId, value: Value<'a>) -> Result<(), AllocError>
        ensures { OnOk result (known_in self.new ≡ updated (known_in self.old) f.0 (plain_value value.entry)) }
    {
        self.table.insert(f.0, value)?;
        Ok(())
    }

    /// The same of the first `count` fields.
    pub(crate) fn duplicate(&self, alloc: Global, count: u32) -> Result<Known<'a>, AllocError>
        ensures { IfOk result (λ known. SameBelow count (known_in known) (known_in self.now)) }
    {
        let mut copied = Known::new(alloc);
        for f in 0..count {
            copied.set(FieldId(f), self.get(FieldId(f)))?;
        }
        Ok(copied)
    }
}

/// Puts the fact of a field before the others.
fn put(alloc: Global, facts: &mut Facts, f: FieldId, value: Value<'_>) -> Result<(), AllocError>
    ensures { OnOk result (facts.new ≡ with_value f.0 (plain_value value.entry) facts.old) }
{
    match value {
        Value::Entry => Ok(()),
        Value::Written(right) => facts.set(f, Fact::Known(right.side.duplicate(alloc)?)),
        Value::Unknown(path) => facts.set(f, Fact::Unknown(path)),
    }
}

impl Known<'_> {
    /// The facts of the first `count` fields, in unit order.
    pub(crate) fn facts(&self, alloc: Global, count: u32) -> Result<Facts, AllocError>
        ensures { IfOk result (λ facts. facts ≡ facts_from zero count (known_in self.now)) }
    {
        let mut facts = Facts::new(alloc);
        let mut f = count;
        while f > 0 {
            f -= 1;
            put(alloc, &mut facts, FieldId(f), self.get(FieldId(f)))?;
        }
        Ok(facts)
    }
}
