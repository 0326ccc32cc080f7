//! What stands above a procedure, and what a walk through its text keeps.
ghost use Rattle.std.specs.Prelude.{◌≡◌, ◌+◌, ◌<◌, None, option_map, slice_get, take, length, IfOk, OnOk};
ghost use Rattle.exo_tree.specs.PlainBinder.{binding};
ghost use Rattle.exo_meaning.specs.Scene.{updated};
ghost use Rattle.exo_meaning.specs.Units.{with_name};
ghost use Rattle.rules_names.specs.Names.{named_in, name_number};
ghost use Rattle.exo_modes.specs.Aliases.{roots_in};
ghost use Rattle.exo_modes.specs.Sorts.{sort_meant};
ghost use Rattle.exo_types.specs.Seen.{signature};
ghost use Rattle.exo_types.specs.TypeRules.{binder};
ghost use Rattle.exo_types.specs.UnitLines.{line_at};
ghost use Rattle.exo_types.specs.Walks.{signatures_in};

use crate::call::Callee;
use exo_modes::{Alias, CallableModes, Sort, root, set_root};
use exo_tree::{Binder, Id, Name, StatementLines};
use rules_names::scope::{Meant, Scope};
use rules_names::table::{FieldTable, NameTable};
use std::alloc::{AllocError, Global};
use text_lexer::place::Place;
use text_lexer::text::Text;

/// What stands above a procedure.
#[derive(Clone, Copy)]
pub struct Context<'c> {
    pub alloc: Global,
    /// The place of each token.
    pub places: &'c [Place],
    pub fields: &'c FieldTable<'c>,
    pub memories: &'c NameTable<'c>,
    pub procedures: &'c NameTable<'c>,
    pub above: CallableModes<'c>,
}

/// What a walk through a procedure keeps.
#[derive(Drop)]
pub struct ScopeState<'c> {
    pub scope: Scope<'c>,
    /// The buffers of views.
    pub aliases: Vec<Alias>,
    /// The id of the next binder.
    pub next_id: u32,
    /// The lines of the statements so far.
    pub lines: StatementLines,
}

impl<'c> Context<'c> {
    /// The line of a token.
    pub fn line(&self, n: usize) -> u32
        requires { n < length self.now.places.now }
        ensures { result ≡ line_at self.now.places.now n }
    {
        self.places[n].line
    }

    /// The number of the procedure above of that name.
    pub fn number_in(&self, name: &Text) -> Option<usize>
        ensures { result ≡ name_number self.now.procedures.now name.now }
    {
        self.procedures.get(name.as_str())
    }

    /// The procedure above of that number; None exactly where there is none.
    pub fn callee(&self, number: usize) -> Option<Callee<'c>>
        ensures { option_map signature result ≡ slice_get (signatures_in self.now) number }
    {
        if self.above.rows.len() <= number {
            return None;
        }
        let procedure = self.above.procs.get(number)?;
        Some(Callee {
            params: &procedure.params,
            writes: &self.above.rows[number],
        })
    }
}

impl<'c> ScopeState<'c> {
    /// Puts a name into scope, with the next id.
    pub fn bind(&mut self, alloc: Global, name: &'c str, sort: Sort) -> Result<Binder, AllocError>
        requires new { named_in self.old.scope name.now ≡ None }
        requires few { self.old.next_id < 4294967295 }
        ensures binder { IfOk result (λ b. binding b ≡ binder self.old.next_id name.now) }
        ensures scope { OnOk result (self.new.scope ≡ with_name self.old.scope (binder self.old.next_id name.now) (sort_meant sort)) }
        ensures next { OnOk result (self.new.next_id ≡ self.old.next_id + 1) }
        ensures aliases { OnOk result (self.new.aliases.items ≡ self.old.aliases.items) }
        ensures lines { OnOk result (self.new.lines ≡ self.old.lines) }
    {
        let id = Id(self.next_id);
        self.scope.push(name, Meant { id, sort })?;
        let name = Name::new(alloc, name)?;
        self.next_id += 1;
        Ok(Binder { id, name })
    }

    /// Puts a buffer into scope.
    pub fn bind_buffer(
        &mut self,
        alloc: Global,
        name: &'c str,
        sort: Sort,
    ) -> Result<Binder, AllocError>
        requires new { named_in self.old.scope name.now ≡ None }
        requires few { self.old.next_id < 4294967295 }
        ensures binder { IfOk result (λ b. binding b ≡ binder self.old.next_id name.now) }
        ensures scope { OnOk result (self.new.scope ≡ with_name self.old.scope (binder self.old.next_id name.now) (sort_meant sort)) }
        ensures next { OnOk result (self.new.next_id ≡ self.old.next_id + 1) }
        ensures roots { OnOk result
            (roots_in self.new.aliases.items
            ≡ updated (roots_in self.old.aliases.items) self.old.next_id self.old.next_id) }
        ensures kept { OnOk result (take (length self.old.aliases.items) self.new.aliases.items ≡ self.old.aliases.items) }
        ensures lines { OnOk result (self.new.lines ≡ self.old.lines) }
    {
        set_root(&mut self.aliases, self.next_id, self.next_id)?;
        self.bind(alloc, name, sort)
    }

    /// Puts a view of a buffer or view into scope.
    pub fn bind_view(
        &mut self,
        alloc: Global,
        name: &'c str,
        of: Id,
        sort: Sort,
    ) -> Result<Binder, AllocError>
        requires new { named_in self.old.scope name.now ≡ None }
        requires few { self.old.next_id < 4294967295 }
        ensures binder { IfOk result (λ b. binding b ≡ binder self.old.next_id name.now) }
        ensures scope { OnOk result (self.new.scope ≡ with_name self.old.scope (binder self.old.next_id name.now) (sort_meant sort)) }
        ensures next { OnOk result (self.new.next_id ≡ self.old.next_id + 1) }
        ensures roots { OnOk result
            (roots_in self.new.aliases.items
            ≡ updated (roots_in self.old.aliases.items) self.old.next_id
            (roots_in self.old.aliases.items of.0)) }
        ensures kept { OnOk result (take (length self.old.aliases.items) self.new.aliases.items ≡ self.old.aliases.items) }
        ensures lines { OnOk result (self.new.lines ≡ self.old.lines) }
    {
        let buffer = root(&self.aliases, of.0);
        set_root(&mut self.aliases, self.next_id, buffer)?;
        self.bind(alloc, name, sort)
    }
}
