//! The unit so far, with the tables of its names; and what each item adds to it.
ghost use Rattle.std.specs.Prelude.{◌≡◌, ◌+◌, ◌*◌, ◌<◌, ◌≤◌, [], ◌∷◌, ◌++◌, List, None, not, false};
ghost use Rattle.std.specs.Prelude.{is_some, if◌then◌else◌, map, length, IfOk, OnOk, MatchResult};
ghost use Rattle.std.specs.List.{list_any};
ghost use Rattle.exo_tree.specs.Tree.{block};
ghost use Rattle.exo_tree.specs.PlainUnit.{program};
ghost use Rattle.exo_tree.specs.PlainProcedure.{procedure};
ghost use Rattle.exo_meaning.specs.Units.{is_text};
ghost use Rattle.text_lexer.specs.declared.place.Place.{Place};
ghost use Rattle.exo_reader.specs.Views.{plain_field, plain_attribute, plain_definition, plain_item};
ghost use Rattle.exo_reader.specs.Source as source;
ghost use Rattle.rules_names.specs.Faults.{charged, unless};
ghost use Rattle.rules_names.specs.Names.{name_number};
ghost use Rattle.rules_names.specs.Tests.{most_tokens};
ghost use Rattle.exo_modes.specs.Seen.{row_writes, rows_write};
ghost use Rattle.exo_modes.specs.Written.{block_writes};
ghost use Rattle.exo_types.specs.Refusals.{Refuses};
ghost use Rattle.exo_types.specs.ItemRules.{definition_end, field_of, fields_fault};
ghost use Rattle.exo_types.specs.UnitRules as rules;
ghost use Rattle.exo_types.specs.UnitRules.{nothing_above, is_given, item_fault, item_width, procedure_fault};
ghost use Rattle.exo_types.specs.MemoryRules.{dram};
ghost use Rattle.exo_types.specs.UnitLines.{line_at};
ghost use Rattle.exo_types.specs.Standing.{Agrees, IsFew, Stands, HasPlaces, field_fault};
ghost use Rattle.exo_types.specs.Standing.{here_fault, IsHere, IsPushed, IsProcedure, IsAdded};

use crate::attribute::{attributes_fault, joined, lanes_charge, memory_of, plain_memory};
use crate::context::Context;
use crate::definition::{Defined, definition_of};
use crate::refusal::{Refusal, keep};
use crate::template::is_template;
use crate::types::{kind_charge, kind_of};
use exo_modes::{CallableModes, ModesRow, row_of};
use exo_reader::source::{SourceAttribute, SourceDef, SourceField, SourceItem};
use exo_tree::{Field, Fields, Lines, Memories, Name, Proc, ProcLines, Procs, Text, Unit};
use rules_names::error::TypeKind;
use rules_names::fault::Charge;
use rules_names::table::{FieldTable, NameTable};
use std::alloc::{AllocError, Global};
use text_lexer::place::Place;
use text_lexer::text as lexer;

/// What stands above an item: the unit so far, and the tables of its names.
pub struct UnitBuilder<'c> {
    pub unit: Unit,
    pub procedures: NameTable<'c>,
    pub memories: NameTable<'c>,
    /// The names of the configurations.
    pub configurations: NameTable<'c>,
    pub fields: FieldTable<'c>,
    /// What each procedure writes or reduces.
    pub rows: Vec<ModesRow>,
    /// The id of the next binder.
    pub next_id: u32,
}

impl Drop for UnitBuilder<'_> {
    fn drop(self) {
        let Self {
            unit: _,
            procedures: _,
            memories: _,
            configurations: _,
            fields: _,
            rows: _,
            next_id: _,
        } = self;
    }
}

/// A field of a configuration, whose first token is `n`, is put last in its table and in the unit.
fn add_field<'c>(
    alloc: Global,
    table: &mut FieldTable<'c>,
    fields: &mut Fields,
    n: usize,
    config: &'c lexer::Text,
    field: &'c SourceField,
) -> Result<(), Refusal>
    requires few { length table.old < 4294967295 }
    requires tokens { n + 2 ≤ most_tokens }
    ensures kept { MatchResult result
        (λ x. field_fault table.old config.now n (plain_field field.now) ≡ None)
        (λ e. Refuses e (field_fault table.old config.now n (plain_field field.now))) }
    ensures table { OnOk result (table.new ≡ table.old ++ field_of config.now (plain_field field.now) ∷ []) }
    ensures fields { OnOk result (fields.new ≡ fields.old ++ field_of config.now (plain_field field.now) ∷ []) }
{
    let is_known = table.has(config.as_str(), field.name.as_str());
    let taken = Charge::unless(!is_known, TypeKind::Redefined, n);
    keep(taken.and(kind_charge(&field.kind, n + 2)))?;
    let kind = kind_of(&field.kind);
    let made = Field {
        config: Name::new(alloc, config.as_str())?,
        name: Name::new(alloc, field.name.as_str())?,
        kind,
    };
    fields.push(made)?;
    table.push(config.as_str(), field.name.as_str(), kind)?;
    Ok(())
}

/// The fields of a configuration that is new, the first of which begins at token `n`, are put last. Gives the number of the token
/// behind them.
fn add_fields<'c>(
    alloc: Global,
    table: &mut FieldTable<'c>,
    fields: &mut Fields,
    n: usize,
    config: &'c lexer::Text,
    list: &'c [SourceField],
) -> Result<usize, Refusal>
    requires few { length table.old + length list.now ≤ 4294967295 }
    requires new { list_any (λ f. is_text f.config config.now) table.old ≡ false }
    requires tokens { n + 4 * length list.now ≤ most_tokens }
    ensures kept { MatchResult result
        (λ x. fields_fault [] config.now n (map plain_field list.now) ≡ None)
        (λ e. Refuses e (fields_fault [] config.now n (map plain_field list.now))) }
    ensures end { IfOk result (λ end. end ≡ n + 4 * length list.now) }
    ensures table { OnOk result (table.new ≡ table.old ++ map (field_of config.now) (map plain_field list.now)) }
    ensures fields { OnOk result (fields.new ≡ fields.old ++ map (field_of config.now) (map plain_field list.now)) }
{
    let mut next = n;
    for field in list {
        add_field(alloc, table, fields, next, config, field)?;
        next += 4;
    }
    Ok(next)
}

/// The line of a token.
fn line_of(places: &[Place], n: usize) -> u32
    requires { n < length places.now }
    ensures { result ≡ line_at places.now n }
{
    places[n].line
}

/// Puts a name last where it is used.
fn push_used<'c>(names: &mut NameTable<'c>, name: &'c str, is_used: bool) -> Result<(), AllocError>
    requires { name_number names.old name.now ≡ None }
    ensures { OnOk result (names.new ≡ names.old ++ (if is_used then name.now ∷ [] else [])) }
{
    if is_used {
        names.push(name)?;
    }
    Ok(())
}

/// The memory that is always there.
fn first_memories(alloc: Global) -> Result<Memories, AllocError>
    ensures { IfOk result (λ l. l ≡ dram ∷ []) }
{
    let mut memories = Memories::new(alloc);
    memories.push(plain_memory(alloc, "DRAM")?)?;
    Ok(memories)
}

/// Its name.
fn first_names<'c>(alloc: Global) -> Result<NameTable<'c>, AllocError>
    ensures { IfOk result (λ l. l ≡ dram.name ∷ []) }
{
    let mut names = NameTable::new(alloc);
    names.push("DRAM")?;
    Ok(names)
}

impl<'c> UnitBuilder<'c> {
    /// Nothing but the memory that is always there.
    pub fn new(alloc: Global) -> Result<Box<UnitBuilder<'c>>, AllocError>
        ensures agrees { IfOk result (λ t. Agrees t.value) }
        ensures few { IfOk result (λ t. IsFew t.value 0) }
        ensures stands { IfOk result (λ t. Stands t.value nothing_above) }
        ensures lines { IfOk result (λ t. t.value.unit.lines ≡ []) }
    {
        let names = first_names(alloc)?;
        let memories = first_memories(alloc)?;
        let first = UnitBuilder {
            unit: Unit {
                procs: Procs::new(alloc),
                fields: Fields::new(alloc),
                memories,
                lines: Lines::new(alloc),
            },
            procedures: NameTable::new(alloc),
            memories: names,
            configurations: NameTable::new(alloc),
            fields: FieldTable::new(alloc),
            rows: Vec::new(alloc),
            next_id: 0,
        };
        Ok(Box::new(alloc, first)?)
    }

    /// The unit alone.
    pub fn into_unit(self) -> Unit
        ensures { result ≡ self.entry.unit }
    {
        let Self {
            unit,
            procedures: _,
            memories: _,
            configurations: _,
            fields: _,
            rows: _,
            next_id: _,
        } = self;
        unit
    }

    /// Whether a name of the top level is given already.
    fn is_given(&self, name: &str) -> bool
        requires { Agrees self.now }
        ensures { result ≡ is_given (program self.now.unit) name.now }
    {
        if self.procedures.get(name).is_some() {
            return true;
        }
        if self.configurations.get(name).is_some() {
            return true;
        }
        self.memories.get(name).is_some()
    }

    /// The charge of a name of the top level that is given already.
    fn name_charge(&self, name: &lexer::Text, n: usize) -> Charge
        requires { Agrees self.now }
        ensures { result ≡ charged (unless (not (is_given (program self.now.unit) name.now)) TypeKind.Redefined n) }
    {
        let is_given = self.is_given(name.as_str());
        Charge::unless(!is_given, TypeKind::Redefined, n)
    }

    /// The procedure whose `def` is token `n`, and what its body writes or reduces.
    fn defined(
        &self,
        alloc: Global,
        places: &[Place],
        n: usize,
        template: Option<Text>,
        definition: &SourceDef,
    ) -> Result<(Defined, ModesRow), Refusal>
        requires agrees { Agrees self.now }
        requires few { IsFew self.now n }
        requires places { HasPlaces places.now (definition_end n (plain_definition definition.now)) }
        ensures made { (above : rules.Above)
            → Stands self.now above
            → MatchResult result
            (λ r. IsHere above places.now template n r.0 (plain_definition definition.now))
            (λ e. Refuses e (here_fault above n (plain_definition definition.now))) }
        ensures row { IfOk result
            (λ r. row_writes r.1
            ≡ block_writes self.now.unit.procs (rows_write self.now.rows.items) (λ y. y)
            (block r.0.procedure.body)) }
    {
        let context = Context {
            alloc,
            places,
            fields: &self.fields,
            memories: &self.memories,
            procedures: &self.procedures,
            above: CallableModes {
                procs: &self.unit.procs,
                rows: &self.rows,
            },
        };
        let made = definition_of(&context, self.next_id, n, template, definition)?;
        let row = row_of(alloc, &context.above, &made.procedure.body)?;
        Ok((made, row))
    }

    /// Puts a procedure last, with what it writes and with its lines.
    fn push_procedure(
        &mut self,
        name: &'c str,
        made: Proc,
        row: ModesRow,
        lines: ProcLines,
    ) -> Result<(), AllocError>
        requires { name_number self.old.procedures name.now ≡ None }
        ensures { OnOk result (IsPushed self.old self.new name.now (procedure made) row lines) }
    {
        self.unit.procs.push(made)?;
        self.rows.push(row)?;
        self.unit.lines.push(lines)?;
        self.procedures.push(name)
    }

    /// Adds a procedure whose `def` is token `n`. Gives the number of the token behind it.
    fn add_procedure(
        &mut self,
        alloc: Global,
        places: &[Place],
        n: usize,
        template: Option<Text>,
        definition: &'c SourceDef,
    ) -> Result<usize, Refusal>
        requires agrees { Agrees self.old }
        requires few { IsFew self.old n }
        requires places { HasPlaces places.now (definition_end n (plain_definition definition.now)) }
        ensures { (above : rules.Above)
            → Stands self.old above
            → MatchResult result
            (λ end. IsProcedure above places.now self.old self.new template n end
            (plain_definition definition.now))
            (λ e. Refuses e (procedure_fault above n (plain_definition definition.now))) }
    {
        keep(self.name_charge(&definition.name, n + 1))?;
        let (made, row) = self.defined(alloc, places, n, template, definition)?;
        let lines = ProcLines {
            def: line_of(places, n),
            statements: made.lines,
        };
        self.push_procedure(definition.name.as_str(), made.procedure, row, lines)?;
        self.next_id = made.next_id;
        Ok(made.end)
    }

    /// Adds an instruction whose first token is `n`. Gives the number of the token behind it.
    fn add_instruction(
        &mut self,
        alloc: Global,
        places: &[Place],
        n: usize,
        pieces: &[lexer::Text],
        definition: &'c SourceDef,
    ) -> Result<usize, Refusal>
        requires agrees { Agrees self.old }
        requires few { IsFew self.old n }
        requires places { HasPlaces places.now (n + item_width (source.instruction pieces.now (plain_definition definition.now))) }
        ensures { (above : rules.Above)
            → Stands self.old above
            → MatchResult result
            (λ end. IsAdded above places.now self.old self.new n end
            (source.instruction pieces.now (plain_definition definition.now)))
            (λ e. Refuses e
            (item_fault above n
            (source.instruction pieces.now (plain_definition definition.now)))) }
    {
        let template = joined(alloc, pieces)?;
        let fits = is_template(template.as_str().as_bytes(), &definition.params.items);
        keep(Charge::unless(fits, TypeKind::UnknownName, n + 2))?;
        let def = n + 2 + pieces.len() + 2;
        self.add_procedure(alloc, places, def, Some(template), definition)
    }

    /// Adds a configuration whose first token is `n`. Gives the number of the token behind it.
    fn add_configuration(
        &mut self,
        alloc: Global,
        n: usize,
        name: &'c lexer::Text,
        fields: &'c [SourceField],
    ) -> Result<usize, Refusal>
        requires agrees { Agrees self.old }
        requires few { IsFew self.old n }
        requires tokens { n + item_width (source.configuration name.now (map plain_field fields.now)) ≤ 0x100001 }
        ensures { (above : rules.Above)
            → (places : List Place)
            → Stands self.old above
            → MatchResult result
            (λ end. IsAdded above places self.old self.new n end
            (source.configuration name.now (map plain_field fields.now)))
            (λ e. Refuses e
            (item_fault above n (source.configuration name.now (map plain_field fields.now)))) }
    {
        keep(self.name_charge(name, n + 3))?;
        let end = add_fields(
            alloc,
            &mut self.fields,
            &mut self.unit.fields,
            n + 7,
            name,
            fields,
        )?;
        push_used(&mut self.configurations, name.as_str(), !fields.is_empty())?;
        Ok(end + 1)
    }

    /// Adds a class of memories whose first token is `n`. Gives the number of the token behind it.
    fn add_memory(
        &mut self,
        alloc: Global,
        n: usize,
        name: &'c lexer::Text,
        attributes: &[SourceAttribute],
    ) -> Result<usize, Refusal>
        requires agrees { Agrees self.old }
        requires few { IsFew self.old n }
        requires tokens { n + item_width (source.memory name.now (map plain_attribute attributes.now)) ≤ 0x100001 }
        ensures { (above : rules.Above)
            → (places : List Place)
            → Stands self.old above
            → MatchResult result
            (λ end. IsAdded above places self.old self.new n end
            (source.memory name.now (map plain_attribute attributes.now)))
            (λ e. Refuses e
            (item_fault above n (source.memory name.now (map plain_attribute attributes.now)))) }
    {
        let (own, end) = attributes_fault(alloc, attributes, n + 7)?;
        let made = memory_of(alloc, name.as_str(), attributes)?;
        let lanes = lanes_charge(own, n + 3, &made);
        keep(self.name_charge(name, n + 3).and(lanes))?;
        if let Some(fault) = own {
            return Err(Refusal::Broken(fault));
        }
        self.unit.memories.push(made)?;
        self.memories.push(name.as_str())?;
        Ok(end + 1)
    }

    /// Adds an item whose first token is `n`. Gives the number of the token behind it.
    pub fn add_item(
        &mut self,
        alloc: Global,
        places: &[Place],
        n: usize,
        item: &'c SourceItem,
    ) -> Result<usize, Refusal>
        requires agrees { Agrees self.old }
        requires few { IsFew self.old n }
        requires places { HasPlaces places.now (n + item_width (plain_item item.now)) }
        ensures { (above : rules.Above)
            → Stands self.old above
            → MatchResult result
            (λ end. IsAdded above places.now self.old self.new n end (plain_item item.now))
            (λ e. Refuses e (item_fault above n (plain_item item.now))) }
    {
        match item {
            SourceItem::Procedure(definition) => {
                self.add_procedure(alloc, places, n + 2, None, definition)
            }
            SourceItem::Instruction(pieces, definition) => {
                self.add_instruction(alloc, places, n, pieces, definition)
            }
            SourceItem::Configuration(name, fields) => {
                self.add_configuration(alloc, n, name, fields)
            }
            SourceItem::Memory(name, attributes) => self.add_memory(alloc, n, name, attributes),
        }
    }
}
