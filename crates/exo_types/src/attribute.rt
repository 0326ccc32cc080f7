//! Classes of memories and their attributes.
ghost use Rattle.std.specs.Prelude.{◌≡◌, ◌≤◌, ◌+◌, [], None, IfOk, OnOk, map};
ghost use Rattle.std.specs.List.{list_any};
ghost use Rattle.exo_tree.specs.PlainTables.{memory_kind};
ghost use Rattle.exo_meaning.specs.Units.{is_text, is_memory};
ghost use Rattle.exo_reader.specs.Items.{joined};
ghost use Rattle.rules_names.specs.Tests.{most_tokens};
ghost use Rattle.exo_reader.specs.Views.{plain_setting, plain_attribute};
ghost use Rattle.rules_names.specs.Faults.{charged};
ghost use Rattle.exo_types.specs.MemoryRules.{plain_memory, trait_named, text_of, is_strings};
ghost use Rattle.exo_types.specs.MemoryRules.{is_truth_value, is_cell_word, is_place_word};
ghost use Rattle.exo_types.specs.MemoryRules.{is_lane_count, has_form, trait_faults};
ghost use Rattle.exo_types.specs.MemoryRules.{attribute_faults, attribute_width, attributes_width};
ghost use Rattle.exo_types.specs.MemoryRules.{attributes_fault, lanes_faults, count_of, truth_of};
ghost use Rattle.exo_types.specs.MemoryRules.{with_trait, with_attributes};

use crate::types::cell_of_text;
use exo_modes::is_same;
use exo_reader::source::{SourceAttribute, SourceValue};
use exo_tree::{MemoryClass, Name, Text};
use rules_names::error::TypeKind;
use rules_names::fault::{Charge, Fault};
use std::alloc::{AllocError, Global};
use text_lexer::text as lexer;

/// What an attribute says.
#[derive(Clone, Copy)]
pub enum Trait {
    Ctype,
    Lanes,
    CellType,
    Place,
    MayRead,
    MayWrite,
    MayReduce,
    Header,
}

/// What the attribute of that name says.
fn trait_named(name: &[u8]) -> Option<Trait>
    ensures { result ≡ trait_named name.now }
{
    if is_same(name, b"ctype") {
        return Some(Trait::Ctype);
    }
    if is_same(name, b"lanes") {
        return Some(Trait::Lanes);
    }
    if is_same(name, b"cell") {
        return Some(Trait::CellType);
    }
    if is_same(name, b"place") {
        return Some(Trait::Place);
    }
    if is_same(name, b"read") {
        return Some(Trait::MayRead);
    }
    if is_same(name, b"write") {
        return Some(Trait::MayWrite);
    }
    if is_same(name, b"reduce") {
        return Some(Trait::MayReduce);
    }
    if is_same(name, b"include") {
        return Some(Trait::Header);
    }
    None
}

/// Neighbouring strings as one.
pub fn joined(alloc: Global, pieces: &[lexer::Text]) -> Result<Text, AllocError>
    ensures { IfOk result (λ t. t ≡ joined pieces.now) }
{
    let mut whole = String::new(alloc);
    for piece in pieces {
        whole.push_str(piece.as_str())?;
    }
    Text::new(alloc, whole.as_str())
}

/// The text of a value; none of one that is no text.
fn text_of(alloc: Global, value: &SourceValue) -> Result<Text, AllocError>
    ensures { IfOk result (λ t. t ≡ text_of (plain_setting value.now)) }
{
    match value {
        SourceValue::Strings(pieces) => joined(alloc, pieces),
        _ => Text::new(alloc, ""),
    }
}

fn is_strings(value: &SourceValue) -> bool
    ensures { result ≡ is_strings (plain_setting value.now) }
{
    match value {
        SourceValue::Strings(_) => true,
        _ => false,
    }
}

fn is_truth_value(value: &SourceValue) -> bool
    ensures { result ≡ is_truth_value (plain_setting value.now) }
{
    match value {
        SourceValue::Yes | SourceValue::No => true,
        _ => false,
    }
}

/// A number of lanes, which is 64 at most.
fn is_lane_count(value: &SourceValue) -> bool
    ensures { result ≡ is_lane_count (plain_setting value.now) }
{
    match value {
        SourceValue::Int(count) => *count <= 64,
        _ => false,
    }
}

fn is_cell_word(word: &[u8]) -> bool
    ensures { result ≡ is_cell_word word.now }
{
    is_same(word, b"") || cell_of_text(word).is_some()
}

fn is_place_word(word: &[u8]) -> bool
    ensures { result ≡ is_place_word word.now }
{
    is_same(word, b"heap") || is_same(word, b"stack")
}

/// Whether the value, whose text is given, is one of the attribute.
fn has_form(kind: Trait, value: &SourceValue, text: &[u8]) -> bool
    requires { text.now ≡ text_of (plain_setting value.now) }
    ensures { result ≡ has_form kind (plain_setting value.now) }
{
    match kind {
        Trait::Ctype | Trait::Header => is_strings(value),
        Trait::Lanes => is_lane_count(value),
        Trait::CellType => is_strings(value) && is_cell_word(text),
        Trait::Place => is_strings(value) && is_place_word(text),
        Trait::MayRead | Trait::MayWrite | Trait::MayReduce => is_truth_value(value),
    }
}

/// What an attribute breaks by itself.
fn trait_charge(kind: Option<Trait>, value: &SourceValue, text: &[u8], token: usize) -> Charge
    requires { text.now ≡ text_of (plain_setting value.now) }
    ensures { result ≡ charged (trait_faults kind token (plain_setting value.now)) }
{
    match kind {
        None => Charge::of(TypeKind::UnknownName, token),
        Some(kind) => {
            let fits = has_form(kind, value, text);
            Charge::unless(fits, TypeKind::KindMismatch, token)
        }
    }
}

/// Whether one of the attributes has that name.
fn is_among(attributes: &[SourceAttribute], name: &[u8]) -> bool
    ensures { result ≡ list_any (λ x. is_text x name.now) (map (λ a. a.name) attributes.now) }
{
    for attribute in attributes {
        if is_same(attribute.name.as_slice(), name) {
            return true;
        }
    }
    false
}

/// What an attribute breaks behind those before it.
fn attribute_charge(
    alloc: Global,
    before: &[SourceAttribute],
    attribute: &SourceAttribute,
    token: usize,
) -> Result<Charge, AllocError>
    ensures { IfOk result (λ r. r ≡ charged (attribute_faults (map (λ a. a.name) before.now) token (plain_attribute attribute.now))) }
{
    let text = text_of(alloc, &attribute.value)?;
    let kind = trait_named(attribute.name.as_slice());
    let own = trait_charge(kind, &attribute.value, text.as_str().as_bytes(), token);
    let repeated = is_among(before, attribute.name.as_slice());
    Ok(own.and(Charge::unless(!repeated, TypeKind::Redefined, token)))
}

/// How many tokens an attribute has.
fn width(attribute: &SourceAttribute) -> usize
    requires { attribute_width (plain_attribute attribute.now) ≤ most_tokens }
    ensures { result ≡ attribute_width (plain_attribute attribute.now) }
{
    match &attribute.value {
        SourceValue::Strings(pieces) => pieces.len() + 3,
        _ => 4,
    }
}

/// The first rule that attributes break by themselves, the first of which begins at token `n`; and the number of the token
/// behind the last where they break none.
pub fn attributes_fault(
    alloc: Global,
    attributes: &[SourceAttribute],
    n: usize,
) -> Result<(Option<Fault>, usize), AllocError>
    requires { n + attributes_width (map plain_attribute attributes.now) ≤ most_tokens }
    ensures fault { IfOk result (λ o. o.0 ≡ attributes_fault [] n (map plain_attribute attributes.now)) }
    ensures end { IfOk result (λ o. o.0 ≡ None → o.1 ≡ n + attributes_width (map plain_attribute attributes.now)) }
{
    let mut next = n;
    for k in 0..attributes.len() {
        let attribute = &attributes[k];
        let own = attribute_charge(alloc, &attributes[..k], attribute, next)?;
        if own.first.is_some() {
            return Ok((own.first, next));
        }
        next += width(attribute);
    }
    Ok((None, next))
}

/// The number of lanes of a value.
fn count_of(value: &SourceValue) -> u32
    ensures { result ≡ count_of (plain_setting value.now) }
{
    match value {
        SourceValue::Int(count) => *count,
        _ => 0,
    }
}

fn truth_of(value: &SourceValue) -> bool
    ensures { result ≡ truth_of (plain_setting value.now) }
{
    match value {
        SourceValue::Yes => true,
        _ => false,
    }
}

/// Gives a memory one attribute more.
fn set_trait(
    alloc: Global,
    made: &mut MemoryClass,
    kind: Option<Trait>,
    value: &SourceValue,
) -> Result<(), AllocError>
    ensures { OnOk result (memory_kind made.new ≡ with_trait (memory_kind made.old) kind (plain_setting value.now)) }
{
    let Some(kind) = kind else {
        return Ok(());
    };
    let text = text_of(alloc, value)?;
    match kind {
        Trait::Ctype => made.ctype = text,
        Trait::Lanes => made.lanes = count_of(value),
        Trait::CellType => made.cell = cell_of_text(text.as_str().as_bytes()),
        Trait::Place => made.stack = is_same(text.as_str().as_bytes(), b"stack"),
        Trait::MayRead => made.read = truth_of(value),
        Trait::MayWrite => made.write = truth_of(value),
        Trait::MayReduce => made.reduce = truth_of(value),
        Trait::Header => made.include = text,
    }
    Ok(())
}

/// A memory without attributes.
pub fn plain_memory(alloc: Global, name: &str) -> Result<MemoryClass, AllocError>
    ensures { IfOk result (λ m. memory_kind m ≡ plain_memory name.now) }
{
    let name = Name::new(alloc, name)?;
    let ctype = Text::new(alloc, "")?;
    let include = Text::new(alloc, "")?;
    Ok(MemoryClass {
        name,
        ctype,
        lanes: 0,
        cell: None,
        stack: false,
        read: true,
        write: true,
        reduce: true,
        include,
    })
}

/// The memory of that name with these attributes.
pub fn memory_of(
    alloc: Global,
    name: &str,
    attributes: &[SourceAttribute],
) -> Result<MemoryClass, AllocError>
    ensures { IfOk result (λ m. memory_kind m ≡ with_attributes (plain_memory name.now) (map plain_attribute attributes.now)) }
{
    let mut made = plain_memory(alloc, name)?;
    for attribute in attributes {
        let kind = trait_named(attribute.name.as_slice());
        set_trait(alloc, &mut made, kind, &attribute.value)?;
    }
    Ok(made)
}

/// Whether a memory keeps the rule on lanes: one with lanes has a C type and a cell type, and only instructions touch it.
fn keeps_lanes(made: &MemoryClass) -> bool
    ensures { result ≡ is_memory (memory_kind made.now) }
{
    let has_type = !made.ctype.as_str().is_empty();
    if made.lanes == 0 {
        return !has_type;
    }
    let is_touched = made.read || made.write || made.reduce;
    made.lanes <= 64 && has_type && made.cell.is_some() && !is_touched
}

/// What the attributes of a memory break together, at the token of its name.
pub fn lanes_charge(own: Option<Fault>, token: usize, made: &MemoryClass) -> Charge
    ensures { result ≡ charged (lanes_faults own token (memory_kind made.now)) }
{
    match own {
        Some(_) => Charge::none(),
        None => Charge::unless(keeps_lanes(made), TypeKind::KindMismatch, token),
    }
}
