//! Units: all items of a text.
ghost use Rattle.std.specs.Prelude.{◌≡◌, ◌<◌, [], Some, map, length, MatchResult};
ghost use Rattle.exo_reader.specs.Views.{plain_item};
ghost use Rattle.exo_types.specs.Refusals.{Refuses};
ghost use Rattle.exo_types.specs.UnitRules.{nothing_above, unit_fault, items_width};
ghost use Rattle.exo_types.specs.Standing.{Agrees, HasPlaces, IsFew, IsUnitOf, Stands};
ghost use Rattle.exo_types.specs.UnitBuilder.{IsPlaced, Types, IsErrorOf, IsInPlace};

use crate::refusal::{Refusal, no_memory};
use crate::typed::UnitBuilder;
use exo_reader::source::SourceItem;
use exo_reader::unit::Source;
use exo_tree::Unit;
use rules_names::error::TypeError;
use std::alloc::Global;
use text_lexer::place::Place;

/// Adds all items of a text, where nothing stands above them but the memory that is always there.
fn add_items<'c>(
    alloc: Global,
    places: &[Place],
    typed: &mut UnitBuilder<'c>,
    items: &'c [SourceItem],
) -> Result<(), Refusal>
    requires agrees { Agrees typed.old }
    requires few { IsFew typed.old 0 }
    requires stands { Stands typed.old nothing_above }
    requires lines { typed.old.unit.lines ≡ [] }
    requires places { HasPlaces places.now (items_width (map plain_item items.now)) }
    ensures { MatchResult result
        (λ x. IsUnitOf places.now (map plain_item items.now) typed.new.unit)
        (λ e. Refuses e (unit_fault (map plain_item items.now))) }
{
    let mut next = 0;
    for item in items {
        next = typed.add_item(alloc, places, next, item)?;
    }
    Ok(())
}

/// The unit of items.
fn unit_of(alloc: Global, places: &[Place], items: &[SourceItem]) -> Result<Unit, Refusal>
    requires { HasPlaces places.now (items_width (map plain_item items.now)) }
    ensures { MatchResult result (IsUnitOf places.now (map plain_item items.now)) (λ e. Refuses e (unit_fault (map plain_item items.now))) }
{
    let mut typed = UnitBuilder::new(alloc)?;
    add_items(alloc, places, &mut *typed, items)?;
    Ok(Box::into_inner(typed).into_unit())
}

/// The error of a refusal.
fn error_of(refusal: Refusal, places: &[Place]) -> TypeError
    requires { IsInPlace refusal (length places.now) }
    ensures { IsErrorOf refusal places.now result }
{
    match refusal {
        Refusal::Memory => no_memory(),
        Refusal::Broken(fault) => {
            let place = places[fault.token];
            TypeError {
                line: place.line,
                column: place.column,
                kind: fault.rule,
            }
        }
    }
}

/// The unit that a text stands for, with the line of each procedure and statement; else the first rule that the text
/// breaks, with the place of its token. `Memory` says nothing.
pub fn check_types(alloc: Global, source: &Source) -> Result<Unit, TypeError>
    requires { IsPlaced source.now }
    ensures { Types source.now result }
{
    let places = source.places.as_slice();
    match unit_of(alloc, places, source.items.as_slice()) {
        Ok(unit) => Ok(unit),
        Err(refusal) => Err(error_of(refusal, places)),
    }
}
