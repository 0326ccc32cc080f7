//! What breaks no rule of the language is well formed, each law the contract of a function with nothing to do.

ghost use Rattle.exo_types_laws.specs.Laws.{TypedUnitsAreFormed, ReadUnitsAreFormed, TypedUnitsAreLow, TypedUnitsHaveDram};

use exo_types::laws::signatures_agree;
use rules_names::laws::{
    conditions_keep_rules, controls_keep_rules, data_keep_rules, lists_keep_rules, scopes_keep_ids,
    windows_keep_rules,
};

/// A unit whose text is of the grammar and breaks no rule is well formed.
pub fn typed_units_are_formed()
    ensures { TypedUnitsAreFormed }
{
    controls_keep_rules();
    lists_keep_rules();
    conditions_keep_rules();
    data_keep_rules();
    windows_keep_rules();
    scopes_keep_ids();
    signatures_agree();
}

/// So is what a text is read as.
pub fn read_units_are_formed()
    ensures { ReadUnitsAreFormed }
{
    typed_units_are_formed();
}

/// The ids of a unit, and the numbers of its procedures, fields and memories, are below 2^20.
pub fn typed_units_are_low()
    ensures { TypedUnitsAreLow }
{}

/// The first memory of a unit is `DRAM` with its defaults.
pub fn typed_units_have_dram()
    ensures { TypedUnitsHaveDram }
{}
