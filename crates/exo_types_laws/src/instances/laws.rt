//! What the laws of units say of closed texts, the contract of a function with nothing to do.

ghost use Rattle.exo_types_laws.specs.Instances.Instance.{TypesInstance};

use crate::laws::{
    read_units_are_formed, typed_units_are_formed, typed_units_are_low, typed_units_have_dram,
};
use exo_reader::laws::text_instance;

/// A text that breaks no rule and the empty one, with what the laws say of their units, and a text that names what stands nowhere.
pub fn types_instance()
    ensures { TypesInstance }
{
    text_instance();
    typed_units_are_formed();
    read_units_are_formed();
    typed_units_are_low();
    typed_units_have_dram();
}
