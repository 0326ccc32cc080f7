//! Arguments that may be one with a key: the branch of a condition that is kept, and whether a copy is
//! added up.

ghost use Rattle.std.specs.Prelude.{◌≡◌, IfOk, map, option_map};
ghost use Rattle.exo_tree.specs.PlainPlace.{branch_taken};
ghost use Rattle.schedule_text.specs.Views.{plain_argument, plain_key_value};
ghost use Rattle.schedule_calls.specs.Keys.{value_under, branch_named, branch_of_value};
ghost use Rattle.schedule_calls.specs.Keys.{keep_in, accum_in};

use crate::division::flag_of;
use exo_tree::Branch;
use schedule_text::source::{ArgText, KeyValue};
use std::alloc::{AllocError, Global};

/// The value under the key, where there is an argument; None where the arguments are others.
fn value_under<'a>(key: &[u8], args: &'a [ArgText]) -> Option<Option<&'a KeyValue>>
    ensures { option_map (option_map (λ v. plain_key_value v.now)) result ≡ value_under key.now (map plain_argument args.now) }
{
    match args {
        [] => Some(None),
        [ArgText::Key(name, value)] if name.as_slice() == key => Some(Some(value)),
        _ => None,
    }
}

/// The branch of that name.
fn branch_named(name: &[u8]) -> Option<Branch>
    ensures { option_map branch_taken result ≡ branch_named name.now }
{
    if name == b"body".as_slice() {
        return Some(Branch::Main);
    }
    if name == b"orelse".as_slice() {
        return Some(Branch::Else);
    }
    None
}

fn branch_of_value(alloc: Global, value: &KeyValue) -> Result<Option<Branch>, AllocError>
    ensures { IfOk result (λ b. option_map branch_taken b ≡ branch_of_value (plain_key_value value.now)) }
{
    match value {
        KeyValue::Str(string) => {
            let bytes = string.bytes(alloc)?;
            Ok(branch_named(bytes.as_slice()))
        }
        KeyValue::True => Ok(None),
        KeyValue::False => Ok(None),
    }
}

/// The branch that the arguments with keys ask for, where there is one; None where they are
/// refused.
pub fn keep_in(alloc: Global, keys: &[ArgText]) -> Result<Option<Option<Branch>>, AllocError>
    ensures { IfOk result (λ k. option_map (option_map branch_taken) k ≡ keep_in (map plain_argument keys.now)) }
{
    match value_under(b"keep", keys) {
        None => Ok(None),
        Some(None) => Ok(Some(None)),
        Some(Some(value)) => match branch_of_value(alloc, value)? {
            Some(branch) => Ok(Some(Some(branch))),
            None => Ok(None),
        },
    }
}

/// Whether the arguments with keys ask for a copy that is added up; None where they are refused.
pub fn accum_in(keys: &[ArgText]) -> Option<bool>
    ensures { result ≡ accum_in (map plain_argument keys.now) }
{
    match value_under(b"accum", keys) {
        None => None,
        Some(None) => Some(false),
        Some(Some(value)) => flag_of(value),
    }
}
