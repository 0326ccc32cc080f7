//! Divisions of loops, with their keys.

ghost use Rattle.std.specs.Prelude.{◌≡◌, IfOk, map, option_map};
ghost use Rattle.schedule_text.specs.Views.{plain_argument, plain_key_value};
ghost use Rattle.schedule_calls.specs.Keys as plain;
ghost use Rattle.schedule_calls.specs.Keys.{tail_named, tail_of_value, flag_of_value, tail_in};
ghost use Rattle.schedule_calls.specs.Readings.{AsksDivision};
ghost use Rattle.schedule_calls.specs.PlainRequest.{plain_tail, plain_division, plain_keys};
ghost use Rattle.schedule_calls.specs.Answers.{AsksOne};

use crate::argument::{names_in, number_in};
use crate::request::{Division, Tail};
use schedule_text::source::{ArgText, KeyValue};
use std::alloc::{AllocError, Global};
use text_lexer::text::Text;

/// The keys of a division, where they are given.
#[derive(Clone, Copy)]
struct TailKeys {
    tail: Option<Tail>,
    perfect: Option<bool>,
}

/// The tail of that name.
fn tail_named(name: &[u8]) -> Option<Tail>
    ensures { option_map plain_tail result ≡ tail_named name.now }
{
    if name == b"guard".as_slice() {
        return Some(Tail::Guard);
    }
    if name == b"cut".as_slice() {
        return Some(Tail::Cut);
    }
    if name == b"cut_and_guard".as_slice() {
        return Some(Tail::CutAndGuard);
    }
    None
}

fn tail_of(alloc: Global, value: &KeyValue) -> Result<Option<Tail>, AllocError>
    ensures { IfOk result
        (λ t. option_map plain_tail t ≡ tail_of_value (plain_key_value value.now)) }
{
    match value {
        KeyValue::Str(string) => {
            let bytes = string.bytes(alloc)?;
            Ok(tail_named(bytes.as_slice()))
        }
        KeyValue::True => Ok(None),
        KeyValue::False => Ok(None),
    }
}

/// The truth value that it is.
pub fn flag_of(value: &KeyValue) -> Option<bool>
    ensures { result ≡ flag_of_value (plain_key_value value.now) }
{
    match value {
        KeyValue::Str(_) => None,
        KeyValue::True => Some(true),
        KeyValue::False => Some(false),
    }
}

impl TailKeys {
    /// These with one more; None where it is given already, or is none of a division.
    fn with_key(
        self,
        alloc: Global,
        name: &Text,
        value: &KeyValue,
    ) -> Result<Option<TailKeys>, AllocError>
        ensures { IfOk result (λ k. option_map plain_keys k
            ≡ plain.with_key (plain_keys self) name.now (plain_key_value value.now)) }
    {
        let text = name.as_slice();
        if text == b"tail".as_slice() {
            return self.with_tail(alloc, value);
        }
        if text == b"perfect".as_slice() {
            return Ok(self.with_perfect(value));
        }
        Ok(None)
    }

    fn with_tail(self, alloc: Global, value: &KeyValue) -> Result<Option<TailKeys>, AllocError>
        ensures { IfOk result (λ k. option_map plain_keys k
            ≡ plain.with_tail (plain_keys self) (plain_key_value value.now)) }
    {
        if self.tail.is_some() {
            return Ok(None);
        }
        match tail_of(alloc, value)? {
            None => Ok(None),
            Some(tail) => Ok(Some(TailKeys {
                tail: Some(tail),
                perfect: self.perfect,
            })),
        }
    }

    fn with_perfect(self, value: &KeyValue) -> Option<TailKeys>
        ensures { option_map plain_keys result
            ≡ plain.with_perfect (plain_keys self) (plain_key_value value.now) }
    {
        if self.perfect.is_some() {
            return None;
        }
        match flag_of(value) {
            None => None,
            Some(perfect) => Some(TailKeys {
                tail: self.tail,
                perfect: Some(perfect),
            }),
        }
    }

    /// These with the key of the argument; None also where it has none.
    fn with_argument(self, alloc: Global, arg: &ArgText) -> Result<Option<TailKeys>, AllocError>
        ensures { IfOk result (λ k. option_map plain_keys k
            ≡ plain.with_argument (plain_keys self) (plain_argument arg.now)) }
    {
        match arg {
            ArgText::Key(name, value) => self.with_key(alloc, name, value),
            _ => Ok(None),
        }
    }

    /// These with the keys of all arguments; None where one is refused.
    fn with_all(self, alloc: Global, args: &[ArgText]) -> Result<Option<TailKeys>, AllocError>
        ensures { IfOk result (λ k. option_map plain_keys k
            ≡ plain.keys_behind (plain_keys self) (map plain_argument args.now)) }
    {
        let [first, more @ ..] = args else {
            return Ok(Some(self));
        };
        match self.with_argument(alloc, first)? {
            Some(keys) => keys.with_all(alloc, more),
            None => Ok(None),
        }
    }

    /// What is meant.
    fn meant(self) -> Tail
        ensures { plain_tail result ≡ plain.tail_meant (plain_keys self) }
    {
        if let Some(true) = self.perfect {
            return Tail::Perfect;
        }
        match self.tail {
            None => Tail::Guard,
            Some(tail) => tail,
        }
    }
}

/// The tail that the arguments with keys ask for.
fn tail_in(alloc: Global, keys: &[ArgText]) -> Result<Option<Tail>, AllocError>
    ensures { IfOk result (λ t. option_map plain_tail t ≡ tail_in (map plain_argument keys.now)) }
{
    let none = TailKeys {
        tail: None,
        perfect: None,
    };
    match none.with_all(alloc, keys)? {
        None => Ok(None),
        Some(keys) => Ok(Some(keys.meant())),
    }
}

/// The division that the arguments ask for.
pub fn division_of(
    alloc: Global,
    by: &ArgText,
    names: &ArgText,
    keys: &[ArgText],
) -> Result<Option<Box<Division>>, AllocError>
    ensures { IfOk result (λ found. AsksOne
        (AsksDivision (plain_argument by.now) (plain_argument names.now)
        (map plain_argument keys.now))
        (λ d. plain_division d.value) found) }
{
    let Some(by) = number_in(by) else {
        return Ok(None);
    };
    let Some(tail) = tail_in(alloc, keys)? else {
        return Ok(None);
    };
    let Some((outer, inner)) = names_in(alloc, names)? else {
        return Ok(None);
    };
    let division = Division {
        by,
        outer,
        inner,
        tail,
    };
    Ok(Some(Box::new(alloc, division)?))
}
