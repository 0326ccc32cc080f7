//! The least number with which a name is free.
ghost use Rattle.std.specs.Prelude.{◌≡◌, ◌≤◌, length, codes, decimal, IfOk};
ghost use Rattle.tree_edits.specs.Made.Names as plain;
ghost use Rattle.tree_edits.specs.Made.Numbers.{IsNumber, Noted, AllNoted, set_before};

use exo_tree::Name;
use std::alloc::{AllocError, Global};

/// The number from 1 on whose decimal digits the text is.
fn number_in_digits(text: &str) -> Option<usize>
    ensures { IsNumber decimal text.now result }
{
    let first = text.as_bytes().first()?;
    if *first <= b'0' {
        return None;
    }
    match text.parse::<usize>() {
        Ok(n) => Some(n),
        Err(_) => None,
    }
}

/// The number from 1 on with which the one name is the other.
fn number_of(x: &str, name: &str) -> Option<usize>
    ensures { IsNumber (plain.numbered x.now) name.now result }
{
    let tail = name.strip_prefix(x)?;
    let digits = tail.strip_prefix("_")?;
    number_in_digits(digits)
}

/// Notes that a name takes its number.
fn note(marks: &mut Vec<bool>, x: &str, name: &str)
    ensures { Noted (plain.numbered x.now) name.now marks.old.items marks.new.items }
{
    let Some(number) = number_of(x, name) else {
        return;
    };
    if 0 < number && number <= marks.len() {
        marks[number - 1] = true;
    }
}

/// Of the numbers from 1 on, of as many as there are names, which are taken.
fn taken_numbers(alloc: Global, taken: &[Name], x: &str) -> Result<Vec<bool>, AllocError>
    ensures { IfOk result (λ marks. AllNoted (plain.numbered x.now) taken.now marks.items) }
{
    let mut marks = vec![in alloc; false; taken.len()]?;
    for name in taken {
        note(&mut marks, x, name.as_str());
    }
    Ok(marks)
}

/// How many are set before the first that is not.
fn set_before(marks: &[bool]) -> usize
    ensures count { result ≡ set_before marks.now }
    ensures within { result ≤ length marks.now }
{
    for (k, held) in marks.iter().enumerate() {
        if !*held {
            return k;
        }
    }
    marks.len()
}

/// The name with the least number from 1 on that is not taken.
pub(crate) fn free_name(alloc: Global, taken: &[Name], x: &str) -> Result<Name, AllocError>
    ensures { IfOk result (λ n. n ≡ plain.free_name taken.now x.now) }
{
    let marks = taken_numbers(alloc, taken, x)?;
    let before = set_before(marks.as_slice());
    Name::numbered(alloc, x, before + 1)
}
