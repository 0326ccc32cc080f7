// Messages on texts, each a line.
ghost use Rattle.std.specs.Prelude.{◌≡◌, string_bytes, IfOk};
ghost use Rattle.compile_stages.specs.Messages.{checked, line_refused, name_refused, place_refused};
ghost use Rattle.compile_stages.specs.Messages.{refused, summary, unit_refused};

use std::alloc::{AllocError, Global};

/// A name is refused by itself: that of a file, or that of a version.
pub fn refused(alloc: Global, name: &str, why: &str) -> Result<String, AllocError>
    ensures { IfOk result (λ text. string_bytes text ≡ refused name.now why.now) }
{
    format!(in alloc; "exoc: {name}: {why}\n")
}

/// A text is refused at a place: its line, its column and why.
pub(crate) fn place_refused(
    alloc: Global,
    name: &str,
    line: u32,
    column: u32,
    why: &str,
) -> Result<String, AllocError>
    ensures { IfOk result (λ text. string_bytes text ≡ place_refused name.now line column why.now) }
{
    format!(in alloc; "exoc: {name}:{line}:{column}: {why}\n")
}

/// A name of the unit in this file is refused.
pub(crate) fn name_refused(
    alloc: Global,
    file: &str,
    name: &str,
    why: &str,
) -> Result<String, AllocError>
    ensures { IfOk result (λ text. string_bytes text ≡ name_refused file.now name.now why.now) }
{
    format!(in alloc; "exoc: {file}: {name}: {why}\n")
}

/// A line of a schedule is refused: its number, its operator and why.
pub(crate) fn line_refused(
    alloc: Global,
    name: &str,
    number: u32,
    operator: &str,
    why: &str,
) -> Result<String, AllocError>
    ensures { IfOk result (λ text. string_bytes text ≡ line_refused name.now number operator.now why.now) }
{
    format!(in alloc; "exoc: {name}:{number}: {operator} {why}\n")
}

/// A unit is refused at a line.
pub(crate) fn unit_refused(
    alloc: Global,
    name: &str,
    line: u32,
    why: &str,
) -> Result<String, AllocError>
    ensures { IfOk result (λ text. string_bytes text ≡ unit_refused name.now line why.now) }
{
    format!(in alloc; "exoc: {name}:{line}: {why}\n")
}

/// All obligations are shown; their number.
pub(crate) fn checked(alloc: Global, count: u64) -> Result<String, AllocError>
    ensures { IfOk result (λ text. string_bytes text ≡ checked count) }
{
    format!(in alloc; "{count} obligations\nok\n")
}

/// How much the texts of a number come to: procedures, steps of the schedule, what was shown, and
/// lines of the C.
pub(crate) fn summary(
    alloc: Global,
    procedures: u32,
    steps: u64,
    obligations: u64,
    lines: usize,
) -> Result<String, AllocError>
    ensures { IfOk result (λ text. string_bytes text ≡ summary procedures steps obligations lines) }
{
    format!(in alloc;
        "procedures {procedures}\nsteps {steps}\nobligations {obligations}\nlines {lines}\n"
    )
}
