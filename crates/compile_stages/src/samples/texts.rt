//! The texts of a number.
ghost use Rattle.std.specs.Prelude.{◌≡◌, ◌<◌, ◌≤◌, IfOk, length, string_bytes};
ghost use Rattle.compile_stages.specs.Samples.Texts as plain;
ghost use Rattle.compile_stages.specs.Samples.Texts.{lines_text, procedure_text};

use std::alloc::{AllocError, Global};

/// How many procedures the unit of that number has, from 64 to 256.
pub fn procedures(n: u32) -> u32
    ensures is { result ≡ plain.procedures n }
    ensures few { result ≤ 256 }
{
    64 + n % 193
}

/// The text of the procedure `m` of the unit.
fn procedure_text(alloc: Global, n: u64, m: u64) -> Result<String, AllocError>
    requires n { n ≤ 4294967295 }
    requires m { m < 256 }
    ensures { IfOk result (λ t. string_bytes t ≡ procedure_text n m) }
{
    let width = 1 + (7 * n + 13 * m) % 97;
    let factor = 1 + (n + 3 * m) % 1000;
    format!(in alloc;
        "@proc\n\
        def g{m}(n: size, x: i32[n, {width}], y: i32[n, {width}]):\n    \
        for i in seq(0, n):\n        \
        for j in seq(0, {width}):\n            \
        x[i, j] += y[i, j] * {factor}\n"
    )
}

/// The lines of the schedule for the procedure `m`.
fn lines_text(alloc: Global, n: u64, m: u64) -> Result<String, AllocError>
    requires n { n ≤ 4294967295 }
    requires m { m < 256 }
    ensures { IfOk result (λ t. string_bytes t ≡ lines_text n m) }
{
    let by = 2 + (n + m) % 15;
    format!(in alloc;
        "p = divide_loop(g{m}, 'j', {by}, ['jo', 'ji'], tail='guard')\n\
        p = reorder_loops(p, 'i jo')\n\
        emit(p)\n"
    )
}

/// The text of the unit of that number.
pub fn unit_text(alloc: Global, n: u32) -> Result<String, AllocError>
    ensures is { IfOk result (λ t. string_bytes t ≡ plain.unit_text n) }
    ensures short { IfOk result (λ t. length (string_bytes t) ≤ 1048576) }
{
    let mut text = String::new(alloc);
    for m in 0..procedures(n) {
        text.push_str(&procedure_text(alloc, n as u64, m as u64)?)?;
    }
    Ok(text)
}

/// The text of the schedule of that number.
pub fn schedule_text(alloc: Global, n: u32) -> Result<String, AllocError>
    ensures is { IfOk result (λ t. string_bytes t ≡ plain.schedule_text n) }
    ensures short { IfOk result (λ t. length (string_bytes t) ≤ 1048576) }
{
    let mut text = String::new(alloc);
    for m in 0..procedures(n) {
        text.push_str(&lines_text(alloc, n as u64, m as u64)?)?;
    }
    Ok(text)
}
