//! Numbers, quotes and lines.
ghost use Rattle.std.specs.Prelude.{◌≡◌, ◌++◌, flat_map, decimal, OnOk, IfOk, string_bytes};
ghost use Rattle.std.specs.Fmt.{signed_decimal};
ghost use Rattle.std.specs.Str.{chars};
ghost use Rattle.text_show.specs.Names.{unknown};
ghost use Rattle.text_show.specs.Layout.{escaped, quoted, line, deeper};

use itoa::Buffer;
use std::alloc::{AllocError, Global};

/// Appends a number in decimal digits.
pub(crate) fn put_number(out: &mut String, n: u32) -> Result<(), AllocError>
    ensures { OnOk result (string_bytes out.new ≡ string_bytes out.old ++ decimal n) }
{
    let mut buffer = Buffer::new();
    out.push_str(buffer.format(n))
}

/// Appends a number in decimal digits, behind a sign where it is below 0.
pub(crate) fn put_signed(out: &mut String, n: i64) -> Result<(), AllocError>
    ensures { OnOk result (string_bytes out.new ≡ string_bytes out.old ++ signed_decimal n) }
{
    let mut buffer = Buffer::new();
    out.push_str(buffer.format(n))
}

/// Appends what stands for a number that names nothing.
pub(crate) fn put_unknown(out: &mut String, n: u32) -> Result<(), AllocError>
    ensures { OnOk result (string_bytes out.new ≡ string_bytes out.old ++ unknown n) }
{
    out.push_str("?")?;
    put_number(out, n)
}

/// Appends a character as it stands between double quotes.
fn put_escaped(out: &mut String, c: char) -> Result<(), AllocError>
    ensures { OnOk result (string_bytes out.new ≡ string_bytes out.old ++ escaped c) }
{
    match c {
        '\n' => out.push_str("\\n"),
        '"' => out.push_str("\\\""),
        '\\' => out.push_str("\\\\"),
        _ => out.push(c),
    }
}

/// Appends the characters of a text as they stand between double quotes.
fn put_characters(out: &mut String, text: &str) -> Result<(), AllocError>
    ensures { OnOk result (string_bytes out.new ≡ string_bytes out.old ++ flat_map escaped (chars text.now)) }
{
    for c in text.chars() {
        put_escaped(out, c)?;
    }
    Ok(())
}

/// Appends a text between double quotes.
pub(crate) fn put_quoted(out: &mut String, text: &str) -> Result<(), AllocError>
    ensures { OnOk result (string_bytes out.new ≡ string_bytes out.old ++ quoted text.now) }
{
    out.push_str("\"")?;
    put_characters(out, text)?;
    out.push_str("\"")
}

/// The indentation of an inner block.
pub(crate) fn inner_indent(alloc: Global, indent: &str) -> Result<String, AllocError>
    ensures { IfOk result (λ s. string_bytes s ≡ deeper indent.now) }
{
    format!(in alloc; "{indent}    ")
}

/// Appends a line behind an indentation.
pub(crate) fn put_line(out: &mut String, indent: &str, text: &str) -> Result<(), AllocError>
    ensures { OnOk result (string_bytes out.new ≡ string_bytes out.old ++ line indent.now text.now) }
{
    out.push_str(indent)?;
    out.push_str(text)?;
    out.push_str("\n")
}
