//! Templates of instructions: their parts, and which parameter a name in braces means.
ghost use Rattle.std.specs.Prelude.{◌≡◌, ◌++◌, [], map, IfOk, OnOk, string_bytes};
ghost use Rattle.std.specs.Char.{encode_utf8};
ghost use Rattle.exo_tree.specs.PlainParam.{parameter};
ghost use Rattle.exo_meaning.specs.Units as units;
ghost use Rattle.c_lowering.specs.Made.LoweredUnit.{holes_of};
ghost use Rattle.c_lowering.specs.PlainHole.{plain_hole};
ghost use Rattle.c_lowering.specs.Reader.{behind, all_parts, IsPast};
ghost use Rattle.c_lowering.specs.declared.templates.Place.TheVariants as places;

use exo_modes::{is_data_of, is_same};
use exo_tree::{Param, ParamKind};
use std::alloc::{AllocError, Global};

/// A part of an instruction's template: text as it is, or a name in braces.
#[derive(Drop)]
pub(crate) enum Hole {
    Bytes(String),
    InBraces(String),
}

/// Where the reading of a template stands: in plain text, behind an opening brace, behind a closing one, in a name, or
/// behind a brace that stands alone, where the template ends.
#[derive(Clone, Copy)]
enum Place {
    Plain,
    Opened,
    Closed,
    InName,
    Ended,
}

/// What was read of a template: its parts, the text behind them, and the name that stands behind the last brace.
#[derive(Drop)]
struct Reader {
    parts: Vec<Hole>,
    text: String,
    name: String,
    place: Place,
}

/// Appends a text as a part, where there is any.
fn put_text(alloc: Global, parts: &mut Vec<Hole>, text: &str) -> Result<(), AllocError>
    ensures { OnOk result (map plain_hole parts.new.items ≡ map plain_hole parts.old.items ++ behind text.now []) }
{
    if text.is_empty() {
        return Ok(());
    }
    let text = String::from_str(alloc, text)?;
    parts.push(Hole::Bytes(text))?;
    Ok(())
}

/// Reads a character of plain text.
fn read_plain(reader: &mut Reader, c: char) -> Result<(), AllocError>
    requires { reader.old.place ≡ places.Plain }
    ensures { OnOk result (IsPast (encode_utf8 c) reader.old reader.new) }
{
    match c {
        '{' => reader.place = Place::Opened,
        '}' => reader.place = Place::Closed,
        _ => reader.text.push(c)?,
    }
    Ok(())
}

/// Reads the character behind an opening brace.
fn read_opened(reader: &mut Reader, c: char) -> Result<(), AllocError>
    requires { reader.old.place ≡ places.Opened }
    ensures { OnOk result (IsPast (encode_utf8 c) reader.old reader.new) }
{
    match c {
        '{' => {
            reader.text.push(c)?;
            reader.place = Place::Plain;
        }
        '}' => reader.place = Place::Ended,
        _ => {
            reader.name.clear();
            reader.name.push(c)?;
            reader.place = Place::InName;
        }
    }
    Ok(())
}

/// Reads the character behind a closing brace.
fn read_closed(reader: &mut Reader, c: char) -> Result<(), AllocError>
    requires { reader.old.place ≡ places.Closed }
    ensures { OnOk result (IsPast (encode_utf8 c) reader.old reader.new) }
{
    if c == '}' {
        reader.text.push(c)?;
        reader.place = Place::Plain;
    } else {
        reader.place = Place::Ended;
    }
    Ok(())
}

/// The name so far becomes a part, behind the text.
fn end_name(alloc: Global, reader: &mut Reader) -> Result<(), AllocError>
    requires { reader.old.place ≡ places.InName }
    ensures { OnOk result (IsPast (encode_utf8 125) reader.old reader.new) }
{
    put_text(alloc, &mut reader.parts, reader.text.as_str())?;
    reader.text.clear();
    let name = String::from_str(alloc, reader.name.as_str())?;
    reader.parts.push(Hole::InBraces(name))?;
    reader.place = Place::Plain;
    Ok(())
}

/// Reads a character of a name.
fn read_name(alloc: Global, reader: &mut Reader, c: char) -> Result<(), AllocError>
    requires { reader.old.place ≡ places.InName }
    ensures { OnOk result (IsPast (encode_utf8 c) reader.old reader.new) }
{
    if c == '}' {
        return end_name(alloc, reader);
    }
    reader.name.push(c)?;
    Ok(())
}

/// Reads a character.
fn read(alloc: Global, reader: &mut Reader, c: char) -> Result<(), AllocError>
    ensures { OnOk result (IsPast (encode_utf8 c) reader.old reader.new) }
{
    match reader.place {
        Place::Plain => read_plain(reader, c),
        Place::Opened => read_opened(reader, c),
        Place::Closed => read_closed(reader, c),
        Place::InName => read_name(alloc, reader, c),
        Place::Ended => Ok(()),
    }
}

/// Reads a template.
fn read_all(alloc: Global, template: &str) -> Result<Reader, AllocError>
    ensures { IfOk result (λ r. holes_of template.now ≡ all_parts r []) }
{
    let mut reader = Reader {
        parts: Vec::new(alloc),
        text: String::new(alloc),
        name: String::new(alloc),
        place: Place::Plain,
    };
    for c in template.chars() {
        read(alloc, &mut reader, c)?;
    }
    Ok(reader)
}

/// The parts of a template. A brace stands for itself where it is doubled; what follows a lone brace is left out.
pub(crate) fn holes_of(alloc: Global, template: &str) -> Result<Vec<Hole>, AllocError>
    ensures { IfOk result (λ v. map plain_hole v.items ≡ holes_of template.now) }
{
    let mut reader = read_all(alloc, template)?;
    put_text(alloc, &mut reader.parts, reader.text.as_str())?;
    Ok(reader.parts)
}

/// Whether a name in braces means the parameter: `n` a control value, `x_data` a buffer.
pub(crate) fn is_hole_of(text: &str, p: &Param) -> bool
    ensures { result ≡ units.is_hole_of text.now (parameter p.now) }
{
    let name = p.binder.name.as_str().as_bytes();
    match &p.kind {
        ParamKind::Ctrl(_) => is_same(text.as_bytes(), name),
        ParamKind::Tensor(_, _, _) | ParamKind::Window(_, _, _) => {
            is_data_of(text.as_bytes(), name)
        }
    }
}
