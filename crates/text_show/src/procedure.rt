//! The source text of procedures.
ghost use Rattle.std.specs.Prelude.{◌≡◌, [], ◌++◌, map, flat_map, OnOk, IfOk, string_bytes};
ghost use Rattle.exo_tree.specs.Tree as tree;
ghost use Rattle.exo_tree.specs.PlainBinder.{control_kind};
ghost use Rattle.exo_tree.specs.PlainControl.{condition};
ghost use Rattle.exo_tree.specs.PlainParam.{parameter_kind, parameter};
ghost use Rattle.exo_tree.specs.PlainProcedure.{procedure};
ghost use Rattle.exo_tree.specs.PlainUnit.{program};
ghost use Rattle.text_show.specs.Layout.{listed, line};
ghost use Rattle.text_show.specs.Words.{words_of, kind_word};
ghost use Rattle.text_show.specs.ProcedureText.{marker_text, type_text, param_text, assert_text, header_text, procedure_text, shown};
ghost use Rattle.text_show.specs.Seen.{words_in};

use crate::control::put_condition;
use crate::statement::{put_block, put_extent};
use crate::text::{put_line, put_quoted};
use crate::words::Words;
use exo_tree::{Cond, Kind, Param, ParamKind, Params, Proc, ProcId, Text, Unit};
use std::alloc::{AllocError, Global};

/// The word of a control type.
fn kind_word(kind: Kind) -> &'static str
    ensures { result.now ≡ kind_word (control_kind kind) }
{
    match kind {
        Kind::Size => "size",
        Kind::Index => "index",
        Kind::Bool => "bool",
        Kind::Stride => "stride",
    }
}

/// Appends what a parameter takes.
fn put_type(out: &mut String, words: &Words, kind: &ParamKind) -> Result<(), AllocError>
    ensures { OnOk result (string_bytes out.new ≡ string_bytes out.old ++ type_text (words_in words.now) (parameter_kind kind.now)) }
{
    match kind {
        ParamKind::Ctrl(kind) => out.push_str(kind_word(*kind)),
        ParamKind::Tensor(cell, dims, m) => {
            out.push_str(cell.word())?;
            put_extent(out, words, dims, *m)
        }
        ParamKind::Window(cell, dims, m) => {
            out.push_str("[")?;
            out.push_str(cell.word())?;
            out.push_str("]")?;
            put_extent(out, words, dims, *m)
        }
    }
}

/// Appends the text of a parameter.
fn put_param(out: &mut String, words: &Words, p: &Param) -> Result<(), AllocError>
    ensures { OnOk result (string_bytes out.new ≡ string_bytes out.old ++ param_text (words_in words.now) (parameter p.now)) }
{
    out.push_str(p.binder.name.as_str())?;
    out.push_str(": ")?;
    put_type(out, words, &p.kind)
}

/// Appends parameters with commas between.
fn put_params(out: &mut String, words: &Words, params: &Params) -> Result<(), AllocError>
    ensures { OnOk result (string_bytes out.new ≡ string_bytes out.old ++ listed (map (param_text (words_in words.now)) params.now)) }
{
    let Some((first, rest)) = params.as_slice().split_first() else {
        return Ok(());
    };
    put_param(out, words, first)?;
    for p in rest {
        out.push_str(", ")?;
        put_param(out, words, p)?;
    }
    Ok(())
}

/// Appends the line that marks a procedure or an instruction.
fn put_marker(out: &mut String, template: &Option<Text>) -> Result<(), AllocError>
    ensures { OnOk result (string_bytes out.new ≡ string_bytes out.old ++ line [] (marker_text template.now)) }
{
    match template {
        None => put_line(out, "", "@proc"),
        Some(text) => {
            out.push_str("@instr(")?;
            put_quoted(out, text.as_str())?;
            out.push_str(")\n")
        }
    }
}

/// Appends the first line of the definition.
fn put_header(out: &mut String, words: &Words, p: &Proc) -> Result<(), AllocError>
    ensures { OnOk result (string_bytes out.new ≡ string_bytes out.old ++ line [] (header_text (words_in words.now) (procedure p.now))) }
{
    out.push_str("def ")?;
    out.push_str(p.name.as_str())?;
    out.push_str("(")?;
    put_params(out, words, &p.params)?;
    out.push_str("):\n")
}

/// Appends the line of an assertion.
fn put_assert(out: &mut String, words: &Words, c: &Cond) -> Result<(), AllocError>
    ensures { OnOk result (string_bytes out.new ≡ string_bytes out.old ++ assert_text (words_in words.now) (condition c.now)) }
{
    out.push_str("    assert ")?;
    put_condition(out, words, c)?;
    out.push_str("\n")
}

/// Appends the lines of assertions.
fn put_asserts(out: &mut String, words: &Words, asserts: &[Cond]) -> Result<(), AllocError>
    ensures { OnOk result
        (string_bytes out.new
        ≡ string_bytes out.old
        ++ flat_map (assert_text (words_in words.now)) (map condition asserts.now)) }
{
    for c in asserts {
        put_assert(out, words, c)?;
    }
    Ok(())
}

/// The source text of a procedure of the unit.
fn procedure_text(alloc: Global, unit: &Unit, p: &Proc) -> Result<String, AllocError>
    ensures { IfOk result (λ t. string_bytes t ≡ procedure_text (words_of (program unit.now) (procedure p.now)) (procedure p.now)) }
{
    let words = Words::new(alloc, unit, p)?;
    let mut out = String::new(alloc);
    put_marker(&mut out, &p.template)?;
    put_header(&mut out, &words, p)?;
    put_asserts(&mut out, &words, p.asserts.as_slice())?;
    put_block(alloc, &mut out, &words, "    ", &p.body)?;
    Ok(out)
}

/// The source text of the procedure `p` of the unit, one item with its lines; empty where the unit has no such procedure.
/// An id that no binder of the procedure has, and a number of no field, memory or procedure, is written `?` and the number.
pub fn show(alloc: Global, unit: &Unit, p: ProcId) -> Result<String, AllocError>
    ensures { IfOk result (λ t. string_bytes t ≡ shown (program unit.now) p.0) }
{
    match unit.procs.get(p.0 as usize) {
        Some(found) => procedure_text(alloc, unit, found),
        None => Ok(String::new(alloc)),
    }
}
