//! The text of expressions over cells.
ghost use Rattle.std.specs.Prelude.{◌≡◌, ◌++◌, codes, OnOk, string_bytes};
ghost use Rattle.exo_tree.specs.PlainDatum.{datum};
ghost use Rattle.text_show.specs.DatumText.{datum_precedence, datum_in_place, datum_text};
ghost use Rattle.text_show.specs.Seen.{words_in};

use crate::control::put_access;
use crate::precedence::{PRODUCT, SUM, UNARY};
use crate::text::put_signed;
use crate::words::Words;
use exo_tree::DataExpr;
use std::alloc::AllocError;

fn datum_precedence(e: &DataExpr) -> u8
    ensures { result ≡ datum_precedence (datum e.now) }
{
    match e {
        DataExpr::Add(_, _) | DataExpr::Sub(_, _) => SUM,
        DataExpr::Mul(_, _) => PRODUCT,
        _ => UNARY,
    }
}

/// Appends an expression as an operand: one that binds more loosely than its place asks has parentheses.
#[cycle(datum)]
fn put_operand(out: &mut String, words: &Words, e: &DataExpr, place: u8) -> Result<(), AllocError>
    ensures { OnOk result
        (string_bytes out.new
        ≡ string_bytes out.old
        ++ datum_in_place place (datum e.now) (datum_text (words_in words.now) (datum e.now))) }
{
    if datum_precedence(e) < place {
        out.push_str("(")?;
        put_datum(out, words, e)?;
        out.push_str(")")
    } else {
        put_datum(out, words, e)
    }
}

/// Appends a further expression of a list.
#[cycle(datum)]
fn put_next(out: &mut String, words: &Words, e: &DataExpr) -> Result<(), AllocError>
    ensures { OnOk result (string_bytes out.new ≡ string_bytes out.old ++ (codes ", " ++ datum_text (words_in words.now) (datum e.now))) }
{
    out.push_str(", ")?;
    put_datum(out, words, e)
}

/// Appends the text of an expression over cells.
#[cycle(datum)]
pub fn put_datum(out: &mut String, words: &Words, e: &DataExpr) -> Result<(), AllocError>
    ensures { OnOk result (string_bytes out.new ≡ string_bytes out.old ++ datum_text (words_in words.now) (datum e.now)) }
{
    match e {
        DataExpr::Lit(n) => put_signed(out, *n),
        DataExpr::Read(x, at) => put_access(out, words, *x, at),
        DataExpr::Neg(a) => {
            out.push_str("-")?;
            put_operand(out, words, a, UNARY)
        }
        DataExpr::Add(a, b) => {
            put_operand(out, words, a, SUM)?;
            out.push_str(" + ")?;
            put_operand(out, words, b, PRODUCT)
        }
        DataExpr::Sub(a, b) => {
            put_operand(out, words, a, SUM)?;
            out.push_str(" - ")?;
            put_operand(out, words, b, PRODUCT)
        }
        DataExpr::Mul(a, b) => {
            put_operand(out, words, a, PRODUCT)?;
            out.push_str(" * ")?;
            put_operand(out, words, b, UNARY)
        }
        DataExpr::Relu(a) => {
            out.push_str("relu(")?;
            put_datum(out, words, a)?;
            out.push_str(")")
        }
        DataExpr::Select(a, b, c, d) => {
            out.push_str("select(")?;
            put_datum(out, words, a)?;
            put_next(out, words, b)?;
            put_next(out, words, c)?;
            put_next(out, words, d)?;
            out.push_str(")")
        }
    }
}
