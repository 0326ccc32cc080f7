//! The text of expressions over control values.
ghost use Rattle.std.specs.Prelude.{◌≡◌, ◌++◌, map, OnOk, string_bytes};
ghost use Rattle.exo_tree.specs.Tree as tree;
ghost use Rattle.exo_tree.specs.PlainControl.{control, condition, coordinate};
ghost use Rattle.text_show.specs.ControlText.{precedence_of, in_place, control_text, coord_text};
ghost use Rattle.text_show.specs.ControlText.{indices_text, access_text, window_text};
ghost use Rattle.text_show.specs.ControlText.{condition_precedence, condition_in_place};
ghost use Rattle.text_show.specs.ControlText.{condition_text};
ghost use Rattle.text_show.specs.Seen.{words_in};

use crate::precedence::{COMPARISON, CONJUNCTION, DISJUNCTION, PRODUCT, SUM, UNARY};
use crate::text::{put_number, put_signed};
use crate::words::Words;
use exo_tree::{Cond, Coord, Coords, Ctrl, Id, Indices};
use std::alloc::AllocError;

fn precedence_of(e: &Ctrl) -> u8
    ensures { result ≡ precedence_of (control e.now) }
{
    match e {
        Ctrl::Add(_, _) | Ctrl::Sub(_, _) => SUM,
        Ctrl::Mul(_, _) | Ctrl::Div(_, _) | Ctrl::Mod(_, _) => PRODUCT,
        _ => UNARY,
    }
}

/// Appends an expression as an operand: one that binds more loosely than its place asks has parentheses.
#[cycle(control)]
fn put_operand(out: &mut String, words: &Words, e: &Ctrl, place: u8) -> Result<(), AllocError>
    ensures { OnOk result
        (string_bytes out.new
        ≡ string_bytes out.old
        ++ in_place place (control e.now) (control_text (words_in words.now) (control e.now))) }
{
    if precedence_of(e) < place {
        out.push_str("(")?;
        put_control(out, words, e)?;
        out.push_str(")")
    } else {
        put_control(out, words, e)
    }
}

/// Appends the stride of a buffer's dimension.
fn put_stride(out: &mut String, words: &Words, x: Id, k: u32) -> Result<(), AllocError>
    ensures { OnOk result (string_bytes out.new ≡ string_bytes out.old ++ control_text (words_in words.now) (tree.StrideOf x.0 k)) }
{
    out.push_str("stride(")?;
    words.put_name(out, x)?;
    out.push_str(", ")?;
    put_number(out, k)?;
    out.push_str(")")
}

/// Appends the text of an expression.
#[cycle(control)]
pub fn put_control(out: &mut String, words: &Words, e: &Ctrl) -> Result<(), AllocError>
    ensures { OnOk result (string_bytes out.new ≡ string_bytes out.old ++ control_text (words_in words.now) (control e.now)) }
{
    match e {
        Ctrl::Lit(n) => put_signed(out, *n),
        Ctrl::Var(x) => words.put_name(out, *x),
        Ctrl::Field(f) => words.put_field(out, *f),
        Ctrl::Stride(x, k) => put_stride(out, words, *x, *k),
        Ctrl::Neg(a) => {
            out.push_str("-")?;
            put_operand(out, words, a, UNARY)
        }
        Ctrl::Add(a, b) => {
            put_operand(out, words, a, SUM)?;
            out.push_str(" + ")?;
            put_operand(out, words, b, PRODUCT)
        }
        Ctrl::Sub(a, b) => {
            put_operand(out, words, a, SUM)?;
            out.push_str(" - ")?;
            put_operand(out, words, b, PRODUCT)
        }
        Ctrl::Mul(a, b) => {
            put_operand(out, words, a, PRODUCT)?;
            out.push_str(" * ")?;
            put_operand(out, words, b, UNARY)
        }
        Ctrl::Div(a, n) => {
            put_operand(out, words, a, PRODUCT)?;
            out.push_str(" / ")?;
            put_signed(out, *n)
        }
        Ctrl::Mod(a, n) => {
            put_operand(out, words, a, PRODUCT)?;
            out.push_str(" % ")?;
            put_signed(out, *n)
        }
    }
}

fn condition_precedence(c: &Cond) -> u8
    ensures { result ≡ condition_precedence (condition c.now) }
{
    match c {
        Cond::Or(_, _) => DISJUNCTION,
        Cond::And(_, _) => CONJUNCTION,
        Cond::Lt(_, _) | Cond::Le(_, _) | Cond::Gt(_, _) | Cond::Ge(_, _) | Cond::Eq(_, _) =>
            COMPARISON,
        _ => UNARY,
    }
}

/// Appends a condition as an operand: one that binds more loosely than its place asks has parentheses.
#[cycle(condition)]
fn put_part(out: &mut String, words: &Words, c: &Cond, place: u8) -> Result<(), AllocError>
    ensures { OnOk result
        (string_bytes out.new
        ≡ string_bytes out.old
        ++ condition_in_place place (condition c.now)
        (condition_text (words_in words.now) (condition c.now))) }
{
    if condition_precedence(c) < place {
        out.push_str("(")?;
        put_condition(out, words, c)?;
        out.push_str(")")
    } else {
        put_condition(out, words, c)
    }
}

/// Appends two expressions with the sign of a comparison between, which has its spaces.
fn put_comparison(
    out: &mut String,
    words: &Words,
    a: &Ctrl,
    sign: &str,
    b: &Ctrl,
) -> Result<(), AllocError>
    ensures { OnOk result
        (string_bytes out.new
        ≡ string_bytes out.old
        ++ control_text (words_in words.now) (control a.now)
        ++ sign.now
        ++ control_text (words_in words.now) (control b.now)) }
{
    put_control(out, words, a)?;
    out.push_str(sign)?;
    put_control(out, words, b)
}

/// Appends the text of a condition.
#[cycle(condition)]
pub fn put_condition(out: &mut String, words: &Words, c: &Cond) -> Result<(), AllocError>
    ensures { OnOk result (string_bytes out.new ≡ string_bytes out.old ++ condition_text (words_in words.now) (condition c.now)) }
{
    match c {
        Cond::True => out.push_str("True"),
        Cond::False => out.push_str("False"),
        Cond::Var(x) => words.put_name(out, *x),
        Cond::Field(f) => words.put_field(out, *f),
        Cond::Lt(a, b) => put_comparison(out, words, a, " < ", b),
        Cond::Le(a, b) => put_comparison(out, words, a, " <= ", b),
        Cond::Gt(a, b) => put_comparison(out, words, a, " > ", b),
        Cond::Ge(a, b) => put_comparison(out, words, a, " >= ", b),
        Cond::Eq(a, b) => put_comparison(out, words, a, " == ", b),
        Cond::And(a, b) => {
            put_part(out, words, a, CONJUNCTION)?;
            out.push_str(" and ")?;
            put_part(out, words, b, COMPARISON)
        }
        Cond::Or(a, b) => {
            put_part(out, words, a, DISJUNCTION)?;
            out.push_str(" or ")?;
            put_part(out, words, b, CONJUNCTION)
        }
    }
}

/// Appends indices or dimensions in brackets, or nothing where there are none.
pub(crate) fn put_indices(out: &mut String, words: &Words, at: &Indices) -> Result<(), AllocError>
    ensures { OnOk result (string_bytes out.new ≡ string_bytes out.old ++ indices_text (words_in words.now) at.now) }
{
    let Some((first, rest)) = at.as_slice().split_first() else {
        return Ok(());
    };
    out.push_str("[")?;
    put_control(out, words, first)?;
    for e in rest {
        out.push_str(", ")?;
        put_control(out, words, e)?;
    }
    out.push_str("]")
}

/// Appends the text of a cell: a name, and indices in brackets where there are some.
pub fn put_access(out: &mut String, words: &Words, x: Id, at: &Indices) -> Result<(), AllocError>
    ensures { OnOk result (string_bytes out.new ≡ string_bytes out.old ++ access_text (words_in words.now) x.0 at.now) }
{
    words.put_name(out, x)?;
    put_indices(out, words, at)
}

/// Appends the text of a coordinate.
fn put_coord(out: &mut String, words: &Words, c: &Coord) -> Result<(), AllocError>
    ensures { OnOk result (string_bytes out.new ≡ string_bytes out.old ++ coord_text (words_in words.now) (coordinate c.now)) }
{
    match c {
        Coord::At(a) => put_control(out, words, a),
        Coord::Span(a, b) => {
            put_control(out, words, a)?;
            out.push_str(":")?;
            put_control(out, words, b)
        }
    }
}

/// Appends the text of a window: a name, and coordinates in brackets.
pub fn put_window(out: &mut String, words: &Words, x: Id, at: &Coords) -> Result<(), AllocError>
    ensures { OnOk result (string_bytes out.new ≡ string_bytes out.old ++ window_text (words_in words.now) x.0 at.now) }
{
    words.put_name(out, x)?;
    let Some((first, rest)) = at.as_slice().split_first() else {
        return Ok(());
    };
    out.push_str("[")?;
    put_coord(out, words, first)?;
    for c in rest {
        out.push_str(", ")?;
        put_coord(out, words, c)?;
    }
    out.push_str("]")
}
