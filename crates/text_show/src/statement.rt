//! The text of statements and blocks.
ghost use Rattle.std.specs.Prelude.{◌≡◌, ◌++◌, map, OnOk, string_bytes};
ghost use Rattle.exo_tree.specs.Tree as tree;
ghost use Rattle.exo_tree.specs.Tree.{block};
ghost use Rattle.exo_tree.specs.PlainArgument.{argument};
ghost use Rattle.exo_tree.specs.PlainBinder.{binding, cell_type};
ghost use Rattle.exo_tree.specs.PlainControl.{control};
ghost use Rattle.exo_tree.specs.PlainStatement.{statement};
ghost use Rattle.text_show.specs.Layout.{listed, loop_text};
ghost use Rattle.text_show.specs.ControlText.{control_text};
ghost use Rattle.text_show.specs.StatementText.{or_else, argument_text, memory_text, extent_text, head_text, block_text, inner_text};
ghost use Rattle.text_show.specs.Seen.{words_in};

use crate::control::{put_access, put_condition, put_control, put_indices, put_window};
use crate::datum::put_datum;
use crate::text::{inner_indent, put_line};
use crate::words::Words;
use exo_tree::{Arg, Args, Binder, Block, Cell, Ctrl, Indices, MemId, ProcId, Stmt};
use std::alloc::{AllocError, Global};

/// Appends the text of an argument.
pub fn put_argument(out: &mut String, words: &Words, a: &Arg) -> Result<(), AllocError>
    ensures { OnOk result (string_bytes out.new ≡ string_bytes out.old ++ argument_text (words_in words.now) (argument a.now)) }
{
    match a {
        Arg::Ctrl(e) => put_control(out, words, e),
        Arg::Cond(c) => put_condition(out, words, c),
        Arg::Whole(x) => words.put_name(out, *x),
        Arg::Window(x, at) => put_window(out, words, *x, at),
    }
}

/// Appends a memory where it is not the default one.
fn put_memory(out: &mut String, words: &Words, m: MemId) -> Result<(), AllocError>
    ensures { OnOk result (string_bytes out.new ≡ string_bytes out.old ++ memory_text (words_in words.now) m.0) }
{
    if m.0 == 0 {
        return Ok(());
    }
    out.push_str(" @ ")?;
    words.put_memory(out, m)
}

/// Appends dimensions and a memory.
pub(crate) fn put_extent(
    out: &mut String,
    words: &Words,
    dims: &Indices,
    m: MemId,
) -> Result<(), AllocError>
    ensures { OnOk result (string_bytes out.new ≡ string_bytes out.old ++ extent_text (words_in words.now) dims.now m.0) }
{
    put_indices(out, words, dims)?;
    put_memory(out, words, m)
}

/// Appends the first line of an allocation.
fn put_alloc(
    out: &mut String,
    words: &Words,
    b: &Binder,
    cell: Cell,
    dims: &Indices,
    m: MemId,
) -> Result<(), AllocError>
    ensures { OnOk result
        (string_bytes out.new
        ≡ string_bytes out.old
        ++ head_text (words_in words.now)
        (tree.Alloc (binding b.now) (cell_type cell) dims.now m.0)) }
{
    out.push_str(b.name.as_str())?;
    out.push_str(" : ")?;
    out.push_str(cell.word())?;
    put_extent(out, words, dims, m)
}

/// Appends the first line of a loop.
fn put_loop(
    out: &mut String,
    words: &Words,
    i: &Binder,
    lo: &Ctrl,
    hi: &Ctrl,
) -> Result<(), AllocError>
    ensures { OnOk result
        (string_bytes out.new
        ≡ string_bytes out.old
        ++ loop_text i.now.name (control_text (words_in words.now) (control lo.now))
        (control_text (words_in words.now) (control hi.now))) }
{
    out.push_str("for ")?;
    out.push_str(i.name.as_str())?;
    out.push_str(" in seq(")?;
    put_control(out, words, lo)?;
    out.push_str(", ")?;
    put_control(out, words, hi)?;
    out.push_str("):")
}

/// Appends a call.
fn put_call(out: &mut String, words: &Words, k: ProcId, args: &Args) -> Result<(), AllocError>
    ensures { OnOk result (string_bytes out.new ≡ string_bytes out.old ++ head_text (words_in words.now) (tree.Call k.0 args.now)) }
{
    words.put_callee(out, k)?;
    out.push_str("(")?;
    put_arguments(out, words, args)?;
    out.push_str(")")
}

/// Appends arguments with commas between.
fn put_arguments(out: &mut String, words: &Words, args: &Args) -> Result<(), AllocError>
    ensures { OnOk result (string_bytes out.new ≡ string_bytes out.old ++ listed (map (argument_text (words_in words.now)) args.now)) }
{
    let Some((first, rest)) = args.as_slice().split_first() else {
        return Ok(());
    };
    put_argument(out, words, first)?;
    for a in rest {
        out.push_str(", ")?;
        put_argument(out, words, a)?;
    }
    Ok(())
}

/// Appends the first line of a statement.
fn put_head(out: &mut String, words: &Words, s: &Stmt) -> Result<(), AllocError>
    ensures { OnOk result (string_bytes out.new ≡ string_bytes out.old ++ head_text (words_in words.now) (statement s.now)) }
{
    match s {
        Stmt::Assign(x, at, e) => {
            put_access(out, words, *x, at)?;
            out.push_str(" = ")?;
            put_datum(out, words, e)
        }
        Stmt::Reduce(x, at, e) => {
            put_access(out, words, *x, at)?;
            out.push_str(" += ")?;
            put_datum(out, words, e)
        }
        Stmt::Config(f, a) => {
            words.put_field(out, *f)?;
            out.push_str(" = ")?;
            put_argument(out, words, a)
        }
        Stmt::Pass => out.push_str("pass"),
        Stmt::If(c, _, _) => {
            out.push_str("if ")?;
            put_condition(out, words, c)?;
            out.push_str(":")
        }
        Stmt::For(i, lo, hi, _) => put_loop(out, words, i, lo, hi),
        Stmt::Alloc(b, cell, dims, m) => put_alloc(out, words, b, *cell, dims, *m),
        Stmt::View(v, x, at) => {
            out.push_str(v.name.as_str())?;
            out.push_str(" = ")?;
            put_window(out, words, *x, at)
        }
        Stmt::Call(k, args) => put_call(out, words, *k, args),
    }
}

/// Appends the second branch of a condition where it is there.
#[cycle(block)]
fn put_other(
    alloc: Global,
    out: &mut String,
    words: &Words,
    indent: &str,
    inner: &str,
    other: &Block,
) -> Result<(), AllocError>
    ensures { OnOk result
        (string_bytes out.new
        ≡ string_bytes out.old
        ++ or_else indent.now (block other.now)
        (block_text (words_in words.now) inner.now (block other.now))) }
{
    if other.len() == 0 {
        return Ok(());
    }
    put_line(out, indent, "else:")?;
    put_block(alloc, out, words, inner, other)
}

/// Appends the lines of a statement after its first.
#[cycle(block)]
fn put_inner(
    alloc: Global,
    out: &mut String,
    words: &Words,
    indent: &str,
    s: &Stmt,
) -> Result<(), AllocError>
    ensures { OnOk result (string_bytes out.new ≡ string_bytes out.old ++ inner_text (words_in words.now) indent.now (statement s.now)) }
{
    match s {
        Stmt::If(_, a, b) => {
            let inner = inner_indent(alloc, indent)?;
            put_block(alloc, out, words, inner.as_str(), a)?;
            put_other(alloc, out, words, indent, inner.as_str(), b)
        }
        Stmt::For(_, _, _, b) => {
            let inner = inner_indent(alloc, indent)?;
            put_block(alloc, out, words, inner.as_str(), b)
        }
        _ => Ok(()),
    }
}

/// Appends the lines of a block behind an indentation.
#[cycle(block)]
pub(crate) fn put_block(
    alloc: Global,
    out: &mut String,
    words: &Words,
    indent: &str,
    b: &Block,
) -> Result<(), AllocError>
    ensures { OnOk result (string_bytes out.new ≡ string_bytes out.old ++ block_text (words_in words.now) indent.now (block b.now)) }
{
    for k in 0..b.len() {
        let s = b.statement(k);
        out.push_str(indent)?;
        put_head(out, words, s)?;
        out.push_str("\n")?;
        put_inner(alloc, out, words, indent, s)?;
    }
    Ok(())
}
