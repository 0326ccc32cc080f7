//! The text of a file of C, appended piece by piece to one string.
ghost use Rattle.std.specs.Prelude.{◌≡◌, ◌++◌, [], map, codes, IfOk, OnOk, string_bytes};
ghost use Rattle.c_tree.specs.CTree.{cblock};
ghost use Rattle.c_tree.specs.CText.{margin, each, or_word, or_else, head_text};
ghost use Rattle.c_tree.specs.CText.{block_text, inner_text, formal_text, signature_text};
ghost use Rattle.c_tree.specs.CText.{function_text, report_text, include_text, struct_text};
ghost use Rattle.c_tree.specs.CText.{field_text, preamble_text, text_of};
ghost use Rattle.c_tree.specs.Plain.{plain_statement, plain_struct, plain_param, plain_function, plain_line, plain_unit};
ghost use Rattle.text_show.specs.Layout.{line, deeper};

use crate::names::{put_helpers, put_margin};
use crate::show::type_word;
use crate::tree::{CBlock, CFunction, CParam, CStatement, CStruct, CUnit, ReportLine};
use std::alloc::{AllocError, Global};

/// Appends a line behind an indentation.
fn put_line(out: &mut String, indent: &str, text: &str) -> Result<(), AllocError>
    ensures { OnOk result (string_bytes out.new ≡ string_bytes out.old ++ line indent.now text.now) }
{
    writeln!(out, "{indent}{text}")
}

/// The indentation of an inner block.
fn inner_indent(alloc: Global, indent: &str) -> Result<String, AllocError>
    ensures { IfOk result (λ s. string_bytes s ≡ deeper indent.now) }
{
    format!(in alloc; "{indent}    ")
}

/// Appends the second branch of a condition and the brace.
#[cycle(put)]
fn put_other(
    alloc: Global,
    out: &mut String,
    indent: &str,
    inner: &str,
    other: &CBlock,
) -> Result<(), AllocError>
    ensures { OnOk result
        (string_bytes out.new
        ≡ string_bytes out.old
        ++ or_else indent.now (cblock other.now) (block_text inner.now (cblock other.now))) }
{
    if other.is_empty() {
        return put_line(out, indent, "}");
    }
    put_line(out, indent, "} else {")?;
    put_block(alloc, out, inner, other)?;
    put_line(out, indent, "}")?;
    Ok(())
}

/// Appends the branches of a condition.
#[cycle(put)]
fn put_branches(
    alloc: Global,
    out: &mut String,
    indent: &str,
    then: &CBlock,
    other: &CBlock,
) -> Result<(), AllocError>
    ensures { OnOk result
        (string_bytes out.new
        ≡ string_bytes out.old
        ++ (block_text (deeper indent.now) (cblock then.now)
        ++ or_else indent.now (cblock other.now)
        (block_text (deeper indent.now) (cblock other.now)))) }
{
    let inner = inner_indent(alloc, indent)?;
    put_block(alloc, out, inner.as_str(), then)?;
    put_other(alloc, out, indent, inner.as_str(), other)?;
    Ok(())
}

/// Appends the body of a loop and the brace.
#[cycle(put)]
fn put_body(alloc: Global, out: &mut String, indent: &str, body: &CBlock) -> Result<(), AllocError>
    ensures { OnOk result
        (string_bytes out.new
        ≡ string_bytes out.old
        ++ (block_text (deeper indent.now) (cblock body.now) ++ line indent.now (codes "}"))) }
{
    let inner = inner_indent(alloc, indent)?;
    put_block(alloc, out, inner.as_str(), body)?;
    put_line(out, indent, "}")?;
    Ok(())
}

/// Appends the lines of a statement after its first.
#[cycle(put)]
fn put_inner(
    alloc: Global,
    out: &mut String,
    indent: &str,
    s: &CStatement,
) -> Result<(), AllocError>
    ensures { OnOk result (string_bytes out.new ≡ string_bytes out.old ++ inner_text indent.now (plain_statement s.now)) }
{
    match s {
        CStatement::Branch(_, then, other) => put_branches(alloc, out, indent, then, other),
        CStatement::Loop(_, _, _, body) => put_body(alloc, out, indent, body),
        _ => Ok(()),
    }
}

/// Appends the first line of a statement.
fn put_head(out: &mut String, indent: &str, s: &CStatement) -> Result<(), AllocError>
    ensures { OnOk result (string_bytes out.new ≡ string_bytes out.old ++ line indent.now (head_text (plain_statement s.now))) }
{
    writeln!(out, "{indent}{s}")
}

/// Appends the lines of a block.
#[cycle(put)]
fn put_block(
    alloc: Global,
    out: &mut String,
    indent: &str,
    block: &CBlock,
) -> Result<(), AllocError>
    ensures { OnOk result (string_bytes out.new ≡ string_bytes out.old ++ block_text indent.now (cblock block.now)) }
{
    for k in 0..block.len() {
        let s = block.statement(k);
        put_head(out, indent, s)?;
        put_inner(alloc, out, indent, s)?;
    }
    Ok(())
}

/// Appends parameters with commas between, or `void` where there is none.
fn put_params(out: &mut String, params: &[CParam]) -> Result<(), AllocError>
    ensures { OnOk result
        (string_bytes out.new
        ≡ string_bytes out.old
        ++ or_word (codes "void") (map formal_text (map plain_param params.now))) }
{
    let Some((first, rest)) = params.split_first() else {
        return out.push_str("void");
    };
    write!(out, "{first}")?;
    for p in rest {
        write!(out, ", {p}")?;
    }
    Ok(())
}

/// Appends the first line of a function.
fn put_signature(out: &mut String, f: &CFunction) -> Result<(), AllocError>
    ensures { OnOk result
        (string_bytes out.new
        ≡ string_bytes out.old
        ++ margin (signature_text (string_bytes f.now.name)
        (or_word (codes "void") (map formal_text (map plain_param f.now.params.items))))) }
{
    write!(out, "void {}(", f.name)?;
    put_params(out, &f.params)?;
    put_margin(out, ") {")
}

/// Appends a function after an empty line.
fn put_function(alloc: Global, out: &mut String, f: &CFunction) -> Result<(), AllocError>
    ensures { OnOk result (string_bytes out.new ≡ string_bytes out.old ++ (margin [] ++ function_text (plain_function f.now))) }
{
    put_margin(out, "")?;
    put_signature(out, f)?;
    put_block(alloc, out, "    ", &f.body)?;
    put_margin(out, "}")?;
    Ok(())
}

/// Appends names with commas between, or `nothing` where there is none.
fn put_names(out: &mut String, names: &[String]) -> Result<(), AllocError>
    ensures { OnOk result (string_bytes out.new ≡ string_bytes out.old ++ or_word (codes "nothing") (map string_bytes names.now)) }
{
    let Some((first, rest)) = names.split_first() else {
        return out.push_str("nothing");
    };
    out.push_str(first.as_str())?;
    for name in rest {
        write!(out, ", {name}")?;
    }
    Ok(())
}

/// Appends a line of the report.
fn put_report_line(out: &mut String, r: &ReportLine) -> Result<(), AllocError>
    ensures { OnOk result (string_bytes out.new ≡ string_bytes out.old ++ report_text (plain_line r.now)) }
{
    write!(out, " * {}: from {}; differs: ", r.name, r.origin)?;
    put_names(out, &r.differs)?;
    put_margin(out, "")
}

/// Appends the report.
fn put_report(out: &mut String, report: &[ReportLine]) -> Result<(), AllocError>
    ensures { OnOk result (string_bytes out.new ≡ string_bytes out.old ++ each report_text (map plain_line report.now)) }
{
    for r in report {
        put_report_line(out, r)?;
    }
    Ok(())
}

/// Appends a line for each further header.
fn put_includes(out: &mut String, headers: &[String]) -> Result<(), AllocError>
    ensures { OnOk result (string_bytes out.new ≡ string_bytes out.old ++ each include_text (map string_bytes headers.now)) }
{
    for header in headers {
        writeln!(out, "#include <{header}>")?;
    }
    Ok(())
}

/// Appends the line of a struct.
fn put_struct(out: &mut String, s: &CStruct) -> Result<(), AllocError>
    ensures { OnOk result (string_bytes out.new ≡ string_bytes out.old ++ struct_text (plain_struct s.now)) }
{
    writeln!(
        out,
        "{s} {{ {} *data; int64_t strides[{}]; }};",
        type_word(s.cell),
        s.rank
    )
}

/// Appends a line for each struct of windows.
fn put_structs(out: &mut String, structs: &[CStruct]) -> Result<(), AllocError>
    ensures { OnOk result (string_bytes out.new ≡ string_bytes out.old ++ each struct_text (map plain_struct structs.now)) }
{
    for s in structs {
        put_struct(out, s)?;
    }
    Ok(())
}

/// Appends a line for each configuration field.
fn put_fields(out: &mut String, fields: &[String]) -> Result<(), AllocError>
    ensures { OnOk result (string_bytes out.new ≡ string_bytes out.old ++ each field_text (map string_bytes fields.now)) }
{
    for x in fields {
        writeln!(out, "int64_t {x};")?;
    }
    Ok(())
}

/// Appends the functions.
fn put_functions(alloc: Global, out: &mut String, functions: &[CFunction]) -> Result<(), AllocError>
    ensures { OnOk result
        (string_bytes out.new
        ≡ string_bytes out.old
        ++ each (λ f. margin [] ++ function_text f) (map plain_function functions.now)) }
{
    for f in functions {
        put_function(alloc, out, f)?;
    }
    Ok(())
}

/// Appends the headers, and the helpers after an empty line.
fn put_preamble(out: &mut String, headers: &[String]) -> Result<(), AllocError>
    ensures { OnOk result (string_bytes out.new ≡ string_bytes out.old ++ preamble_text (map string_bytes headers.now)) }
{
    put_margin(out, "#include <stdint.h>")?;
    put_margin(out, "#include <stdlib.h>")?;
    put_includes(out, headers)?;
    put_margin(out, "")?;
    put_helpers(out)?;
    Ok(())
}

/// The text of a file of C.
pub fn c_text(alloc: Global, c: &CUnit) -> Result<String, AllocError>
    ensures { IfOk result (λ t. string_bytes t ≡ text_of (plain_unit c.now)) }
{
    let mut out = String::new(alloc);
    put_margin(&mut out, "/* exoc")?;
    put_report(&mut out, &c.report)?;
    put_margin(&mut out, " */")?;
    put_preamble(&mut out, &c.includes)?;
    put_structs(&mut out, &c.structs)?;
    put_fields(&mut out, &c.fields)?;
    put_functions(alloc, &mut out, &c.functions)?;
    Ok(out)
}
