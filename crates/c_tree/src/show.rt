//! Expressions of C print as C.
ghost use Rattle.std.specs.Prelude.{◌≡◌, Some, map, string_bytes};
ghost use Rattle.exo_tree.specs.PlainBinder.{cell_type};
ghost use Rattle.c_tree.specs.CText.{type_word, struct_word, element_word, between};
ghost use Rattle.c_tree.specs.CText.{number64_text, test_text, cell_text, number32_text};
ghost use Rattle.c_tree.specs.CText.{actual_text, piece_text, allocation_text, bound_text};
ghost use Rattle.c_tree.specs.CText.{formal_text, head_text, each, listed};
ghost use Rattle.c_tree.specs.Plain.{plain_element, plain_number, plain_test, plain_cell};
ghost use Rattle.c_tree.specs.Plain.{plain_data, plain_window, plain_actual, plain_piece};
ghost use Rattle.c_tree.specs.Plain.{plain_param, plain_statement};

use crate::tree::{
    CActual, CCell, CData, CElement, CHolder, CNumber, CParam, CPiece, CStatement, CStruct, CTest,
    CWindow,
};
use exo_tree::Cell;
use std::fmt::{self, Display};

/// The C type of cells.
pub(crate) fn type_word(cell: Cell) -> &'static str
    ensures { result.now ≡ type_word (cell_type cell) }
{
    match cell {
        Cell::I8 => "int8_t",
        Cell::I16 => "int16_t",
        Cell::I32 => "int32_t",
        Cell::Ui8 => "uint8_t",
    }
}

impl fmt::Display for CNumber {
    ghost output = { λ e. Some (number64_text (plain_number e)) };

    fn fmt<W: fmt::Write>(&self, f: &mut fmt::Formatter<W>) -> fmt::Result {
        match self {
            CNumber::Literal(n) => write!(f, "{n}LL"),
            CNumber::Named(x) => write!(f, "{x}"),
            CNumber::Stride(w, k) => write!(f, "{w}.strides[{k}]"),
            CNumber::Opposite(a) => write!(f, "(-{a})"),
            CNumber::Sum(a, b) => write!(f, "({a} + {b})"),
            CNumber::Difference(a, b) => write!(f, "({a} - {b})"),
            CNumber::Product(a, b) => write!(f, "({a} * {b})"),
            CNumber::Quotient(a, n) => write!(f, "exo_div({a}, {n}LL)"),
            CNumber::Remainder(a, n) => write!(f, "exo_mod({a}, {n}LL)"),
        }
    }
}

/// Two numbers with a sign between them, in parentheses.
#[derive(Clone, Copy)]
struct Compared<'a> {
    left: &'a CNumber,
    sign: &'a str,
    right: &'a CNumber,
}

impl fmt::Display for Compared<'_> {
    ghost output = { λ c. Some (between (number64_text (plain_number c.left.now)) c.sign.now
        (number64_text (plain_number c.right.now))) };

    fn fmt<W: fmt::Write>(&self, f: &mut fmt::Formatter<W>) -> fmt::Result {
        write!(f, "({} {} {})", self.left, self.sign, self.right)
    }
}

impl fmt::Display for CTest {
    ghost output = { λ t. Some (test_text (plain_test t)) };

    fn fmt<W: fmt::Write>(&self, f: &mut fmt::Formatter<W>) -> fmt::Result {
        match self {
            CTest::Always => f.write_str("1"),
            CTest::Never => f.write_str("0"),
            CTest::IsSet(x) => write!(f, "({x} != 0LL)"),
            CTest::Less(left, right) => {
                let compared = Compared {
                    left,
                    sign: "<",
                    right,
                };
                compared.fmt(f)
            }
            CTest::LessEqual(left, right) => {
                let compared = Compared {
                    left,
                    sign: "<=",
                    right,
                };
                compared.fmt(f)
            }
            CTest::More(left, right) => {
                let compared = Compared {
                    left,
                    sign: ">",
                    right,
                };
                compared.fmt(f)
            }
            CTest::MoreEqual(left, right) => {
                let compared = Compared {
                    left,
                    sign: ">=",
                    right,
                };
                compared.fmt(f)
            }
            CTest::Equal(left, right) => {
                let compared = Compared {
                    left,
                    sign: "==",
                    right,
                };
                compared.fmt(f)
            }
            CTest::Both(a, b) => write!(f, "({a} && {b})"),
            CTest::Either(a, b) => write!(f, "({a} || {b})"),
        }
    }
}

impl fmt::Display for CCell {
    ghost output = { λ x. Some (cell_text (plain_cell x)) };

    fn fmt<W: fmt::Write>(&self, f: &mut fmt::Formatter<W>) -> fmt::Result {
        match self.holder {
            CHolder::Array => write!(f, "{}[{}]", self.name, self.offset),
            CHolder::Window => write!(f, "{}.data[{}]", self.name, self.offset),
        }
    }
}

impl fmt::Display for CData {
    ghost output = { λ e. Some (number32_text (plain_data e)) };

    fn fmt<W: fmt::Write>(&self, f: &mut fmt::Formatter<W>) -> fmt::Result {
        match self {
            CData::Literal(n) => write!(f, "{n}u"),
            CData::Read(x) => write!(f, "(uint32_t){x}"),
            CData::Opposite(a) => write!(f, "(0u - {a})"),
            CData::Relu(a) => write!(f, "exo_relu({a})"),
            CData::Sum(a, b) => write!(f, "({a} + {b})"),
            CData::Difference(a, b) => write!(f, "({a} - {b})"),
            CData::Product(a, b) => write!(f, "({a} * {b})"),
            CData::Select(x, v, y, z) => write!(f, "exo_select({x}, {v}, {y}, {z})"),
        }
    }
}

impl fmt::Display for CStruct {
    ghost output = { λ s. Some (struct_word s.rank (cell_type s.cell)) };

    fn fmt<W: fmt::Write>(&self, f: &mut fmt::Formatter<W>) -> fmt::Result {
        write!(f, "struct exo_win_{}{}", self.rank, self.cell.word())
    }
}

impl fmt::Display for CElement {
    ghost output = { λ e. Some (element_word (plain_element e)) };

    fn fmt<W: fmt::Write>(&self, f: &mut fmt::Formatter<W>) -> fmt::Result {
        match self {
            CElement::Single(cell) => f.write_str(type_word(*cell)),
            CElement::Vector(name, _, _) => write!(f, "{name}"),
        }
    }
}

/// Numbers, with commas between.
#[derive(Clone, Copy)]
struct Numbers<'a>(&'a Vec<CNumber>);

impl fmt::Display for Numbers<'_> {
    ghost output = { λ s. Some (listed (map number64_text (map plain_number s.0.now.items))) };

    fn fmt<W: fmt::Write>(&self, f: &mut fmt::Formatter<W>) -> fmt::Result {
        let Some((first, rest)) = self.0.split_first() else {
            return Ok(());
        };
        write!(f, "{first}")?;
        for number in rest {
            write!(f, ", {number}")?;
        }
        Ok(())
    }
}

impl fmt::Display for CWindow {
    ghost output = { λ w. Some (actual_text (plain_window w)) };

    fn fmt<W: fmt::Write>(&self, f: &mut fmt::Formatter<W>) -> fmt::Result {
        let strides = Numbers(&self.strides);
        write!(f, "({}){{ &{}, {{ {strides} }} }}", self.kind, self.first)
    }
}

impl fmt::Display for CActual {
    ghost output = { λ a. Some (actual_text (plain_actual a)) };

    fn fmt<W: fmt::Write>(&self, f: &mut fmt::Formatter<W>) -> fmt::Result {
        match self {
            CActual::Number(a) => write!(f, "{a}"),
            CActual::Test(t) => write!(f, "{t}"),
            CActual::Alone(x) => write!(f, "{x}"),
            CActual::Address(x) => write!(f, "&{x}"),
            CActual::Window(w) => write!(f, "{w}"),
        }
    }
}

/// Arguments, with commas between.
#[derive(Clone, Copy)]
struct Actuals<'a>(&'a Vec<CActual>);

impl fmt::Display for Actuals<'_> {
    ghost output = { λ s. Some (listed (map actual_text (map plain_actual s.0.now.items))) };

    fn fmt<W: fmt::Write>(&self, f: &mut fmt::Formatter<W>) -> fmt::Result {
        let Some((first, rest)) = self.0.split_first() else {
            return Ok(());
        };
        write!(f, "{first}")?;
        for actual in rest {
            write!(f, ", {actual}")?;
        }
        Ok(())
    }
}

impl fmt::Display for CPiece {
    ghost output = { λ p. Some (piece_text (plain_piece p)) };

    fn fmt<W: fmt::Write>(&self, f: &mut fmt::Formatter<W>) -> fmt::Result {
        match self {
            CPiece::Text(t) => write!(f, "{t}"),
            CPiece::Actual(a) => write!(f, "{a}"),
            CPiece::Cell(x) => write!(f, "{x}"),
        }
    }
}

/// The pieces of a line.
#[derive(Clone, Copy)]
struct Pieces<'a>(&'a Vec<CPiece>);

impl fmt::Display for Pieces<'_> {
    ghost output = { λ s. Some (each piece_text (map plain_piece s.0.now.items)) };

    fn fmt<W: fmt::Write>(&self, f: &mut fmt::Formatter<W>) -> fmt::Result {
        let pieces = self.0.as_slice();
        for piece in pieces {
            write!(f, "{piece}")?;
        }
        Ok(())
    }
}

impl fmt::Display for CParam {
    ghost output = { λ p. Some (formal_text (plain_param p)) };

    fn fmt<W: fmt::Write>(&self, f: &mut fmt::Formatter<W>) -> fmt::Result {
        match self {
            CParam::Number(x) => write!(f, "int64_t {x}"),
            CParam::Array(cell, x) => write!(f, "{} *{x}", type_word(*cell)),
            CParam::Window(kind, x) => write!(f, "{kind} {x}"),
        }
    }
}

/// An array on the heap.
#[derive(Clone, Copy)]
struct Allocation<'a> {
    element: &'a CElement,
    name: &'a String,
    count: &'a CNumber,
}

impl fmt::Display for Allocation<'_> {
    ghost output = { λ a. Some (allocation_text (element_word (plain_element a.element.now))
        (string_bytes a.name.now) (number64_text (plain_number a.count.now))) };

    fn fmt<W: fmt::Write>(&self, f: &mut fmt::Formatter<W>) -> fmt::Result {
        let Allocation {
            element,
            name,
            count,
        } = self;
        write!(
            f,
            "{element} *{name} = ({element} *)malloc((size_t){count} * sizeof({element}));"
        )
    }
}

/// A name for a window.
#[derive(Clone, Copy)]
struct Binding<'a> {
    name: &'a String,
    window: &'a CWindow,
}

impl fmt::Display for Binding<'_> {
    ghost output = { λ b. Some (bound_text b.window.now.kind.rank
        (cell_type b.window.now.kind.cell) (string_bytes b.name.now)
        (actual_text (plain_window b.window.now))) };

    fn fmt<W: fmt::Write>(&self, f: &mut fmt::Formatter<W>) -> fmt::Result {
        write!(f, "{} {} = {};", self.window.kind, self.name, self.window)
    }
}

/// A statement prints as its first line: a condition and a loop up to the brace.
impl fmt::Display for CStatement {
    ghost output = { λ s. Some (head_text (plain_statement s)) };

    fn fmt<W: fmt::Write>(&self, f: &mut fmt::Formatter<W>) -> fmt::Result {
        match self {
            CStatement::Store(cell, x, e) => write!(f, "{x} = ({}){e};", type_word(*cell)),
            CStatement::AddTo(cell, x, e) => {
                write!(f, "{x} = ({})((uint32_t){x} + {e});", type_word(*cell))
            }
            CStatement::SetField(x, a) => write!(f, "{x} = {a};"),
            CStatement::Empty => f.write_str(";"),
            CStatement::Branch(t, _, _) => write!(f, "if ({t}) {{"),
            CStatement::Loop(x, lo, hi, _) => {
                write!(f, "for (int64_t {x} = {lo}; {x} < {hi}; {x}++) {{")
            }
            CStatement::Array(t, x, n) => write!(f, "{t} {x}[{n}];"),
            CStatement::Malloc(element, name, count) => {
                let allocation = Allocation {
                    element,
                    name,
                    count,
                };
                write!(f, "{allocation}")
            }
            CStatement::Free(x) => write!(f, "free({x});"),
            CStatement::Bind(name, window) => {
                let binding = Binding { name, window };
                write!(f, "{binding}")
            }
            CStatement::Call(call) => {
                let args = Actuals(&call.args);
                write!(f, "{}({args});", call.function)
            }
            CStatement::Instruction(i) => {
                let pieces = Pieces(&i.pieces);
                write!(f, "{pieces}")
            }
        }
    }
}
