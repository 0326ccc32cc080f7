//! Trees of C, with one form for each kind of C text that a procedure becomes.
ghost use Rattle.std.specs.Prelude.{◌≡◌, ◌≤◌, ◌<◌, ◌+◌, ◌==◌, [], ◌∷◌, ◌++◌, length, drop, OnOk, OnErr};
ghost use Rattle.c_tree.specs.Sizes.{nodes, nodes_of};
ghost use Rattle.c_tree.specs.Plain.{plain_statement};

use exo_tree::Cell;
use std::alloc::{AllocError, Global};
use std::marker::Model;

/// An expression over 64-bit numbers. A quotient and a remainder are by a literal, and round towards minus infinity.
pub enum CNumber {
    Literal(i64),
    Named(String),
    /// The stride of a window's dimension, which is counted from 0.
    Stride(String, usize),
    Opposite(Box<CNumber>),
    Sum(Box<CNumber>, Box<CNumber>),
    Difference(Box<CNumber>, Box<CNumber>),
    Product(Box<CNumber>, Box<CNumber>),
    Quotient(Box<CNumber>, i64),
    Remainder(Box<CNumber>, i64),
}

impl Drop for CNumber {
    fn drop(self) {
        match self {
            Self::Literal(_)
            | Self::Named(_)
            | Self::Stride(_, _)
            | Self::Opposite(_)
            | Self::Sum(_, _)
            | Self::Difference(_, _)
            | Self::Product(_, _)
            | Self::Quotient(_, _)
            | Self::Remainder(_, _) => {}
        }
    }
}

/// A condition.
pub enum CTest {
    Always,
    Never,
    /// The number of that name is not 0.
    IsSet(String),
    Less(Box<CNumber>, Box<CNumber>),
    LessEqual(Box<CNumber>, Box<CNumber>),
    More(Box<CNumber>, Box<CNumber>),
    MoreEqual(Box<CNumber>, Box<CNumber>),
    Equal(Box<CNumber>, Box<CNumber>),
    Both(Box<CTest>, Box<CTest>),
    Either(Box<CTest>, Box<CTest>),
}

impl Drop for CTest {
    fn drop(self) {
        match self {
            Self::Always
            | Self::Never
            | Self::IsSet(_)
            | Self::Less(_, _)
            | Self::LessEqual(_, _)
            | Self::More(_, _)
            | Self::MoreEqual(_, _)
            | Self::Equal(_, _)
            | Self::Both(_, _)
            | Self::Either(_, _) => {}
        }
    }
}

/// What a cell lies in.
#[derive(Clone, Copy)]
pub enum CHolder {
    Array,
    Window,
}

/// The cell of an array or a window at an offset.
pub struct CCell {
    pub holder: CHolder,
    pub name: String,
    pub offset: Box<CNumber>,
}

impl Drop for CCell {
    fn drop(self) {
        let Self {
            holder: _,
            name: _,
            offset: _,
        } = self;
    }
}

/// An expression over unsigned 32-bit numbers.
pub enum CData {
    Literal(i64),
    Read(CCell),
    Opposite(Box<CData>),
    Relu(Box<CData>),
    Sum(Box<CData>, Box<CData>),
    Difference(Box<CData>, Box<CData>),
    Product(Box<CData>, Box<CData>),
    /// The third where the first is below the second as signed numbers, else the fourth.
    Select(Box<CData>, Box<CData>, Box<CData>, Box<CData>),
}

impl Drop for CData {
    fn drop(self) {
        match self {
            Self::Literal(_)
            | Self::Read(_)
            | Self::Opposite(_)
            | Self::Relu(_)
            | Self::Sum(_, _)
            | Self::Difference(_, _)
            | Self::Product(_, _)
            | Self::Select(_, _, _, _) => {}
        }
    }
}

/// The struct of windows of so many dimensions over cells of that type.
#[derive(Clone, Copy)]
pub struct CStruct {
    pub rank: usize,
    pub cell: Cell,
}

/// A window that is made: its struct, its first cell and the stride of each dimension.
pub struct CWindow {
    pub kind: CStruct,
    pub first: CCell,
    pub strides: Vec<CNumber>,
}

impl Drop for CWindow {
    fn drop(self) {
        let Self {
            kind: _,
            first: _,
            strides: _,
        } = self;
    }
}

/// What a function is called with, or a configuration field is set to.
pub enum CActual {
    Number(Box<CNumber>),
    Test(Box<CTest>),
    /// An array, a window or a number of that name.
    Alone(String),
    /// The address of a cell.
    Address(CCell),
    Window(CWindow),
}

impl Drop for CActual {
    fn drop(self) {
        match self {
            Self::Number(_) | Self::Test(_) | Self::Alone(_) | Self::Address(_) | Self::Window(_) =>
                {}
        }
    }
}

/// The element type of an array: a cell type, or the vector type of that name, of so many cells.
#[derive(Drop)]
pub enum CElement {
    Single(Cell),
    Vector(String, u32, Cell),
}

/// A call of a function.
pub struct CCall {
    pub function: String,
    pub args: Vec<CActual>,
}

impl Drop for CCall {
    fn drop(self) {
        let Self {
            function: _,
            args: _,
        } = self;
    }
}

/// A piece of an instruction's line: text as it is, a control value, or a cell.
pub enum CPiece {
    Text(String),
    Actual(CActual),
    Cell(CCell),
}

impl Drop for CPiece {
    fn drop(self) {
        match self {
            Self::Text(_) | Self::Actual(_) | Self::Cell(_) => {}
        }
    }
}

/// An instruction: the number of its procedure, its line in pieces, and what it is called with, which is not printed.
pub struct CInstruction {
    pub number: u32,
    pub pieces: Vec<CPiece>,
    pub args: Vec<CActual>,
}

impl Drop for CInstruction {
    fn drop(self) {
        let Self {
            number: _,
            pieces: _,
            args: _,
        } = self;
    }
}

/// A statement.
#[cycle(ctree)]
pub enum CStatement {
    /// The cell gets the number, converted to the type.
    Store(Cell, CCell, Box<CData>),
    /// The cell gets the sum of what it holds and the number, converted to the type.
    AddTo(Cell, CCell, Box<CData>),
    SetField(String, CActual),
    Empty,
    Branch(Box<CTest>, CBlock, CBlock),
    /// A counter from the first number up to the second, which it does not reach.
    Loop(String, Box<CNumber>, Box<CNumber>, CBlock),
    /// An array on the stack, of so many elements.
    Array(CElement, String, i64),
    /// An array on the heap, of so many elements.
    Malloc(CElement, String, Box<CNumber>),
    Free(String),
    /// A name for a window.
    Bind(String, CWindow),
    Call(CCall),
    Instruction(CInstruction),
}

impl Drop for CStatement {
    #[cycle(dropped)]
    fn drop(self) {
        match self {
            Self::Store(_, _, _)
            | Self::AddTo(_, _, _)
            | Self::SetField(_, _)
            | Self::Empty
            | Self::Branch(_, _, _)
            | Self::Loop(_, _, _, _)
            | Self::Array(_, _, _)
            | Self::Malloc(_, _, _)
            | Self::Free(_)
            | Self::Bind(_, _)
            | Self::Call(_)
            | Self::Instruction(_) => {}
        }
    }
}

/// Statements in order.
#[cycle(ctree)]
pub struct CBlock {
    statements: Vec<CStatement>,
}

impl Drop for CBlock {
    #[cycle(dropped)]
    fn drop(self) {
        let Self { statements: _ } = self;
    }
}

impl Model for CBlock {
    ghost use Rattle.std.specs.Prelude.{List};
    ghost use Rattle.std.specs.Coded.{coded_list};
    ghost use Rattle.c_tree.specs.CTree.{CStatement};
    ghost use Rattle.c_tree.specs.Code.{statement_code};
    ghost use Rattle.c_tree.specs.Sizes.{nodes_of};

    ghost Value = { List CStatement };

    ghost coded = { coded_list statement_code };

    ghost use Rattle.std.specs.Prelude.{map};
    ghost use Rattle.c_tree.specs.Plain.{plain_statement};

    ghost view = { λ b. map plain_statement b.statements.items };

    ghost size = { nodes_of };

    ghost use Rattle.std.proofs.Common.{arith};
    ghost use Rattle.c_tree.specs.Falls.{depth_le-nodes};

    ghost size_decreases = { λ a h. omega (arith, depth_le-nodes a.statements.items) };
}

impl CBlock {
    /// The empty block.
    pub fn new(alloc: Global) -> CBlock
        ensures { result ≡ [] }
    {
        CBlock {
            statements: Vec::new(alloc),
        }
    }

    /// The statement goes last; after want of memory the block is unchanged.
    pub fn push(&mut self, s: CStatement) -> Result<(), AllocError>
        ensures pushed { OnOk result (self.new ≡ self.old ++ plain_statement s ∷ []) }
        ensures unchanged { OnErr result (self.new ≡ self.old) }
    {
        self.statements.push(s)?;
        Ok(())
    }

    /// How many statements there are.
    pub fn len(&self) -> usize
        ensures { result ≡ length self.now }
    {
        self.statements.len()
    }

    /// Whether there is no statement.
    pub fn is_empty(&self) -> bool
        ensures { result ≡ (length self.now == 0) }
    {
        self.statements.is_empty()
    }

    /// The statement at a place.
    pub fn statement(&self, k: usize) -> &CStatement
        requires { k < length self.now }
        ensures value { drop k self.now ≡ plain_statement result.now ∷ drop (k + 1) self.now }
        ensures smaller { nodes (plain_statement result.now) ≤ nodes_of self.now }
    {
        &self.statements[k]
    }
}

/// A parameter of a function: a 64-bit number, the first cell of an array, or a window.
pub enum CParam {
    Number(String),
    Array(Cell, String),
    Window(CStruct, String),
}

impl Drop for CParam {
    fn drop(self) {
        match self {
            Self::Number(_) | Self::Array(_, _) | Self::Window(_, _) => {}
        }
    }
}

/// A function that returns nothing.
pub struct CFunction {
    pub name: String,
    pub params: Vec<CParam>,
    pub body: CBlock,
}

impl Drop for CFunction {
    fn drop(self) {
        let Self {
            name: _,
            params: _,
            body: _,
        } = self;
    }
}

/// What the report says of a function: which procedure of the text it comes from, and which fields it may leave different.
pub struct ReportLine {
    pub name: String,
    pub origin: String,
    pub differs: Vec<String>,
}

impl Drop for ReportLine {
    fn drop(self) {
        let Self {
            name: _,
            origin: _,
            differs: _,
        } = self;
    }
}

/// A file of C: the report, further headers, the structs of windows, the names of the configuration fields, the functions.
pub struct CUnit {
    pub report: Vec<ReportLine>,
    pub includes: Vec<String>,
    pub structs: Vec<CStruct>,
    pub fields: Vec<String>,
    pub functions: Vec<CFunction>,
}

impl Drop for CUnit {
    fn drop(self) {
        let Self {
            report: _,
            includes: _,
            structs: _,
            fields: _,
            functions: _,
        } = self;
    }
}
