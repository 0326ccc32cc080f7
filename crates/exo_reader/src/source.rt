//! Source trees of units: a text as it is written, without names resolved.

use text_expressions::source::SourceExpr;
use text_lexer::text::Text;

/// One coordinate of a window.
#[derive(Drop)]
pub enum SourceCoord {
    Point(SourceExpr),
    /// `a:b`, from the lower end up to the end that it does not reach.
    Span(SourceExpr, SourceExpr),
}

/// An argument of a call, or the right side of a `=`.
#[derive(Drop)]
pub enum SourceArg {
    Value(SourceExpr),
    /// `x[..]` with at least one span.
    Window(Text, Vec<SourceCoord>),
}

/// The arguments between the parentheses.
#[derive(Drop)]
pub struct SourceArgs {
    pub items: Vec<SourceArg>,
    /// Whether a comma stands behind the last one.
    pub trailing: bool,
}

/// A window `x[..]` with at least one span.
#[derive(Drop)]
pub struct SourceWindow {
    pub name: Text,
    pub coords: Vec<SourceCoord>,
}

/// What stands where a type must stand. The word `stride` is a type there, and no name elsewhere.
pub enum SourceKind {
    Stride,
    Named(Text),
}

impl Drop for SourceKind {
    fn drop(self) {
        match self {
            Self::Stride | Self::Named(_) => {}
        }
    }
}

/// A statement as it is written. A list of dimensions or indices is empty where none are written.
pub enum SourceStmt {
    Pass,
    /// A condition with its branches; the second is empty where there is no `else`.
    If(SourceExpr, Vec<SourceStmt>, Vec<SourceStmt>),
    /// A loop over a name, from its lower bound up to the upper one.
    For(Text, SourceExpr, SourceExpr, Vec<SourceStmt>),
    /// `x : TYPE[..] @ MEMORY`
    Alloc(Text, SourceKind, Vec<SourceExpr>, Option<Text>),
    Call(Text, SourceArgs),
    /// `C.f = e`
    Config(Text, Text, SourceExpr),
    /// `x[..] = e`
    Assign(Text, Vec<SourceExpr>, SourceExpr),
    /// `x[..] += e`
    Reduce(Text, Vec<SourceExpr>, SourceExpr),
    /// `w = x[..]` with at least one span.
    View(Text, Text, Vec<SourceCoord>),
}

impl Drop for SourceStmt {
    fn drop(self) {
        match self {
            Self::Pass
            | Self::If(_, _, _)
            | Self::For(_, _, _, _)
            | Self::Alloc(_, _, _, _)
            | Self::Call(_, _)
            | Self::Config(_, _, _)
            | Self::Assign(_, _, _)
            | Self::Reduce(_, _, _)
            | Self::View(_, _, _) => {}
        }
    }
}

/// The type of a parameter.
pub enum SourceType {
    /// `TYPE` or `TYPE[..]`; without dimensions the list is empty.
    Plain(SourceKind, Vec<SourceExpr>),
    /// `[TYPE][..]`
    Window(SourceKind, Vec<SourceExpr>),
}

impl Drop for SourceType {
    fn drop(self) {
        match self {
            Self::Plain(_, _) | Self::Window(_, _) => {}
        }
    }
}

/// A parameter `x: TYPE @ MEMORY`.
pub struct SourceParam {
    pub name: Text,
    pub form: SourceType,
    pub memory: Option<Text>,
}

impl Drop for SourceParam {
    fn drop(self) {
        let Self {
            name: _,
            form: _,
            memory: _,
        } = self;
    }
}

/// The parameters between the parentheses, at most 32.
#[derive(Drop)]
pub struct SourceParams {
    pub items: Vec<SourceParam>,
    /// Whether a comma stands behind the last one.
    pub trailing: bool,
}

/// What stands below `@proc` or `@instr`.
pub struct SourceDef {
    pub name: Text,
    pub params: SourceParams,
    pub asserts: Vec<SourceExpr>,
    pub body: Vec<SourceStmt>,
}

impl Drop for SourceDef {
    fn drop(self) {
        let Self {
            name: _,
            params: _,
            asserts: _,
            body: _,
        } = self;
    }
}

/// A field of a configuration, `NAME : TYPE`.
pub struct SourceField {
    pub name: Text,
    pub kind: SourceKind,
}

impl Drop for SourceField {
    fn drop(self) {
        let Self { name: _, kind: _ } = self;
    }
}

/// The value of an attribute.
#[derive(Drop)]
pub enum SourceValue {
    /// Neighbouring strings, which are joined.
    Strings(Vec<Text>),
    Int(u32),
    Yes,
    No,
}

/// An attribute of a memory, `NAME = VALUE`.
pub struct SourceAttribute {
    pub name: Text,
    pub value: SourceValue,
}

impl Drop for SourceAttribute {
    fn drop(self) {
        let Self { name: _, value: _ } = self;
    }
}

/// What stands at the top level of a text.
pub enum SourceItem {
    Procedure(SourceDef),
    /// The neighbouring strings of its template, and what it does.
    Instruction(Vec<Text>, SourceDef),
    /// A configuration with its fields.
    Configuration(Text, Vec<SourceField>),
    /// A class of memories with its attributes.
    Memory(Text, Vec<SourceAttribute>),
}

impl Drop for SourceItem {
    fn drop(self) {
        match self {
            Self::Procedure(_)
            | Self::Instruction(_, _)
            | Self::Configuration(_, _)
            | Self::Memory(_, _) => {}
        }
    }
}
