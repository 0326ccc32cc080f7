//! Arguments that a field may stand for, and what stands there then.
ghost use Rattle.std.specs.Prelude.{◌≡◌, ◌||◌, IfOk};
ghost use Rattle.exo_tree.specs.PlainArgument.{argument};
ghost use Rattle.exo_tree.specs.PlainControl.{control, condition};
ghost use Rattle.config_laws.specs.BindConfig.{reads_any, asks_any};
ghost use Rattle.field_rewrites.specs.Binding.{is_bindable, field_for, field_or, with_field};

use exo_tree::{Arg, Args, Cond, Ctrl, FieldId};
use std::alloc::{AllocError, Global};

/// Whether an expression reads a field.
fn reads_any(e: &Ctrl) -> bool
    ensures { result ≡ reads_any (control e.now) }
{
    match e {
        Ctrl::Lit(_) | Ctrl::Var(_) | Ctrl::Stride(_, _) => false,
        Ctrl::Field(_) => true,
        Ctrl::Neg(a) | Ctrl::Div(a, _) | Ctrl::Mod(a, _) => reads_any(a),
        Ctrl::Add(a, b) | Ctrl::Sub(a, b) | Ctrl::Mul(a, b) => reads_any(a) || reads_any(b),
    }
}

/// Whether one of the two sides of a comparison does.
fn sides_read_any(a: &Ctrl, b: &Ctrl) -> bool
    ensures { result ≡ (reads_any (control a.now) || reads_any (control b.now)) }
{
    reads_any(a) || reads_any(b)
}

/// Whether a condition does.
fn asks_any(c: &Cond) -> bool
    ensures { result ≡ asks_any (condition c.now) }
{
    match c {
        Cond::True | Cond::False | Cond::Var(_) => false,
        Cond::Field(_) => true,
        Cond::Lt(a, b) | Cond::Le(a, b) | Cond::Gt(a, b) | Cond::Ge(a, b) | Cond::Eq(a, b) => {
            sides_read_any(a, b)
        }
        Cond::And(a, b) | Cond::Or(a, b) => asks_any(a) || asks_any(b),
    }
}

/// Whether it is a control argument that reads no field.
pub(crate) fn is_bindable(a: &Arg) -> bool
    ensures { result ≡ is_bindable (argument a.now) }
{
    match a {
        Arg::Ctrl(e) => !reads_any(e),
        Arg::Cond(c) => !asks_any(c),
        Arg::Whole(_) | Arg::Window(_, _) => false,
    }
}

/// The field as an argument in the place of another one.
fn field_for(f: FieldId, a: &Arg) -> Arg
    ensures { argument result ≡ field_for f.0 (argument a.now) }
{
    match a {
        Arg::Cond(_) => Arg::Cond(Cond::Field(f)),
        _ => Arg::Ctrl(Ctrl::Field(f)),
    }
}

/// An argument, or the field where it is the one of that number.
fn field_or(alloc: Global, a: &Arg, is_it: bool, f: FieldId) -> Result<Arg, AllocError>
    ensures { IfOk result (λ b. argument b ≡ field_or f.0 is_it (argument a.now)) }
{
    if is_it {
        return Ok(field_for(f, a));
    }
    a.duplicate(alloc)
}

/// The arguments with the field for the one of a number.
pub(crate) fn with_field(
    alloc: Global,
    args: &Args,
    index: usize,
    f: FieldId,
) -> Result<Args, AllocError>
    ensures { IfOk result (λ made. made ≡ with_field f.0 index args.now) }
{
    let mut made = Args::new(alloc);
    for (k, a) in args.as_slice().iter().enumerate() {
        made.push(field_or(alloc, a, k == index, f)?)?;
    }
    Ok(made)
}
