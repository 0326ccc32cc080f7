//! A part of an expression, taken out of it.
ghost use Rattle.std.specs.Prelude.{◌≡◌, IfOk};
ghost use Rattle.exo_tree.specs.PlainDatum.{datum};
ghost use Rattle.alloc_laws.specs.Bind.Binding as plain;
ghost use Rattle.alloc_laws.specs.Bind.Binding.{sought, part_found};
ghost use Rattle.step_driver.specs.Needs.Outcomes.{Tries};
ghost use Rattle.step_rules.specs.Shapes.{tried};
ghost use Rattle.buffer_rewrites.specs.PlainForm.{plain_form};
ghost use Rattle.buffer_rewrites.specs.PlainTaken.{plain_parted, parted_by};
ghost use Rattle.buffer_rewrites.specs.Taking.{is_one, Takes};

use cursor_forward::StepError;
use exo_tree::{DataExpr, Id, Indices};
use std::alloc::{AllocError, Global};
use std::mem;
use step_targets::is_here;

/// What is looked for in an expression.
#[derive(Clone, Copy)]
pub enum Form {
    AnyRead,
    /// A read of the buffer or view of that id.
    ReadOf(Id),
    Sum,
    Difference,
    Product,
}

impl Form {
    /// Whether a read of that name is one.
    fn is_read(self, x: Id) -> bool
        ensures { result ≡ plain.is_read (plain_form self) x.0 }
    {
        match self {
            Form::AnyRead => true,
            Form::ReadOf(y) => x.0 == y.0,
            Form::Sum | Form::Difference | Form::Product => false,
        }
    }

    /// Whether a sum is one.
    fn is_sum(self) -> bool
        ensures { result ≡ plain.is_sum (plain_form self) }
    {
        match self {
            Form::Sum => true,
            Form::AnyRead | Form::ReadOf(_) | Form::Difference | Form::Product => false,
        }
    }

    /// Whether a difference is one.
    fn is_difference(self) -> bool
        ensures { result ≡ plain.is_difference (plain_form self) }
    {
        match self {
            Form::Difference => true,
            Form::AnyRead | Form::ReadOf(_) | Form::Sum | Form::Product => false,
        }
    }

    /// Whether a product is one.
    fn is_product(self) -> bool
        ensures { result ≡ plain.is_product (plain_form self) }
    {
        match self {
            Form::Product => true,
            Form::AnyRead | Form::ReadOf(_) | Form::Sum | Form::Difference => false,
        }
    }

    /// Whether an expression is one.
    fn is_one(self, e: &DataExpr) -> bool
        ensures { result ≡ is_one (plain_form self) (datum e.now) }
    {
        match e {
            DataExpr::Read(x, _) => self.is_read(*x),
            DataExpr::Add(_, _) => self.is_sum(),
            DataExpr::Sub(_, _) => self.is_difference(),
            DataExpr::Mul(_, _) => self.is_product(),
            DataExpr::Lit(_) | DataExpr::Neg(_) | DataExpr::Relu(_) => false,
            DataExpr::Select(_, _, _, _) => false,
        }
    }
}

/// Exchanges the part behind the first `left` ones in preorder for what is held, and says whether
/// there is one. Where there is none all stays, and all matches are passed over.
pub(crate) fn take(e: &mut DataExpr, form: Form, left: &mut u32, held: &mut DataExpr) -> bool
    ensures { Takes (sought (plain_form form) (datum e.old) left.old) (datum e.old) (datum held.old)
        result left.new (datum e.new) (datum held.new) }
{
    if is_here(form.is_one(e), left) {
        mem::swap(e, held);
        return true;
    }
    match e {
        DataExpr::Lit(_) => false,
        DataExpr::Read(_, _) => false,
        DataExpr::Neg(a) => take(a, form, left, held),
        DataExpr::Relu(a) => take(a, form, left, held),
        DataExpr::Add(a, b) => {
            if take(a, form, left, held) {
                return true;
            }
            take(b, form, left, held)
        }
        DataExpr::Sub(a, b) => {
            if take(a, form, left, held) {
                return true;
            }
            take(b, form, left, held)
        }
        DataExpr::Mul(a, b) => {
            if take(a, form, left, held) {
                return true;
            }
            take(b, form, left, held)
        }
        DataExpr::Select(x, v, y, z) => {
            if take(x, form, left, held) {
                return true;
            }
            if take(v, form, left, held) {
                return true;
            }
            if take(y, form, left, held) {
                return true;
            }
            take(z, form, left, held)
        }
    }
}

/// An expression with a name in the place of a part, and the part.
#[derive(Drop)]
pub(crate) struct Parted {
    pub(crate) whole: DataExpr,
    pub(crate) part: DataExpr,
}

/// The two in a box.
fn boxed(alloc: Global, parted: Parted) -> Result<Box<Parted>, AllocError>
    ensures { IfOk result (λ p. plain_parted p.value ≡ plain_parted parted) }
{
    Ok(Box::new(alloc, parted)?)
}

/// An expression with the name `x` in the place of the part of a number; `WrongShape` where it has
/// not so many.
#[tactic(auto, using(crate::proofs::Taken::part_taken, crate::proofs::Taken::no_part))]
pub(crate) fn take_part(
    alloc: Global,
    form: Form,
    nth: u32,
    e: &DataExpr,
    x: Id,
) -> Result<Box<Parted>, StepError>
    ensures { Tries (λ p. plain_parted p.value) (tried (part_found (sought (plain_form form) (datum
        e.now) nth)) (parted_by x.0)) result }
{
    let mut whole = e.duplicate(alloc)?;
    let mut part = DataExpr::Read(x, Indices::new(alloc));
    let mut left = nth;
    if !take(&mut whole, form, &mut left, &mut part) {
        return Err(StepError::WrongShape);
    }
    Ok(boxed(alloc, Parted { whole, part })?)
}
