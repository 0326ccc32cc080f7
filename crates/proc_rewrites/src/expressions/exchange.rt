//! The sides of one sum or product of an expression, exchanged.
ghost use Rattle.std.specs.Prelude.{◌≡◌};
ghost use Rattle.exo_tree.specs.PlainDatum.{datum};
ghost use Rattle.proc_laws.specs.Expression.Exchange.{is_sum, is_product};
ghost use Rattle.proc_rewrites.specs.Expressions.PlainOperation.{plain_operation};
ghost use Rattle.proc_rewrites.specs.Expressions.Exchanging.{Exchanges};

use exo_tree::DataExpr;
use std::mem;
use step_targets::is_here;

/// Which operation has its sides exchanged.
#[derive(Clone, Copy)]
pub(crate) enum Operation {
    Sum,
    Product,
}

impl Operation {
    fn is_sum(self) -> bool
        ensures { result ≡ is_sum (plain_operation self) }
    {
        match self {
            Operation::Sum => true,
            Operation::Product => false,
        }
    }

    fn is_product(self) -> bool
        ensures { result ≡ is_product (plain_operation self) }
    {
        match self {
            Operation::Sum => false,
            Operation::Product => true,
        }
    }
}

/// Exchanges the sides of the match behind the first `left` ones in preorder, and says whether there is one. Where
/// there is none the expression stays, and all matches are passed over.
pub(crate) fn exchange(e: &mut DataExpr, which: Operation, left: &mut u32) -> bool
    ensures { Exchanges (plain_operation which) left.old (datum e.old) result left.new (datum e.new) }
{
    match e {
        DataExpr::Lit(_) | DataExpr::Read(_, _) => false,
        DataExpr::Neg(a) => exchange(a, which, left),
        DataExpr::Relu(a) => exchange(a, which, left),
        DataExpr::Add(a, b) => {
            if is_here(which.is_sum(), left) {
                mem::swap(a, b);
                return true;
            }
            if exchange(a, which, left) {
                return true;
            }
            exchange(b, which, left)
        }
        DataExpr::Sub(a, b) => {
            if exchange(a, which, left) {
                return true;
            }
            exchange(b, which, left)
        }
        DataExpr::Mul(a, b) => {
            if is_here(which.is_product(), left) {
                mem::swap(a, b);
                return true;
            }
            if exchange(a, which, left) {
                return true;
            }
            exchange(b, which, left)
        }
        DataExpr::Select(x, v, y, z) => {
            if exchange(x, which, left) {
                return true;
            }
            if exchange(v, which, left) {
                return true;
            }
            if exchange(y, which, left) {
                return true;
            }
            exchange(z, which, left)
        }
    }
}
