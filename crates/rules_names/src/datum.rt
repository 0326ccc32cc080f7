//! Which rules values of cells break first.
ghost use Rattle.std.specs.Prelude.{◌≡◌, ◌+◌, ◌≤◌, ◌&&◌, not, [], map, true};
ghost use Rattle.text_expressions.specs.Expression.{select};
ghost use Rattle.text_expressions.specs.Views.{tree_of};
ghost use Rattle.rules_names.specs.Faults.{charged};
ghost use Rattle.rules_names.specs.Names.{named_in, sort_of};
ghost use Rattle.rules_names.specs.Tests.{Tells, most_tokens};
ghost use Rattle.rules_names.specs.ExpressionRules.{width, closed_width, is_arithmetic};
ghost use Rattle.rules_names.specs.ExpressionRules.{is_quotient, is_buffer, suits, may_be_data};
ghost use Rattle.rules_names.specs.ExpressionRules.{data_faults, read_faults};

use crate::control::{enclosed, named, negated, test_controls, test_wrong_form};
use crate::fault::Charge;
use crate::tested::{Names, Tested, is_buffer, name_charge, rank_charge, suits};
use exo_modes::PLAINLY;
use text_expressions::source::{Infix, SourceExpr};
use text_lexer::text::Text;

/// Sums and products, which values of cells have too.
fn is_data_operator(operator: Infix) -> bool
    ensures { result ≡ (is_arithmetic operator && not (is_quotient operator)) }
{
    match operator {
        Infix::Add | Infix::Sub | Infix::Mul => true,
        _ => false,
    }
}

/// A value whose form fits.
fn value(charge: Charge, end: usize) -> Tested
    ensures charge { result.charge ≡ charge }
    ensures end { result.end ≡ end }
    ensures form { result.fits ≡ true }
{
    Tested {
        charge,
        end,
        fits: true,
        variables: true,
    }
}

/// The test of a name alone: a buffer of rank 0.
fn test_cell(names: &Names, n: usize, x: &Text) -> Tested
    requires { n + 1 ≤ most_tokens }
    ensures charge { result.charge ≡ charged (read_faults names.now.fields.now names.now.scope.now n x.now []) }
    ensures end { result.end ≡ n + 1 }
    ensures form { result.fits ≡ suits is_buffer (sort_of (named_in names.now.scope.now x.now)) }
{
    let sort = names.scope.sort(x.as_str());
    let fits = is_buffer(sort);
    let parts = name_charge(sort, fits, n);
    named(
        parts.then_whole(rank_charge(sort, 0, n)),
        n + 1,
        suits(sort, fits),
    )
}

/// The test of a cell with its indices.
fn test_access(names: &Names, n: usize, x: &Text, indices: &[SourceExpr]) -> Tested
    requires { n + 2 + closed_width (map tree_of indices.now) ≤ most_tokens }
    ensures charge { result.charge ≡ charged (read_faults names.now.fields.now names.now.scope.now n x.now (map tree_of indices.now)) }
    ensures end { result.end ≡ n + 2 + closed_width (map tree_of indices.now) }
    ensures form { result.fits ≡ true }
{
    let sort = names.scope.sort(x.as_str());
    let name = name_charge(sort, is_buffer(sort), n);
    let (parts, end) = test_controls(names, PLAINLY, n + 2, indices);
    let whole = rank_charge(sort, indices.len(), n);
    value(name.and(parts).then_whole(whole), end)
}

/// The test of a choice.
#[cycle(data)]
fn test_select(
    names: &Names,
    n: usize,
    a: &SourceExpr,
    b: &SourceExpr,
    c: &SourceExpr,
    d: &SourceExpr,
) -> Tested
    requires { n + width (select (tree_of a.now) (tree_of b.now) (tree_of c.now) (tree_of d.now)) ≤ most_tokens }
    ensures { Tells result
        (data_faults names.now.fields.now names.now.scope.now n
        (select (tree_of a.now) (tree_of b.now) (tree_of c.now) (tree_of d.now))) true n
        (select (tree_of a.now) (tree_of b.now) (tree_of c.now) (tree_of d.now)) }
{
    let first = test_data(names, n + 2, a);
    let second = test_data(names, first.end + 1, b);
    let third = test_data(names, second.end + 1, c);
    let fourth = test_data(names, third.end + 1, d);
    let last = third.charge.and(fourth.charge);
    value(first.charge.and(second.charge.and(last)), fourth.end + 1)
}

/// The test of an expression that stands where a value of cells is asked.
#[cycle(data)]
pub fn test_data(names: &Names, n: usize, e: &SourceExpr) -> Tested
    requires { n + width (tree_of e.now) ≤ most_tokens }
    ensures { Tells result
        (data_faults names.now.fields.now names.now.scope.now n (tree_of e.now))
        (may_be_data names.now.fields.now names.now.scope.now (tree_of e.now)) n (tree_of e.now) }
{
    match e {
        SourceExpr::Int(_) => value(Charge::none(), n + 1),
        SourceExpr::Name(x) => test_cell(names, n, x),
        SourceExpr::Access(x, indices) => test_access(names, n, x, indices),
        SourceExpr::Relu(inner) => {
            let tested = test_data(names, n + 2, inner);
            value(tested.charge, tested.end + 1)
        }
        SourceExpr::Select(a, b, c, d) => test_select(names, n, a, b, c, d),
        SourceExpr::Negative(inner) => negated(test_data(names, n + 1, inner)),
        SourceExpr::Parens(inner) => enclosed(test_data(names, n + 1, inner), n),
        SourceExpr::Binary(operator, left, right) if is_data_operator(*operator) => {
            let l = test_data(names, n, left);
            let r = test_data(names, l.end + 1, right);
            value(l.charge.and(r.charge), r.end)
        }
        _ => test_wrong_form(names, n, e),
    }
}
