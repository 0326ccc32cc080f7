//! Which rules control values and conditions break first.
ghost use Rattle.std.specs.Prelude.{◌≡◌, ◌+◌, ◌≤◌, ◌<◌, ◌||◌, ◌&&◌, ◌++◌, List, true, false, map, if◌then◌else◌};
ghost use Rattle.text_lexer.specs.declared.token.Literal.TheVariants.{Value};
ghost use Rattle.text_expressions.specs.Expression.{Tree, variable, field, stride};
ghost use Rattle.text_expressions.specs.Views.{tree_of};
ghost use Rattle.rules_names.specs.Faults.{charged, fault, parts_then_whole};
ghost use Rattle.rules_names.specs.declared.error.TypeKind.TheVariants.{KindMismatch};
ghost use Rattle.rules_names.specs.declared.fault.Fault.{Fault};
ghost use Rattle.exo_meaning.specs.Units.{is_number, is_flag};
ghost use Rattle.rules_names.specs.Names.{named_in, sort_of, field_in};
ghost use Rattle.rules_names.specs.Tests.{Tells, Varies, Joined, most_tokens};
ghost use Rattle.exo_modes.specs.Reads.{reads};
ghost use Rattle.rules_names.specs.ExpressionRules.{width, closed_width, is_divisor, has_variables};
ghost use Rattle.rules_names.specs.ExpressionRules.{affine_faults, suits, name_faults, field_suits};
ghost use Rattle.rules_names.specs.ExpressionRules.{field_faults, may_be_control, may_be_condition};
ghost use Rattle.rules_names.specs.ExpressionRules.{unknown_first, wrong_form, control_faults};
ghost use Rattle.rules_names.specs.ExpressionRules.{controls_faults, condition_faults};

use crate::error::TypeKind;
use crate::fault::Charge;
use crate::tested::{
    Names, Tested, affine_charge, all_of, any_of, dimension_charge, field_charge, field_suits,
    is_arithmetic, is_buffer, is_divisor, joins_conditions, missing_field, name_charge, suits,
};
use crate::width::end_of;
use exo_modes::{Reads, is_flag, is_number};
use text_expressions::source::{Infix, SourceExpr};
use text_lexer::text::Text;

/// The charge of the first token where it is a name that stands for nothing.
fn unknown_first(names: &Names, n: usize, e: &SourceExpr) -> Charge
    ensures { result ≡ charged (unknown_first names.now.fields.now names.now.scope.now n (tree_of e.now)) }
{
    match e {
        SourceExpr::Name(x) => name_charge(names.scope.sort(x.as_str()), true, n),
        SourceExpr::Access(x, _) => name_charge(names.scope.sort(x.as_str()), true, n),
        SourceExpr::Field(c, x) => missing_field(names.fields.get(c.as_str(), x.as_str()), n),
        SourceExpr::Binary(_, left, _) => unknown_first(names, n, left),
        _ => Charge::none(),
    }
}

/// The test of an expression whose form cannot be what its place asks.
pub fn test_wrong_form(names: &Names, n: usize, e: &SourceExpr) -> Tested
    requires { n + width (tree_of e.now) ≤ most_tokens }
    ensures { Tells result (wrong_form names.now.fields.now names.now.scope.now n (tree_of e.now)) false n (tree_of e.now) }
{
    Tested {
        charge: unknown_first(names, n, e).and(Charge::of(TypeKind::KindMismatch, n)),
        end: end_of(e, n),
        fits: false,
        variables: true,
    }
}

/// The test of an expression of so many tokens whose form fits.
fn fitting(charge: Charge, end: usize, variables: bool) -> Tested
    ensures charge { result.charge ≡ charge }
    ensures end { result.end ≡ end }
    ensures form { result.fits ≡ true }
    ensures variables { result.variables ≡ variables }
{
    Tested {
        charge,
        end,
        fits: true,
        variables,
    }
}

/// The test of a name or a field of so many tokens.
pub(crate) fn named(charge: Charge, end: usize, fits: bool) -> Tested
    ensures charge { result.charge ≡ charge }
    ensures end { result.end ≡ end }
    ensures form { result.fits ≡ fits }
    ensures variables { result.variables ≡ true }
{
    Tested {
        charge,
        end,
        fits,
        variables: true,
    }
}

/// The test of an expression behind a minus.
pub(crate) fn negated(inner: Tested) -> Tested
    ensures charge { result.charge ≡ inner.charge }
    ensures end { result.end ≡ inner.end }
    ensures form { result.fits ≡ true }
    ensures variables { result.variables ≡ inner.variables }
{
    Tested {
        fits: true,
        ..inner
    }
}

/// The test of a name where a number is asked.
fn test_number(names: &Names, n: usize, x: &Text) -> Tested
    requires { n + 1 ≤ most_tokens }
    ensures tells { Tells result
        (name_faults is_number (sort_of (named_in names.now.scope.now x.now)) n)
        (suits is_number (sort_of (named_in names.now.scope.now x.now))) n (variable x.now) }
    ensures variables { result.variables ≡ true }
{
    let sort = names.scope.sort(x.as_str());
    let fits = is_number(sort);
    named(name_charge(sort, fits, n), n + 1, suits(sort, fits))
}

/// The test of a name where a bool is asked.
fn test_flag(names: &Names, n: usize, x: &Text) -> Tested
    requires { n + 1 ≤ most_tokens }
    ensures { Tells result
        (name_faults is_flag (sort_of (named_in names.now.scope.now x.now)) n)
        (suits is_flag (sort_of (named_in names.now.scope.now x.now))) n (variable x.now) }
{
    let sort = names.scope.sort(x.as_str());
    let fits = is_flag(sort);
    named(name_charge(sort, fits, n), n + 1, suits(sort, fits))
}

/// The test of a field where a bool is asked, or a number.
fn test_field(names: &Names, wants_truth: bool, may: bool, n: usize, c: &Text, x: &Text) -> Tested
    requires { n + 3 ≤ most_tokens }
    ensures tells { Tells result
        (field_faults wants_truth may (field_in names.now.fields.now c.now x.now) n)
        (field_suits wants_truth (field_in names.now.fields.now c.now x.now)) n
        (field c.now x.now) }
    ensures variables { result.variables ≡ true }
{
    let found = names.fields.get(c.as_str(), x.as_str());
    let suits = field_suits(found, wants_truth);
    named(field_charge(found, wants_truth, may, n), n + 3, suits)
}

/// The test of an expression in parentheses, whose form is that of what stands inside.
pub(crate) fn enclosed(inner: Tested, n: usize) -> Tested
    requires { inner.end < most_tokens }
    ensures end { result.end ≡ inner.end + 1 }
    ensures form { result.fits ≡ inner.fits }
    ensures variables { result.variables ≡ inner.variables }
    ensures charge { result.charge ≡ (if inner.fits then inner.charge else charged (fault KindMismatch n)) }
{
    let charge = if inner.fits {
        inner.charge
    } else {
        Charge::of(TypeKind::KindMismatch, n)
    };
    Tested {
        charge,
        end: inner.end + 1,
        ..inner
    }
}

/// The test of a stride.
fn test_stride(names: &Names, may: Reads, n: usize, x: &Text, k: u32) -> Tested
    requires { n + 6 ≤ most_tokens }
    ensures tells { Tells result
        (control_faults names.now.fields.now (reads may) names.now.scope.now n
        (stride x.now (Value k))) true n
        (stride x.now (Value k)) }
    ensures variables { result.variables ≡ true }
{
    let sort = names.scope.sort(x.as_str());
    let name = name_charge(sort, is_buffer(sort), n + 2);
    let place = Charge::unless(may.strides, TypeKind::StridePlace, n);
    let whole = dimension_charge(sort, k, n + 4).and(place);
    fitting(name.then_whole(whole), n + 6, true)
}

/// The test of two sides with an arithmetic operator between, which have been tested. The right side begins at token `middle`.
fn joined(
    operator: Infix,
    n: usize,
    left: Tested,
    right: Tested,
    middle: usize,
    divides: bool,
) -> Tested
    ensures joined { (a b : List Fault) (l r : Tree)
        → left.charge ≡ charged a
        → right.charge ≡ charged b
        → Varies left l
        → Varies right r
        → divides ≡ is_divisor r
        → Joined result
        (parts_then_whole (a ++ b)
        (affine_faults operator n middle (has_variables l && has_variables r) (is_divisor r)))
        (has_variables l || has_variables r) }
    ensures end { result.end ≡ right.end }
    ensures form { result.fits ≡ true }
{
    let parts = left.charge.and(right.charge);
    let vary = all_of(left.variables, right.variables);
    let whole = affine_charge(operator, vary, divides, n, middle);
    let variables = any_of(left.variables, right.variables);
    fitting(parts.then_whole(whole), right.end, variables)
}

/// The test of an expression that stands where a control value is asked: a number.
pub fn test_control(names: &Names, may: Reads, n: usize, e: &SourceExpr) -> Tested
    requires { n + width (tree_of e.now) ≤ most_tokens }
    ensures tells { Tells result
        (control_faults names.now.fields.now (reads may) names.now.scope.now n (tree_of e.now))
        (may_be_control names.now.fields.now names.now.scope.now (tree_of e.now)) n
        (tree_of e.now) }
    ensures variables { Varies result (tree_of e.now) }
{
    match e {
        SourceExpr::Int(_) => fitting(Charge::none(), n + 1, false),
        SourceExpr::Name(x) => test_number(names, n, x),
        SourceExpr::Field(c, x) => test_field(names, false, may.fields, n, c, x),
        SourceExpr::Stride(x, k) => test_stride(names, may, n, x, *k),
        SourceExpr::Negative(inner) => negated(test_control(names, may, n + 1, inner)),
        SourceExpr::Parens(inner) => enclosed(test_control(names, may, n + 1, inner), n),
        SourceExpr::Binary(operator, left, right) if is_arithmetic(*operator) => {
            let l = test_control(names, may, n, left);
            let middle = l.end + 1;
            let r = test_control(names, may, middle, right);
            joined(*operator, n, l, r, middle, is_divisor(right))
        }
        _ => test_wrong_form(names, n, e),
    }
}

/// The test of two sides of a comparison, or of two conditions that are joined.
fn both(left: Tested, right: Tested) -> Tested
    ensures charge { (a b : List Fault) → left.charge ≡ charged a → right.charge ≡ charged b → result.charge ≡ charged (a ++ b) }
    ensures end { result.end ≡ right.end }
    ensures form { result.fits ≡ true }
{
    fitting(left.charge.and(right.charge), right.end, true)
}

/// The test of an expression that stands where a condition is asked.
pub fn test_condition(names: &Names, may: Reads, n: usize, e: &SourceExpr) -> Tested
    requires { n + width (tree_of e.now) ≤ most_tokens }
    ensures { Tells result
        (condition_faults names.now.fields.now (reads may) names.now.scope.now n (tree_of e.now))
        (may_be_condition names.now.fields.now names.now.scope.now (tree_of e.now)) n
        (tree_of e.now) }
{
    match e {
        SourceExpr::Truth(_) => fitting(Charge::none(), n + 1, true),
        SourceExpr::Name(x) => test_flag(names, n, x),
        SourceExpr::Field(c, x) => test_field(names, true, may.fields, n, c, x),
        SourceExpr::Parens(inner) => enclosed(test_condition(names, may, n + 1, inner), n),
        SourceExpr::Binary(operator, left, right) if joins_conditions(*operator) => {
            let l = test_condition(names, may, n, left);
            both(l, test_condition(names, may, l.end + 1, right))
        }
        SourceExpr::Binary(operator, left, right) if !is_arithmetic(*operator) => {
            let l = test_control(names, may, n, left);
            both(l, test_control(names, may, l.end + 1, right))
        }
        _ => test_wrong_form(names, n, e),
    }
}

/// The charge of expressions that stand where control values are asked, with a token between two, and the number of the token behind
/// the one that closes them.
pub fn test_controls(names: &Names, may: Reads, n: usize, list: &[SourceExpr]) -> (Charge, usize)
    requires { n + closed_width (map tree_of list.now) ≤ most_tokens }
    ensures charge { result.0 ≡ charged (controls_faults names.now.fields.now (reads may) names.now.scope.now n (map tree_of list.now)) }
    ensures end { result.1 ≡ n + closed_width (map tree_of list.now) }
{
    if list.is_empty() {
        return (Charge::none(), n + 1);
    }
    let mut charge = Charge::none();
    let mut next = n;
    for e in list {
        let tested = test_control(names, may, next, e);
        charge = charge.and(tested.charge);
        next = tested.end + 1;
    }
    (charge, next)
}
