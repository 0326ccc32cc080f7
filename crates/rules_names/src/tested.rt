//! What the test of an expression tells, and the tests of names, fields and operators.
ghost use Rattle.std.specs.Prelude.{◌≡◌, ◌&&◌, ◌||◌, Bool, option_map, Option};
ghost use Rattle.text_lexer.specs.declared.token.Literal.TheVariants.{Value};
ghost use Rattle.exo_meaning.specs.Units as units;
ghost use Rattle.exo_modes.specs.Sorts.{sort_seen};
ghost use Rattle.text_expressions.specs.Views.{tree_of};
ghost use Rattle.rules_names.specs.Faults.{charged};
ghost use Rattle.rules_names.specs.Tables.{found_field};
ghost use Rattle.rules_names.specs.ExpressionRules.{is_buffer, is_arithmetic, joins_conditions};
ghost use Rattle.rules_names.specs.ExpressionRules.{is_divisor, suits, name_faults, rank_faults};
ghost use Rattle.rules_names.specs.ExpressionRules.{dimension_faults, field_suits, field_faults};
ghost use Rattle.rules_names.specs.ExpressionRules.{no_such_field, affine_faults};

use crate::error::TypeKind;
use crate::fault::Charge;
use crate::scope::Scope;
use crate::table::FieldTable;
use exo_modes::Sort;
use exo_tree::{FieldId, Kind};
use text_expressions::source::{Infix, SourceExpr};

/// What names stand for: the fields of configurations, and the names in scope.
#[derive(Clone, Copy)]
pub struct Names<'n> {
    pub fields: &'n FieldTable<'n>,
    pub scope: &'n Scope<'n>,
}

/// What the test of an expression tells.
#[derive(Clone, Copy)]
pub struct Tested {
    /// The first rule that it breaks, and whether one that it breaks hides those of what it is a part of.
    pub charge: Charge,
    /// The number of the token behind it.
    pub end: usize,
    /// Whether its form can be what its place asks.
    pub fits: bool,
    /// Whether it has variables, where nothing of it is hidden. Told of control values alone.
    pub variables: bool,
}

/// Whether it is a buffer or a view.
pub fn is_buffer(sort: Option<Sort>) -> bool
    ensures { result ≡ is_buffer (sort_seen sort) }
{
    match sort {
        Some(Sort::Buffer(_, _, _)) => true,
        _ => false,
    }
}

/// The charge of a name at a token: it is not in scope, or what it stands for does not fit.
pub fn name_charge(sort: Option<Sort>, fits: bool, n: usize) -> Charge
    ensures { (test : Option units.Sort → Bool) → test (sort_seen sort) ≡ fits → result ≡ charged (name_faults test (sort_seen sort) n) }
{
    match sort {
        None => Charge::of(TypeKind::UnknownName, n),
        Some(_) => Charge::unless(fits, TypeKind::KindMismatch, n),
    }
}

/// Whether a name is not in scope, or what it stands for fits.
pub fn suits(sort: Option<Sort>, fits: bool) -> bool
    ensures { (test : Option units.Sort → Bool) → test (sort_seen sort) ≡ fits → result ≡ suits test (sort_seen sort) }
{
    match sort {
        None => true,
        Some(_) => fits,
    }
}

/// The charge of so many indices or coordinates of a name.
pub fn rank_charge(sort: Option<Sort>, rank: usize, n: usize) -> Charge
    ensures { result ≡ charged (rank_faults (sort_seen sort) rank n) }
{
    match sort {
        Some(Sort::Buffer(_, dims, _)) => Charge::unless(dims == rank, TypeKind::RankMismatch, n),
        _ => Charge::none(),
    }
}

/// The charge of a stride's dimension.
pub fn dimension_charge(sort: Option<Sort>, k: u32, n: usize) -> Charge
    ensures { result ≡ charged (dimension_faults (sort_seen sort) (Value k) n) }
{
    match sort {
        Some(Sort::Buffer(_, dims, _)) => Charge::unless(
            (k as usize) < dims,
            TypeKind::RankMismatch,
            n,
        ),
        _ => Charge::none(),
    }
}

/// The charge of a field where a bool or a number is asked.
pub fn field_charge(
    field: Option<(FieldId, Kind)>,
    wants_truth: bool,
    may: bool,
    n: usize,
) -> Charge
    ensures { result ≡ charged (field_faults wants_truth may (option_map found_field field) n) }
{
    match field {
        None => Charge::of(TypeKind::UnknownName, n),
        Some((_, kind)) => {
            let fits = (kind == Kind::Bool) == wants_truth;
            let place = Charge::unless(may, TypeKind::ConfigPlace, n);
            Charge::unless(fits, TypeKind::KindMismatch, n).and(place)
        }
    }
}

/// Whether there is no such field, or it is of the kind that is asked.
pub fn field_suits(field: Option<(FieldId, Kind)>, wants_truth: bool) -> bool
    ensures { result ≡ field_suits wants_truth (option_map found_field field) }
{
    match field {
        None => true,
        Some((_, kind)) => (kind == Kind::Bool) == wants_truth,
    }
}

/// The charge of a field that there is none of.
pub fn missing_field(field: Option<(FieldId, Kind)>, n: usize) -> Charge
    ensures { result ≡ charged (no_such_field (option_map found_field field) n) }
{
    match field {
        None => Charge::of(TypeKind::UnknownName, n),
        Some(_) => Charge::none(),
    }
}

/// Sums, products and quotients.
pub fn is_arithmetic(operator: Infix) -> bool
    ensures { result ≡ is_arithmetic operator }
{
    match operator {
        Infix::Add | Infix::Sub | Infix::Mul | Infix::Div | Infix::Mod => true,
        _ => false,
    }
}

/// What joins conditions.
pub fn joins_conditions(operator: Infix) -> bool
    ensures { result ≡ joins_conditions operator }
{
    match operator {
        Infix::Or | Infix::And => true,
        _ => false,
    }
}

/// Whether the expression is a literal from 1 on, maybe in parentheses.
pub fn is_divisor(e: &SourceExpr) -> bool
    ensures { result ≡ is_divisor (tree_of e.now) }
{
    match e {
        SourceExpr::Int(k) => *k > 0,
        SourceExpr::Parens(inner) => is_divisor(inner),
        _ => false,
    }
}

/// The charge of an operator's two sides: both have variables in a product, or the right one, which begins at token `right`, is no
/// literal from 1 on in a quotient.
pub fn affine_charge(operator: Infix, vary: bool, divides: bool, n: usize, right: usize) -> Charge
    ensures { result ≡ charged (affine_faults operator n right vary divides) }
{
    match operator {
        Infix::Mul => Charge::unless(!vary, TypeKind::NotAffine, n),
        Infix::Div | Infix::Mod => Charge::unless(divides, TypeKind::NotAffine, right),
        _ => Charge::none(),
    }
}

/// Whether both hold.
pub fn all_of(a: bool, b: bool) -> bool
    ensures { result ≡ (a && b) }
{
    a && b
}

/// Whether one of them holds.
pub fn any_of(a: bool, b: bool) -> bool
    ensures { result ≡ (a || b) }
{
    a || b
}
