//! How many tokens expressions have.
ghost use Rattle.std.specs.Prelude.{◌≡◌, ◌+◌, ◌≤◌, map};
ghost use Rattle.text_expressions.specs.Views.{tree_of};
ghost use Rattle.rules_names.specs.Tests.{most_tokens};
ghost use Rattle.rules_names.specs.ExpressionRules.{width, closed_width};

use text_expressions::source::SourceExpr;

/// The number of the token behind an expression that begins at token n.
#[cycle(ends)]
pub fn end_of(e: &SourceExpr, n: usize) -> usize
    requires { n + width (tree_of e.now) ≤ most_tokens }
    ensures { result ≡ n + width (tree_of e.now) }
{
    match e {
        SourceExpr::Int(_) => n + 1,
        SourceExpr::Truth(_) => n + 1,
        SourceExpr::Name(_) => n + 1,
        SourceExpr::Field(_, _) => n + 3,
        SourceExpr::Stride(_, _) => n + 6,
        SourceExpr::Access(_, indices) => end_of_list(indices, n + 2),
        SourceExpr::Negative(inner) => end_of(inner, n + 1),
        SourceExpr::Relu(inner) => end_of(inner, n + 2) + 1,
        SourceExpr::Parens(inner) => end_of(inner, n + 1) + 1,
        SourceExpr::Select(a, b, c, d) => {
            let second = end_of(a, n + 2) + 1;
            let third = end_of(b, second) + 1;
            let fourth = end_of(c, third) + 1;
            end_of(d, fourth) + 1
        }
        SourceExpr::Binary(_, left, right) => end_of(right, end_of(left, n) + 1),
    }
}

/// The number of the token behind the bracket that closes a list whose first token is n.
#[cycle(ends)]
fn end_of_list(list: &[SourceExpr], n: usize) -> usize
    requires { n + closed_width (map tree_of list.now) ≤ most_tokens }
    ensures { result ≡ n + closed_width (map tree_of list.now) }
{
    if list.is_empty() {
        return n + 1;
    }
    let mut next = n;
    for e in list {
        next = end_of(e, next) + 1;
    }
    next
}
