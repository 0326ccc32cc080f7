//! Arguments of calls.
ghost use Rattle.std.specs.Prelude.{◌≡◌, ◌+◌, ◌≤◌, ◌==◌, ◌&&◌, Bool, List, Option, None, Some, map, IfOk};
ghost use Rattle.exo_tree.specs.PlainBinder.{cell_type, control_kind};
ghost use Rattle.exo_tree.specs.PlainParam.{parameter_kind};
ghost use Rattle.exo_tree.specs.PlainArgument.{argument};
ghost use Rattle.exo_meaning.specs.Units as units;
ghost use Rattle.text_expressions.specs.Views.{tree_of};
ghost use Rattle.exo_reader.specs.Views.{plain_coordinate, plain_argument};
ghost use Rattle.rules_names.specs.Faults.{charged};
ghost use Rattle.rules_names.specs.declared.fault.Fault.{Fault};
ghost use Rattle.rules_names.specs.Names.{named_in, sort_of};
ghost use Rattle.rules_names.specs.Tests.{most_tokens};
ghost use Rattle.exo_modes.specs.Reads.{reads};
ghost use Rattle.rules_names.specs.ExpressionRules.{width, closed_width};
ghost use Rattle.rules_names.specs.WindowRules.{coordinates_width, coordinates_of};
ghost use Rattle.exo_modes.specs.Aliases.{roots_in};
ghost use Rattle.exo_modes.specs.Sorts.{sort_seen};
ghost use Rattle.exo_types.specs.ArgumentRules as rules;

use exo_modes::{Alias, PLAINLY, Reads, Sort, WITH_BOTH, has_cell, is_dense, root};
use exo_reader::source::{SourceArg, SourceCoord};
use exo_tree::{Arg, Cell, Coord, Coords, Kind, ParamKind};
use rules_names::control::{test_condition, test_control, test_controls, test_wrong_form};
use rules_names::error::TypeKind;
use rules_names::fault::Charge;
use rules_names::resolved::{NO_ID, condition_of, control_of, coordinates_of, id_in};
use rules_names::tested::{Names, Tested, name_charge, rank_charge, suits};
use rules_names::width::end_of;
use rules_names::window::test_window;
use std::alloc::{AllocError, Global};
use text_expressions::source::SourceExpr;
use text_lexer::text::Text;

/// How many coordinates are spans.
pub fn spans(coords: &[SourceCoord]) -> usize
    ensures { result ≡ rules.spans (map plain_coordinate coords.now) }
{
    let mut count = 0;
    for coord in coords {
        if let SourceCoord::Span(_, _) = coord {
            count += 1;
        }
    }
    count
}

/// Whether a tensor of that cell type and rank takes a whole buffer.
fn takes_whole(cell: Cell, rank: usize, sort: Option<Sort>) -> bool
    ensures { result ≡ rules.tensor_takes (cell_type cell) rank (sort_seen sort) }
{
    has_cell(cell, sort) && (rank == 0 || is_dense(sort))
}

/// Whether a tensor of that cell type and rank takes a single cell.
fn takes_cell(cell: Cell, rank: usize, sort: Option<Sort>) -> bool
    ensures { result ≡ rules.cell_takes (cell_type cell) rank (sort_seen sort) }
{
    has_cell(cell, sort) && rank == 0
}

/// Whether an expression in parentheses may stand where a tensor is asked: a name or a cell alone, of the kind that is asked.
fn may_be_tensor(names: &Names, cell: Cell, rank: usize, e: &SourceExpr) -> bool
    ensures { result ≡ rules.may_be_tensor names.now.scope.now (cell_type cell) rank (tree_of e.now) }
{
    match e {
        SourceExpr::Name(x) => {
            let sort = names.scope.sort(x.as_str());
            suits(sort, takes_whole(cell, rank, sort))
        }
        SourceExpr::Access(x, _) => {
            let sort = names.scope.sort(x.as_str());
            suits(sort, takes_cell(cell, rank, sort))
        }
        SourceExpr::Parens(inner) => may_be_tensor(names, cell, rank, inner),
        _ => false,
    }
}

/// Whether an expression in parentheses may stand where a window is asked: a name or a cell alone, of the kind that is asked.
fn may_be_strided(names: &Names, cell: Cell, e: &SourceExpr) -> bool
    ensures { result ≡ rules.may_be_strided names.now.scope.now (cell_type cell) (tree_of e.now) }
{
    match e {
        SourceExpr::Name(x) => {
            let sort = names.scope.sort(x.as_str());
            suits(sort, has_cell(cell, sort))
        }
        SourceExpr::Access(x, _) => {
            let sort = names.scope.sort(x.as_str());
            suits(sort, has_cell(cell, sort))
        }
        SourceExpr::Parens(inner) => may_be_strided(names, cell, inner),
        _ => false,
    }
}

/// The charge of a whole buffer of that rank.
fn test_whole(names: &Names, fits: bool, n: usize, x: &Text, rank: usize) -> Charge
    ensures { (test : Option units.Sort → Bool)
        → test (sort_of (named_in names.now.scope.now x.now)) ≡ fits
        → result
        ≡ charged (rules.whole_faults names.now.fields.now test names.now.scope.now n x.now rank) }
{
    let sort = names.scope.sort(x.as_str());
    name_charge(sort, fits, n).and(rank_charge(sort, rank, n))
}

/// The charge of a cell with its indices where a part of a buffer is asked, with what else the whole breaks.
fn test_cell(
    names: &Names,
    fits: bool,
    n: usize,
    x: &Text,
    indices: &[SourceExpr],
    whole: Charge,
) -> Charge
    requires { n + 2 + closed_width (map tree_of indices.now) ≤ most_tokens }
    ensures { (test : Option units.Sort → Bool) (more : List Fault)
        → test (sort_of (named_in names.now.scope.now x.now)) ≡ fits
        → whole ≡ charged more
        → result
        ≡ charged (rules.part_faults names.now.fields.now test names.now.scope.now n x.now
        (map tree_of indices.now) more) }
{
    let sort = names.scope.sort(x.as_str());
    let name = name_charge(sort, fits, n);
    let rank = rank_charge(sort, indices.len(), n);
    let (parts, _end) = test_controls(names, PLAINLY, n + 2, indices);
    name.and(parts).then_whole(rank.and(whole))
}

/// The charge of an expression where a tensor is asked: a whole dense tensor, or a single cell for one of rank 0.
fn test_tensor(names: &Names, cell: Cell, rank: usize, n: usize, e: &SourceExpr) -> Charge
    requires { n + width (tree_of e.now) ≤ most_tokens }
    ensures { result ≡ charged (rules.tensor_faults names.now.fields.now names.now.scope.now (cell_type cell) rank n (tree_of e.now)) }
{
    match e {
        SourceExpr::Name(x) => {
            let sort = names.scope.sort(x.as_str());
            test_whole(names, takes_whole(cell, rank, sort), n, x, rank)
        }
        SourceExpr::Access(x, indices) => {
            let sort = names.scope.sort(x.as_str());
            let fits = takes_cell(cell, rank, sort);
            test_cell(names, fits, n, x, indices, Charge::none())
        }
        SourceExpr::Parens(inner) if may_be_tensor(names, cell, rank, inner) => {
            test_tensor(names, cell, rank, n + 1, inner)
        }
        _ => test_wrong_form(names, n, e).charge,
    }
}

/// The charge of an expression where a window is asked; `first` is the number of the argument's first token.
fn test_strided(
    names: &Names,
    cell: Cell,
    rank: usize,
    first: usize,
    n: usize,
    e: &SourceExpr,
) -> Charge
    requires { n + width (tree_of e.now) ≤ most_tokens }
    ensures { result
        ≡ charged (rules.strided_faults names.now.fields.now names.now.scope.now
        (cell_type cell) rank first n (tree_of e.now)) }
{
    match e {
        SourceExpr::Name(x) => {
            let sort = names.scope.sort(x.as_str());
            test_whole(names, has_cell(cell, sort), n, x, rank)
        }
        SourceExpr::Access(x, indices) => {
            let sort = names.scope.sort(x.as_str());
            let spans = Charge::unless(rank == 0, TypeKind::RankMismatch, first);
            test_cell(names, has_cell(cell, sort), n, x, indices, spans)
        }
        SourceExpr::Parens(inner) if may_be_strided(names, cell, inner) => {
            test_strided(names, cell, rank, first, n + 1, inner)
        }
        _ => test_wrong_form(names, n, e).charge,
    }
}

/// The test of a control value of a kind: a condition for a `bool`, else a number.
pub fn test_kind(names: &Names, may: Reads, kind: Kind, n: usize, e: &SourceExpr) -> Tested
    requires { n + width (tree_of e.now) ≤ most_tokens }
    ensures charge { result.charge
        ≡ charged (rules.kind_faults names.now.fields.now (reads may) names.now.scope.now
        (control_kind kind) n (tree_of e.now)) }
    ensures end { result.end ≡ n + width (tree_of e.now) }
{
    match kind {
        Kind::Bool => test_condition(names, may, n, e),
        _ => test_control(names, may, n, e),
    }
}

/// The charge of an expression where a parameter of a kind is asked.
fn test_value(names: &Names, kind: &ParamKind, n: usize, e: &SourceExpr) -> Charge
    requires { n + width (tree_of e.now) ≤ most_tokens }
    ensures { result ≡ charged (rules.value_faults names.now.fields.now names.now.scope.now (parameter_kind kind.now) n (tree_of e.now)) }
{
    match kind {
        ParamKind::Ctrl(kind) => test_kind(names, WITH_BOTH, *kind, n, e).charge,
        ParamKind::Tensor(cell, dims, _) => test_tensor(names, *cell, dims.len(), n, e),
        ParamKind::Window(cell, dims, _) => test_strided(names, *cell, dims.len(), n, n, e),
    }
}

/// The charge of a name with spans where a parameter of a kind is asked, and the number of the token behind it.
fn test_view(
    names: &Names,
    kind: &ParamKind,
    n: usize,
    x: &Text,
    coords: &[SourceCoord],
) -> (Charge, usize)
    requires { n + 2 + coordinates_width (map plain_coordinate coords.now) ≤ most_tokens }
    ensures charge { result.0
        ≡ charged (rules.view_faults names.now.fields.now names.now.scope.now
        (parameter_kind kind.now) n x.now (map plain_coordinate coords.now)) }
    ensures end { result.1 ≡ n + 2 + coordinates_width (map plain_coordinate coords.now) }
{
    let sort = names.scope.sort(x.as_str());
    match kind {
        ParamKind::Ctrl(_) => {
            let (_, end) = test_window(names, false, n, x.as_str(), coords);
            (name_charge(sort, false, n), end)
        }
        ParamKind::Tensor(cell, dims, _) => {
            let fits = takes_cell(*cell, dims.len(), sort);
            let (parts, end) = test_window(names, fits, n, x.as_str(), coords);
            let same = spans(coords) == dims.len();
            (
                parts.and(Charge::unless(same, TypeKind::RankMismatch, n)),
                end,
            )
        }
        ParamKind::Window(cell, dims, _) => {
            let (parts, end) = test_window(names, has_cell(*cell, sort), n, x.as_str(), coords);
            let same = spans(coords) == dims.len();
            (
                parts.and(Charge::unless(same, TypeKind::RankMismatch, n)),
                end,
            )
        }
    }
}

/// The charge of an argument for a parameter of a kind, and the number of the token behind it.
pub fn test_argument(
    names: &Names,
    kind: &ParamKind,
    n: usize,
    given: &SourceArg,
) -> (Charge, usize)
    requires { n + rules.argument_width (plain_argument given.now) ≤ most_tokens }
    ensures charge { result.0
        ≡ charged (rules.argument_faults names.now.fields.now names.now.scope.now
        (parameter_kind kind.now) n (plain_argument given.now)) }
    ensures end { result.1 ≡ n + rules.argument_width (plain_argument given.now) }
{
    match given {
        SourceArg::Value(e) => (test_value(names, kind, n, e), end_of(e, n)),
        SourceArg::Window(x, coords) => test_view(names, kind, n, x, coords),
    }
}

/// The buffer that an expression for a buffer is a part of.
fn part_root(names: &Names, aliases: &[Alias], e: &SourceExpr) -> u32
    ensures { Some result
        ≡ units.root_of (units.field_kind names.now.fields.now) (roots_in aliases.now)
        (rules.part_of names.now.fields.now names.now.scope.now (tree_of e.now)) }
{
    match e {
        SourceExpr::Name(x) => root(aliases, id_in(names, x.as_str()).0),
        SourceExpr::Access(x, _) => root(aliases, id_in(names, x.as_str()).0),
        SourceExpr::Parens(inner) => part_root(names, aliases, inner),
        _ => root(aliases, NO_ID.0),
    }
}

/// The buffer that an argument is a part of; None for a control value.
pub fn root_of(names: &Names, aliases: &[Alias], kind: &ParamKind, given: &SourceArg) -> Option<u32>
    ensures { result
        ≡ units.root_of (units.field_kind names.now.fields.now) (roots_in aliases.now)
        (rules.argument_of names.now.fields.now names.now.scope.now (parameter_kind kind.now)
        (plain_argument given.now)) }
{
    match given {
        SourceArg::Value(e) => match kind {
            ParamKind::Ctrl(_) => None,
            _ => Some(part_root(names, aliases, e)),
        },
        SourceArg::Window(x, _) => Some(root(aliases, id_in(names, x.as_str()).0)),
    }
}

/// Points as the coordinates of a window.
fn points_of(alloc: Global, names: &Names, indices: &[SourceExpr]) -> Result<Coords, AllocError>
    ensures { IfOk result (λ l. l ≡ coordinates_of names.now.fields.now names.now.scope.now (rules.points (map tree_of indices.now))) }
{
    let mut made = Coords::new(alloc);
    for e in indices {
        made.push(Coord::At(control_of(alloc, names, e)?))?;
    }
    Ok(made)
}

/// A part of a buffer as a tree.
fn part_of(alloc: Global, names: &Names, e: &SourceExpr) -> Result<Arg, AllocError>
    ensures { IfOk result (λ a. argument a ≡ rules.part_of names.now.fields.now names.now.scope.now (tree_of e.now)) }
{
    match e {
        SourceExpr::Name(x) => Ok(Arg::Whole(id_in(names, x.as_str()))),
        SourceExpr::Access(x, indices) => {
            Ok(Arg::Window(id_in(names, x.as_str()), points_of(alloc, names, indices)?))
        }
        SourceExpr::Parens(inner) => part_of(alloc, names, inner),
        _ => Ok(Arg::Whole(NO_ID)),
    }
}

/// A control value of a kind as a tree.
pub fn kind_of(alloc: Global, names: &Names, kind: Kind, e: &SourceExpr) -> Result<Arg, AllocError>
    ensures { IfOk result
        (λ a. argument a
        ≡ rules.kind_value_of names.now.fields.now names.now.scope.now (control_kind kind)
        (tree_of e.now)) }
{
    match kind {
        Kind::Bool => Ok(Arg::Cond(condition_of(alloc, names, e)?)),
        _ => Ok(Arg::Ctrl(control_of(alloc, names, e)?)),
    }
}

/// An argument for a parameter of a kind as a tree.
pub fn argument_of(
    alloc: Global,
    names: &Names,
    kind: &ParamKind,
    given: &SourceArg,
) -> Result<Arg, AllocError>
    ensures { IfOk result
        (λ a. argument a
        ≡ rules.argument_of names.now.fields.now names.now.scope.now (parameter_kind kind.now)
        (plain_argument given.now)) }
{
    match given {
        SourceArg::Value(e) => match kind {
            ParamKind::Ctrl(kind) => kind_of(alloc, names, *kind, e),
            _ => part_of(alloc, names, e),
        },
        SourceArg::Window(x, coords) => {
            Ok(Arg::Window(
                id_in(names, x.as_str()),
                coordinates_of(alloc, names, coords)?,
            ))
        }
    }
}
