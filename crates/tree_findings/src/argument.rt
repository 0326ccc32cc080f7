//! What is found in arguments.
ghost use Rattle.std.specs.Prelude.{◌≡◌, ◌==◌, ◌&&◌, not, map, length, option_map};
ghost use Rattle.exo_tree.specs.PlainArgument.{argument};
ghost use Rattle.exo_tree.specs.PlainBinder.{cell_type, control_kind};
ghost use Rattle.exo_tree.specs.PlainParam.{parameter, parameter_kind};
ghost use Rattle.exo_tree.specs.PlainControl.{coordinate};
ghost use Rattle.exo_meaning.specs.Units as units;
ghost use Rattle.tree_findings.specs.Classes as classes;
ghost use Rattle.tree_findings.specs.Findings as found;
ghost use Rattle.tree_findings.specs.Seen.{kinds_seen, scope_seen};
ghost use Rattle.exo_modes.specs.Reads.{reads};

use crate::expression::{in_condition, in_control, in_window, spans};
use crate::findings::Findings;
use crate::name::{ScopeNames, use_of};
use crate::size::deepest_coord;
use exo_modes::{Reads, WITH_BOTH, WITH_STRIDES, has_cell, has_rank, is_dense};
use exo_tree::{Arg, Cell, Coord, Id, Kind, Param, ParamKind};

/// What is found in an argument for a control value.
fn in_value(names: &ScopeNames, may: Reads, kind: Kind, a: &Arg) -> Findings
    ensures { result ≡ found.findings_of_kind (kinds_seen names.now) (reads may)
        (scope_seen names.now) (control_kind kind) (argument a.now) }
{
    match a {
        Arg::Ctrl(e) => Findings::rule(kind != Kind::Bool).and(in_control(names, may, e)),
        Arg::Cond(c) => Findings::rule(kind == Kind::Bool).and(in_condition(names, may, c)),
        _ => Findings::rule(false),
    }
}

/// What is found in a window of a buffer of that cell type.
fn in_part(names: &ScopeNames, cell: Cell, x: Id, coords: &[Coord]) -> Findings
    ensures { result ≡ classes.both
        (classes.use_of (units.has_cell (cell_type cell))
        (units.sort_in (scope_seen names.now) x.0))
        (found.findings_of_window (kinds_seen names.now) (scope_seen names.now) x.0
        (map coordinate coords.now)) }
{
    let sort = names.sort(x);
    use_of(sort, has_cell(cell, sort)).and(in_window(names, x, coords))
}

/// Whether a tensor of rank 0 takes a window: it is a single cell.
fn is_cell(rank: usize, coords: &[Coord]) -> bool
    ensures { result ≡ ((rank == 0)
        && ((units.spans (map coordinate coords.now) == 0)
        && not (length (map coordinate coords.now) == 0))) }
{
    rank == 0 && (spans(coords) == 0 && !(coords.len() == 0))
}

/// What is found in an argument for a tensor.
fn in_tensor(names: &ScopeNames, cell: Cell, rank: usize, a: &Arg) -> Findings
    ensures { result ≡ found.findings_of_tensor (kinds_seen names.now) (scope_seen names.now)
        (cell_type cell) rank (argument a.now) }
{
    match a {
        Arg::Whole(x) => {
            let sort = names.sort(*x);
            let dense = rank == 0 || is_dense(sort);
            use_of(
                sort,
                has_cell(cell, sort) && (has_rank(rank, sort) && dense),
            )
        }
        Arg::Window(x, coords) => {
            let coords = coords.as_slice();
            let alone = Findings::rule(is_cell(rank, coords));
            let shallow = Findings::limit(deepest_coord(coords) < 64);
            in_part(names, cell, *x, coords).and(alone.and(shallow))
        }
        _ => Findings::rule(false),
    }
}

/// What is found in an argument for a window.
fn in_strided(names: &ScopeNames, cell: Cell, rank: usize, a: &Arg) -> Findings
    ensures { result ≡ found.findings_of_strided (kinds_seen names.now) (scope_seen names.now)
        (cell_type cell) rank (argument a.now) }
{
    match a {
        Arg::Whole(x) => {
            let sort = names.sort(*x);
            use_of(sort, has_cell(cell, sort) && has_rank(rank, sort))
        }
        Arg::Window(x, coords) => {
            let coords = coords.as_slice();
            in_part(names, cell, *x, coords).and(Findings::rule(rank == spans(coords)))
        }
        _ => Findings::rule(false),
    }
}

/// What is found in an argument for a parameter.
fn in_argument(names: &ScopeNames, kind: &ParamKind, a: &Arg) -> Findings
    ensures { result ≡ found.findings_of_argument (kinds_seen names.now) (scope_seen names.now)
        (parameter_kind kind.now) (argument a.now) }
{
    match kind {
        ParamKind::Ctrl(kind) => in_value(names, WITH_BOTH, *kind, a),
        ParamKind::Tensor(cell, dims, _) => in_tensor(names, *cell, dims.len(), a),
        ParamKind::Window(cell, dims, _) => in_strided(names, *cell, dims.len(), a),
    }
}

/// What is found in the arguments for parameters.
pub(crate) fn in_arguments(names: &ScopeNames, params: &[Param], args: &[Arg]) -> Findings
    ensures { result ≡ found.findings_of_arguments (kinds_seen names.now) (scope_seen names.now)
        (map parameter params.now) (map argument args.now) }
{
    let [p, params @ ..] = params else {
        return Findings::rule(args.is_empty());
    };
    let [a, args @ ..] = args else {
        return Findings::rule(false);
    };
    in_argument(names, &p.kind, a).and(in_arguments(names, params, args))
}

/// What is found in a write of a field of that kind.
pub(crate) fn in_write(names: &ScopeNames, kind: Option<Kind>, a: &Arg) -> Findings
    ensures { result ≡ found.findings_of_write (kinds_seen names.now) (scope_seen names.now)
        (option_map control_kind kind) (argument a.now) }
{
    match kind {
        Some(kind) => in_value(names, WITH_STRIDES, kind, a),
        None => Findings::rule(false),
    }
}
