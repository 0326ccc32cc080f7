//! Equations are solved and put in.
ghost use Rattle.std.specs.Prelude.{◌≡◌, IfOk, Some};
ghost use Rattle.std.specs.List.{position, find};
ghost use Rattle.std.specs.Option.{option_map};
ghost use Rattle.affine_prover.specs.RowSets.Shapes.{AreWide};
ghost use Rattle.affine_prover.specs.RowSets.Rows.{is_impossible, has_unit, reduced};
ghost use Rattle.affine_prover.specs.Elimination.{round, verdict_on, round_of};
ghost use Rattle.affine_prover.specs.Steps.{round_of_turn};

use crate::answer::Verdict;
use crate::eliminate::eliminate;
use crate::row_sets::{DenseRow, solvable, substitute, two_rows_each};
use std::alloc::{AllocError, Global};

/// What one round leaves.
#[derive(Drop)]
enum Turn {
    /// A verdict.
    Finished(Verdict),
    /// Equations and rows with one variable fewer.
    Solved(Vec<DenseRow>, Vec<DenseRow>),
    /// Rows alone.
    Unsolved(Vec<DenseRow>),
}

/// Whether no integers make the sum 0: the gcd of the coefficients does not divide the constant.
fn is_impossible(e: &DenseRow) -> bool
    ensures { result ≡ is_impossible e.now }
{
    let g = e.gcd();
    let k = e.constant().unsigned_abs();
    if g == 0 { k != 0 } else { k % g != 0 }
}

/// The equations divided by the gcd of their coefficients, or `None` where no integers meet one.
fn reduce(alloc: Global, equations: Vec<DenseRow>) -> Result<Option<Vec<DenseRow>>, AllocError>
    ensures { IfOk result (λ r. option_map (λ v. v.items) r ≡ reduced equations.items) }
{
    let mut kept = Vec::new(alloc);
    for mut e in equations {
        if is_impossible(&e) {
            return Ok(None);
        }
        e.tighten();
        if !e.is_constant() {
            kept.push(e)?;
        }
    }
    Ok(Some(kept))
}

/// The equation at place `i` is solved and put in everywhere.
fn put_in(
    alloc: Global,
    i: usize,
    n: usize,
    equations: Vec<DenseRow>,
    rows: Vec<DenseRow>,
) -> Result<Turn, AllocError>
    requires wide_equations { AreWide n equations.items }
    requires wide_rows { AreWide n rows.items }
    requires first { position has_unit equations.items ≡ Some i }
    ensures { IfOk result (λ t. round_of_turn t ≡ round_of equations.items rows.items (find has_unit equations.items)) }
{
    let mut others = equations;
    let e = others.remove(i);
    let v = e.unit_place();
    match substitute(alloc, v, &e, others)? {
        None => Ok(Turn::Finished(Verdict::TooWide)),
        Some(es) => match substitute(alloc, v, &e, rows)? {
            None => Ok(Turn::Finished(Verdict::TooWide)),
            Some(rest) => Ok(Turn::Solved(es, rest)),
        },
    }
}

/// One round: an equation is solved and put in, or each equation becomes two rows.
fn round(
    alloc: Global,
    n: usize,
    equations: Vec<DenseRow>,
    rows: Vec<DenseRow>,
) -> Result<Turn, AllocError>
    requires wide_equations { AreWide n equations.items }
    requires wide_rows { AreWide n rows.items }
    ensures { IfOk result (λ t. round_of_turn t ≡ round equations.items rows.items) }
{
    match reduce(alloc, equations)? {
        None => Ok(Turn::Finished(Verdict::Shown)),
        Some(es) => match solvable(&es) {
            None => {
                let all = two_rows_each(alloc, es, rows)?;
                Ok(Turn::Unsolved(all))
            }
            Some(i) => put_in(alloc, i, n, es, rows),
        },
    }
}

/// The verdict on equations and rows over `n` variables.
pub fn solve(
    alloc: Global,
    n: usize,
    equations: Vec<DenseRow>,
    rows: Vec<DenseRow>,
) -> Result<Verdict, AllocError>
    requires wide_equations { AreWide n equations.items }
    requires wide_rows { AreWide n rows.items }
    ensures { IfOk result (λ v. v ≡ verdict_on n equations.items rows.items) }
{
    match round(alloc, n, equations, rows)? {
        Turn::Finished(v) => Ok(v),
        Turn::Unsolved(rest) => eliminate(alloc, n, rest),
        Turn::Solved(others, rest) => {
            if n == 0 {
                Ok(Verdict::Open)
            } else {
                solve(alloc, n - 1, others, rest)
            }
        }
    }
}
