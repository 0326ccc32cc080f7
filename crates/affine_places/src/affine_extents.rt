//! Whether the extents of buffers are affine and over variables alone, as in every well-formed unit.
ghost use Rattle.std.specs.Prelude.{◌≡◌, map};
ghost use Rattle.exo_tree.specs.Tree.{block};
ghost use Rattle.exo_tree.specs.PlainControl.{control};
ghost use Rattle.exo_tree.specs.PlainParam.{parameter_kind};
ghost use Rattle.exo_tree.specs.PlainStatement.{statement};
ghost use Rattle.exo_tree.specs.PlainProcedure.{procedure};
ghost use Rattle.exo_tree.specs.PlainUnit.{program};
ghost use Rattle.affine_forms.specs.Forms.{is_affine};
ghost use Rattle.affine_forms.specs.Strides.{all_affine};
ghost use Rattle.affine_places.specs.Roots.{variables, are_extents, kind_has_extents};
ghost use Rattle.affine_places.specs.Roots.{params_have_extents, block_has_extents};
ghost use Rattle.affine_places.specs.Roots.{statement_has_extents, has_extents, unit_has_extents};

use affine_forms::is_of_literals;
use exo_tree::{Block, Ctrl, Indices, ParamKind, Params, Proc, ProcId, Stmt, Unit};

/// The most dimensions of a buffer.
const MOST_DIMENSIONS: usize = 8;

/// Whether an expression is affine and over variables alone.
pub fn is_over_variables(e: &Ctrl) -> bool
    ensures { result ≡ is_affine variables (control e.now) }
{
    match e {
        Ctrl::Lit(_) => true,
        Ctrl::Var(_) => true,
        Ctrl::Field(_) => false,
        Ctrl::Stride(_, _) => false,
        Ctrl::Neg(a) => is_over_variables(a),
        Ctrl::Add(a, b) => is_over_variables(a) && is_over_variables(b),
        Ctrl::Sub(a, b) => is_over_variables(a) && is_over_variables(b),
        Ctrl::Mul(a, b) => {
            (is_of_literals(a) || is_of_literals(b))
                && (is_over_variables(a) && is_over_variables(b))
        }
        Ctrl::Div(a, by) => *by > 0 && is_over_variables(a),
        Ctrl::Mod(a, by) => *by > 0 && is_over_variables(a),
    }
}

fn all_over_variables(es: &[Ctrl]) -> bool
    ensures { result ≡ all_affine variables (map control es.now) }
{
    match es.split_first() {
        None => true,
        Some((e, rest)) => is_over_variables(e) && all_over_variables(rest),
    }
}

fn are_extents(list: &Indices) -> bool
    ensures { result ≡ are_extents list.now }
{
    list.len() <= MOST_DIMENSIONS && all_over_variables(list.as_slice())
}

fn kind_has_extents(kind: &ParamKind) -> bool
    ensures { result ≡ kind_has_extents (parameter_kind kind.now) }
{
    match kind {
        ParamKind::Ctrl(_) => true,
        ParamKind::Tensor(_, list, _) => are_extents(list),
        ParamKind::Window(_, list, _) => are_extents(list),
    }
}

fn params_have_extents(params: &Params) -> bool
    ensures { result ≡ params_have_extents params.now }
{
    for p in params.as_slice() {
        if !kind_has_extents(&p.kind) {
            return false;
        }
    }
    true
}

#[cycle(extents)]
fn block_has_extents(b: &Block) -> bool
    ensures { result ≡ block_has_extents (block b.now) }
{
    for k in 0..b.len() {
        if !statement_has_extents(b.statement(k)) {
            return false;
        }
    }
    true
}

#[cycle(extents)]
fn statement_has_extents(s: &Stmt) -> bool
    ensures { result ≡ statement_has_extents (statement s.now) }
{
    match s {
        Stmt::If(_, a, b) => block_has_extents(a) && block_has_extents(b),
        Stmt::For(_, _, _, b) => block_has_extents(b),
        Stmt::Alloc(_, _, list, _) => are_extents(list),
        _ => true,
    }
}

/// Whether each buffer of the procedure has at most 8 dimensions, with affine extents over variables alone.
pub fn has_extents(p: &Proc) -> bool
    ensures { result ≡ has_extents (procedure p.now) }
{
    params_have_extents(&p.params) && block_has_extents(&p.body)
}

/// The same of the procedure `p` of the unit; it holds where the unit has no such procedure.
pub fn unit_has_extents(unit: &Unit, p: ProcId) -> bool
    ensures { result ≡ unit_has_extents (program unit.now) p.0 }
{
    match unit.procs.get(p.0 as usize) {
        Some(found) => has_extents(found),
        None => true,
    }
}
