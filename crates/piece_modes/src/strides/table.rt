//! The strides that all procedures of a unit look at.
ghost use Rattle.std.specs.Prelude.{◌≡◌, [], map, length, OnOk, IfOk};
ghost use Rattle.exo_tree.specs.Tree.{block};
ghost use Rattle.exo_tree.specs.PlainUnit.{program};
ghost use Rattle.exo_modes.specs.Aliases.{roots_in};
ghost use Rattle.exo_tree.specs.PlainParam.{parameter_kind};
ghost use Rattle.exo_tree.specs.PlainProcedure.{procedure};
ghost use Rattle.buffer_laws.specs.Stride.Strides.{kind_uses, params_use, sees_strides};
ghost use Rattle.piece_modes.specs.Strides.Seen.{seen_of, first_world, first_see, param_seen};
ghost use Rattle.piece_modes.specs.Strides.Seen.{is_used_in};
ghost use Rattle.piece_modes.specs.Strides.Table.{AreFirst, seen_rows, word_at};
ghost use Rattle.piece_modes.specs.Strides.PlainTable.{rows, table_rows};

use crate::strides::expressions::controls_use;
use crate::strides::walk::{CallableStrides, block_sees, body_sees};
use exo_modes::{Alias, root};
use exo_tree::{Block, Id, ParamKind, Params, Proc, ProcId, Unit};
use std::alloc::{AllocError, Global};

/// Of each procedure of a unit, which parameters' strides it looks at: directly, through a view, or
/// through a call.
#[derive(Drop)]
pub struct StrideTable {
    rows: Vec<Vec<bool>>,
}

/// Whether the dimensions of a parameter look at a stride of `y`. No name stands for another
/// buffer.
fn kind_sees(aliases: &[Alias], y: u32, kind: &ParamKind) -> bool
    requires { aliases.now ≡ [] }
    ensures { result ≡ kind_uses y (parameter_kind kind.now) }
{
    match kind {
        ParamKind::Ctrl(_) => false,
        ParamKind::Tensor(_, dims, _) => controls_use(aliases, y, dims),
        ParamKind::Window(_, dims, _) => controls_use(aliases, y, dims),
    }
}

/// Whether those of one of the parameters do.
fn params_see(aliases: &[Alias], y: u32, params: &Params) -> bool
    requires { aliases.now ≡ [] }
    ensures { result ≡ params_use y params.now }
{
    for x in params.as_slice() {
        if kind_sees(aliases, y, &x.kind) {
            return true;
        }
    }
    false
}

/// Whether a procedure looks at strides of its parameter `y`, its assertions left out.
fn procedure_sees(
    alloc: Global,
    above: &CallableStrides,
    y: u32,
    p: &Proc,
) -> Result<bool, AllocError>
    requires { AreFirst (rows above.now.rows.now) (program above.now.unit.now) }
    ensures { IfOk result (λ r.
        r ≡ sees_strides (first_world (program above.now.unit.now) (length above.now.rows.now))
        (first_see (program above.now.unit.now) (length above.now.rows.now))
        (procedure p.now) y) }
{
    let no_aliases = Vec::new(alloc);
    if params_see(&no_aliases, y, &p.params) {
        return Ok(true);
    }
    body_sees(alloc, above, y, &p.body)
}

/// Of each parameter of a procedure that calls those above, whether it looks at its strides.
fn row_of(alloc: Global, above: &CallableStrides, p: &Proc) -> Result<Vec<bool>, AllocError>
    requires { AreFirst (rows above.now.rows.now) (program above.now.unit.now) }
    ensures { IfOk result (λ r. r.items ≡ seen_of
        (sees_strides (first_world (program above.now.unit.now) (length above.now.rows.now))
        (first_see (program above.now.unit.now) (length above.now.rows.now))
        (procedure p.now))
        (procedure p.now).params) }
{
    let mut row = Vec::new(alloc);
    for x in p.params.as_slice() {
        let sees = procedure_sees(alloc, above, x.binder.id.0, p)?;
        row.push(sees)?;
    }
    Ok(row)
}

impl StrideTable {
    /// The table of the unit's procedures. Each body is gone through once for each parameter, from
    /// the first procedure on, so that those that it calls are known.
    pub fn new(alloc: Global, unit: &Unit) -> Result<StrideTable, AllocError>
        ensures { IfOk result (λ t. table_rows t ≡ seen_rows (program unit.now)) }
    {
        let mut table = StrideTable {
            rows: Vec::new(alloc),
        };
        table.extend(alloc, unit)?;
        Ok(table)
    }

    /// Adds the unit's procedures behind those of the table. Only their bodies are gone through.
    pub fn extend(&mut self, alloc: Global, unit: &Unit) -> Result<(), AllocError>
        requires { AreFirst (table_rows self.old) (program unit.now) }
        ensures { OnOk result (table_rows self.new ≡ seen_rows (program unit.now)) }
    {
        let procs = unit.procs.as_slice();
        for k in self.rows.len()..procs.len() {
            let above = CallableStrides {
                unit,
                rows: &self.rows,
            };
            let row = row_of(alloc, &above, &procs[k])?;
            self.rows.push(row)?;
        }
        Ok(())
    }

    /// Whether the procedure looks at strides of its parameter of that index; not where there is no
    /// such parameter.
    pub fn get(&self, p: ProcId, param: u32) -> bool
        ensures { result ≡ word_at (table_rows self.now) p.0 param }
    {
        match self.rows.get(p.0 as usize) {
            Some(row) => row.get(param as usize).copied().unwrap_or(false),
            None => false,
        }
    }
}

/// Whether the procedure `p` looks at strides of its parameter of that index, counted from 0: its
/// body, assertions left out, uses a stride of it or of a view of it, or passes it, a view of it or
/// a window of either to such a parameter. It does not where there is no such parameter. The table
/// is that of the unit.
pub fn stride_seen(unit: &Unit, table: &StrideTable, p: ProcId, param: u32) -> bool
    requires { table_rows table.now ≡ seen_rows (program unit.now) }
    ensures { result ≡ param_seen (program unit.now) p.0 param }
{
    if unit.procs.len() <= p.0 as usize {
        return false;
    }
    table.get(p, param)
}

/// Whether a block looks at strides of the buffer that the name `x` stands for: by a stride of a
/// name of it, or by passing a part of it to a parameter whose strides are seen. The aliases say
/// what the names stand for before the block. The table is that of the unit.
pub fn is_stride_used(
    unit: &Unit,
    table: &StrideTable,
    aliases: &mut Vec<Alias>,
    x: Id,
    b: &Block,
) -> Result<bool, AllocError>
    requires { table_rows table.now ≡ seen_rows (program unit.now) }
    ensures used { IfOk result
        (λ r. r ≡ is_used_in (program unit.now) (roots_in aliases.old.items) x.0 (block b.now)) }
    ensures kept { OnOk result (aliases.new.items ≡ aliases.old.items) }
{
    let above = CallableStrides {
        unit,
        rows: &table.rows,
    };
    let buffer = root(aliases, x.0);
    block_sees(&above, aliases, buffer, b)
}
