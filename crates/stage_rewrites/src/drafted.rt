//! What is made of a window and a block.
ghost use Rattle.std.specs.Prelude.{◌≡◌, ◌||◌, not, cond, IfOk};
ghost use Rattle.exo_tree.specs.Tree as tree;
ghost use Rattle.exo_tree.specs.Tree.{block};
ghost use Rattle.exo_tree.specs.PlainBinder.{cell_type};
ghost use Rattle.exo_tree.specs.PlainDatum.{datum};
ghost use Rattle.exo_tree.specs.PlainStatement.{statement};
ghost use Rattle.buffer_laws.specs.Buffers.{only_buffer};
ghost use Rattle.buffer_laws.specs.Simplified.{all_simpler};
ghost use Rattle.buffer_laws.specs.Staging.Stores as stores;
ghost use Rattle.buffer_laws.specs.StageMem.{staged_block};
ghost use Rattle.alloc_laws.specs.Stage.Written.{written_as, are_written};
ghost use Rattle.step_driver.specs.PlainWriting.{writing};
ghost use Rattle.tree_uses.specs.Outcomes.{ComesIf};
ghost use Rattle.stage_rewrites.specs.Tested.PlainStaging.{plain_staging};
ghost use Rattle.stage_rewrites.specs.Nests as plain;
ghost use Rattle.stage_rewrites.specs.Nests.{load_written, store_written, rest_written};
ghost use Rattle.stage_rewrites.specs.Nests.{stage_written};
ghost use Rattle.stage_rewrites.specs.Places.{spots_from};

use crate::ids::{id_behind, next_id};
use crate::lists::spans;
use crate::nests::nest;
use crate::on_window::OnWindow;
use crate::places::{spots, variables};
use crate::tested::Staging;
use crate::writing::written_controls;
use affine_forms::FormError;
use exo_tree::{Binder, Block, Cell, DataExpr, Id, Indices, MemId, Stmt};
use std::alloc::{AllocError, Global};
use step_driver::Writing;

/// A window with the buffer that stands for it, and how made expressions are written.
#[derive(Clone, Copy)]
pub(crate) struct Draft<'a> {
    pub(crate) staging: Staging<'a>,
    pub(crate) how: Writing,
    /// The type of the window's cells.
    pub(crate) cell: Cell,
    /// The buffer. The variables of loops have the ids behind it.
    pub(crate) buffer: Id,
}

impl Draft<'_> {
    /// The extents of the window.
    #[tactic(auto, using(crate::proofs::Written::list_wide))]
    fn sizes(&self, alloc: Global) -> Result<Indices, FormError>
        ensures value { IfOk result (λ l. l ≡ all_simpler (written_as (writing self.now.how))
            (stores.spans (plain_staging self.now.staging).coords)) }
        ensures fits { ComesIf result (are_written (writing self.now.how)
            (stores.spans (plain_staging self.now.staging).coords)) }
    {
        let extents = spans(alloc, self.staging.coords)?;
        let written = written_controls(alloc, self.how, extents)?;
        Ok(written)
    }

    /// The indices of the window's cell at variables with ids from `first` on.
    #[tactic(auto, using(crate::proofs::Written::list_wide))]
    fn spots_at(&self, alloc: Global, first: Id) -> Result<Indices, FormError>
        ensures value { IfOk result (λ l. l ≡ plain.spots_at (writing self.now.how)
            (plain_staging self.now.staging) self.now.buffer.0 first.0) }
        ensures fits { ComesIf result (are_written (writing self.now.how)
            (spots_from first.0 (plain_staging self.now.staging).coords)) }
    {
        let made = spots(alloc, first, self.staging.coords)?;
        let written = written_controls(alloc, self.how, made)?;
        Ok(written)
    }

    /// The allocation of the buffer, alone in a block.
    fn allocation(&self, alloc: Global, sizes: &Indices) -> Result<Block, AllocError>
        ensures { IfOk result (λ b. block b ≡ only_buffer (record {
          binder = record {
            id = self.now.buffer.0;
            name = (plain_staging self.now.staging).name;
          };
          cell = cell_type self.now.cell;
          dims = sizes.now;
          memory = 0;
        })) }
    {
        let binder = Binder {
            id: self.buffer,
            name: self.staging.name.duplicate(alloc)?,
        };
        let dims = sizes.duplicate(alloc)?;
        Block::single(alloc, Stmt::Alloc(binder, self.cell, dims, MemId(0)))
    }

    /// What goes into the buffer before the block: the window's cell, or 0 where sums are kept.
    #[tactic(auto, using(crate::proofs::Staged::zero_loaded, crate::proofs::Staged::zero_fits, crate::proofs::Staged::cell_loaded, crate::proofs::Staged::cell_fits, crate::proofs::Staged::cell_wide))]
    fn value_loaded(&self, alloc: Global) -> Result<DataExpr, FormError>
        ensures value { IfOk result (λ e. datum e ≡ plain.value_loaded (writing self.now.how)
            (plain_staging self.now.staging) self.now.buffer.0) }
        ensures fits { ComesIf result (load_written (writing self.now.how)
            (plain_staging self.now.staging) self.now.buffer.0) }
    {
        if self.staging.accum {
            return Ok(DataExpr::Lit(0));
        }
        let first = next_id(self.buffer)?;
        Ok(DataExpr::Read(self.staging.root, self.spots_at(alloc, first)?))
    }

    /// The nest before the block.
    #[tactic(auto, using(crate::proofs::Staged::loaded_out))]
    fn loaded(&self, alloc: Global, sizes: &Indices) -> Result<Block, FormError>
        ensures value { IfOk result (λ b. block b ≡ plain.loaded (writing self.now.how)
            (plain_staging self.now.staging) self.now.buffer.0 sizes.now) }
        ensures fits { ComesIf result (load_written (writing self.now.how)
            (plain_staging self.now.staging) self.now.buffer.0) }
    {
        let value = self.value_loaded(alloc)?;
        let first = next_id(self.buffer)?;
        let at = variables(alloc, first, sizes)?;
        Ok(nest(alloc, first, sizes, Stmt::Assign(self.buffer, at, value))?)
    }

    /// The statement that takes a value into the window's cell at variables with ids from `first`
    /// on, or adds it where sums are kept.
    #[tactic(auto, using(crate::proofs::Staged::sum_taken, crate::proofs::Staged::cell_taken))]
    fn taken(&self, alloc: Global, first: Id, value: DataExpr) -> Result<Stmt, FormError>
        ensures value { IfOk result (λ s. statement s ≡ plain.taken (writing self.now.how)
            (plain_staging self.now.staging) self.now.buffer.0 first.0 (datum value)) }
        ensures fits { ComesIf result (are_written (writing self.now.how)
            (spots_from first.0 (plain_staging self.now.staging).coords)) }
    {
        let at = self.spots_at(alloc, first)?;
        if self.staging.accum {
            return Ok(Stmt::Reduce(self.staging.root, at, value));
        }
        Ok(Stmt::Assign(self.staging.root, at, value))
    }

    /// The nest behind the block.
    #[tactic(auto, using(crate::proofs::Staged::stored_out, crate::proofs::Staged::store_fits, crate::proofs::Staged::store_wide))]
    fn stored(&self, alloc: Global, sizes: &Indices) -> Result<Block, FormError>
        ensures value { IfOk result (λ b. block b ≡ plain.stored (writing self.now.how)
            (plain_staging self.now.staging) self.now.buffer.0 sizes.now) }
        ensures fits { ComesIf result (store_written (writing self.now.how)
            (plain_staging self.now.staging) self.now.buffer.0 sizes.now) }
    {
        let first = id_behind(self.buffer, sizes.len())?;
        let value = DataExpr::Read(self.buffer, variables(alloc, first, sizes)?);
        let last = self.taken(alloc, first, value)?;
        Ok(nest(alloc, first, sizes, last)?)
    }

    /// The nest behind the block, where there is one.
    #[tactic(auto, using(crate::proofs::Staged::nothing_stored, crate::proofs::Staged::nothing_fits, crate::proofs::Staged::nest_stored, crate::proofs::Staged::nest_fits, crate::proofs::Staged::nest_wide))]
    fn stored_if(&self, alloc: Global, writes: bool, sizes: &Indices) -> Result<Block, FormError>
        ensures value { IfOk result (λ b. block b ≡ cond writes (plain.stored
            (writing self.now.how) (plain_staging self.now.staging) self.now.buffer.0 sizes.now)
            tree.end) }
        ensures fits { ComesIf result (not writes || store_written (writing self.now.how)
            (plain_staging self.now.staging) self.now.buffer.0 sizes.now) }
    {
        if !writes {
            return Ok(Block::new(alloc));
        }
        let made = self.stored(alloc, sizes)?;
        Ok(made)
    }

    /// The block on the buffer, and the nest behind it where there is one.
    #[tactic(auto, using(crate::proofs::Staged::joined_out, crate::proofs::Written::first_wide, crate::proofs::Written::second_wide))]
    fn rest(
        &self,
        alloc: Global,
        writes: bool,
        sizes: &Indices,
        old: &Block,
    ) -> Result<Block, FormError>
        ensures value { IfOk result (λ b. block b ≡ plain.rest (writing self.now.how)
            (plain_staging self.now.staging) self.now.buffer.0 writes sizes.now
            (block old.now)) }
        ensures fits { ComesIf result (rest_written (writing self.now.how)
            (plain_staging self.now.staging) self.now.buffer.0 writes sizes.now
            (block old.now)) }
    {
        let window = OnWindow {
            how: self.how,
            buffer: self.buffer,
            root: self.staging.root,
            coords: self.staging.coords,
        };
        let mut made = window.block(alloc, old)?;
        made.append(self.stored_if(alloc, writes, sizes)?)?;
        Ok(made)
    }

    /// The allocation of the buffer and the nest behind it.
    #[tactic(auto, using(crate::proofs::Staged::headed_out))]
    fn head(&self, alloc: Global, sizes: &Indices) -> Result<Block, FormError>
        ensures value { IfOk result (λ b. block b ≡ plain.head (writing self.now.how)
            (plain_staging self.now.staging) self.now.buffer.0 (cell_type self.now.cell)
            sizes.now) }
        ensures fits { ComesIf result (load_written (writing self.now.how)
            (plain_staging self.now.staging) self.now.buffer.0) }
    {
        let mut made = self.allocation(alloc, sizes)?;
        made.append(self.loaded(alloc, sizes)?)?;
        Ok(made)
    }

    /// All that stands for the block; the nest behind it only where it `writes` the window.
    /// `WideNumber` comes exactly where the normal form of a made expression cannot be written
    /// down.
    #[tactic(auto, using(crate::proofs::Staged::staged_out, crate::proofs::Staged::stage_fits, crate::proofs::Staged::rest_wide, crate::proofs::Staged::head_wide, crate::proofs::Written::first_wide))]
    pub(crate) fn staged(
        &self,
        alloc: Global,
        writes: bool,
        old: &Block,
    ) -> Result<Block, FormError>
        ensures value { IfOk result (λ b. block b ≡ staged_block
            (written_as (writing self.now.how)) (plain_staging self.now.staging)
            (cell_type self.now.cell) 0 self.now.buffer.0 writes (block old.now)) }
        ensures fits { ComesIf result (stage_written (writing self.now.how)
            (plain_staging self.now.staging) self.now.buffer.0 writes (block old.now)) }
    {
        let sizes = self.sizes(alloc)?;
        let mut made = self.head(alloc, &sizes)?;
        made.append(self.rest(alloc, writes, &sizes, old)?)?;
        Ok(made)
    }
}
