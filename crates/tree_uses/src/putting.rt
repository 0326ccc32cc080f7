//! Trees with arguments in the place of names.
ghost use Rattle.std.specs.Prelude.{◌≡◌, IfOk};
ghost use Rattle.exo_tree.specs.Tree.{block};
ghost use Rattle.tree_uses.specs.Putting.{putting};
ghost use Rattle.tree_uses.specs.Uses as plain;

use crate::blocks::used;
use crate::puts::{Given, Puts, coords_for, put_control, put_joined, put_shifted, root_for};
use crate::uses::Uses;
use affine_forms::FormError;
use exo_tree::{Arg, Binder, Block, Cond, Coords, Ctrl, Id, Indices};
use std::alloc::{AllocError, Global};

/// What is put in the place of names, and what comes of that for the expressions of a tree.
#[derive(Drop)]
pub struct Putting<'a, P: Puts> {
    pub puts: &'a P,
}

impl<P: Puts> Uses for Putting<'_, P> {
    ghost use Rattle.tree_uses.specs.Putting.{putting};

    ghost uses = { λ u. putting (P.to u.puts.now) (P.put u.puts.now) };

    fn control(&self, alloc: Global, e: &Ctrl) -> Result<Ctrl, FormError> {
        let made = put_control(alloc, self.puts, e)?;
        Ok(made)
    }

    fn flag(&self, alloc: Global, x: Id) -> Result<Cond, AllocError> {
        self.puts.flag(alloc, x)
    }

    fn name(&self, x: Id) -> Id {
        root_for(self.puts, x)
    }

    fn indices(&self, alloc: Global, x: Id, at: &Indices) -> Result<Indices, FormError> {
        let mut made = Indices::new(alloc);
        put_shifted(
            alloc,
            self.puts,
            coords_for(self.puts, x),
            at.as_slice(),
            &mut made,
        )?;
        Ok(made)
    }

    fn coords(&self, alloc: Global, x: Id, at: &Coords) -> Result<Coords, FormError> {
        let mut made = Coords::new(alloc);
        put_joined(
            alloc,
            self.puts,
            coords_for(self.puts, x),
            at.as_slice(),
            &mut made,
        )?;
        Ok(made)
    }

    fn whole(&self, alloc: Global, x: Id) -> Result<Arg, AllocError> {
        match self.puts.name(x) {
            Given::Name(y) => Ok(Arg::Whole(y)),
            Given::Window(y, coords) => Ok(Arg::Window(y, coords.duplicate(alloc)?)),
            Given::Argument(a) => a.duplicate(alloc),
        }
    }

    fn binder(&self, alloc: Global, b: &Binder) -> Result<Binder, AllocError> {
        Ok(Binder {
            id: self.puts.bound(b.id),
            name: b.name.duplicate(alloc)?,
        })
    }
}

/// A block with what is put for its names.
pub fn put<P: Puts>(alloc: Global, puts: &P, b: &Block) -> Result<Block, AllocError>
    ensures { IfOk result (λ c. block c
        ≡ plain.used (putting (P.to puts.now) (P.put puts.now)) (block b.now)) }
{
    // nothing of what is put is too wide
    match used(alloc, &Putting { puts }, b) {
        Ok(made) => Ok(made),
        Err(_) => Err(AllocError),
    }
}

/// A window of `root` in the place of a name; all else stays.
#[derive(Drop)]
pub struct OneWindow<'a> {
    pub name: Id,
    pub root: Id,
    pub coords: &'a Coords,
}

impl Puts for OneWindow<'_> {
    ghost use Rattle.exo_tree.specs.Tree.{Window};
    ghost use Rattle.tree_uses.specs.Putting.{one_window};

    ghost put = { λ o. one_window o.name.0 (Window o.root.0 o.coords.now) };

    ghost to = { λ o x. x };

    fn variable(&self, _alloc: Global, x: Id) -> Result<Ctrl, AllocError> {
        Ok(Ctrl::Var(x))
    }

    fn flag(&self, _alloc: Global, x: Id) -> Result<Cond, AllocError> {
        Ok(Cond::Var(x))
    }

    fn name(&self, x: Id) -> Given<'_> {
        if x.0 == self.name.0 {
            Given::Window(self.root, self.coords)
        } else {
            Given::Name(x)
        }
    }

    fn bound(&self, x: Id) -> Id {
        x
    }
}
