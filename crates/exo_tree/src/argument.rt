//! Arguments of calls.
ghost use Rattle.std.specs.Prelude.{◌≡◌, [], ◌∷◌, ◌++◌, length, map, OnOk, OnErr};
ghost use Rattle.exo_tree.specs.PlainArgument.{argument};

use crate::control::{Cond, Ctrl};
use crate::list::Coords;
use crate::number::Id;
use std::alloc::{AllocError, Global};
use std::marker::Model;

/// An argument of a call, or the right side of a configuration write, which is one of the first two.
pub enum Arg {
    Ctrl(Ctrl),
    Cond(Cond),
    /// A buffer or view as it is.
    Whole(Id),
    /// A window of a buffer or view.
    Window(Id, Coords),
}

impl Drop for Arg {
    fn drop(self) {
        match self {
            Self::Ctrl(_) | Self::Cond(_) | Self::Whole(_) | Self::Window(_, _) => {}
        }
    }
}

/// The arguments of a call.
#[derive(Drop)]
pub struct Args {
    items: Vec<Arg>,
}

impl Model for Args {
    ghost use Rattle.std.specs.Prelude.{List, map};
    ghost use Rattle.std.specs.Coded.{coded_list};
    ghost use Rattle.exo_tree.specs.Tree.{Argument};
    ghost use Rattle.exo_tree.specs.Codes.{argument_code};
    ghost use Rattle.exo_tree.specs.PlainArgument.{argument};

    ghost Value = { List Argument };

    ghost coded = { coded_list argument_code };

    ghost view = { λ l. map argument l.items.items };
}

impl Args {
    pub fn new(alloc: Global) -> Args
        ensures { result ≡ [] }
    {
        Args {
            items: Vec::new(alloc),
        }
    }

    /// Puts the argument last. After want of memory the list is unchanged.
    pub fn push(&mut self, item: Arg) -> Result<(), AllocError>
        ensures pushed { OnOk result (self.new ≡ self.old ++ argument item ∷ []) }
        ensures unchanged { OnErr result (self.new ≡ self.old) }
    {
        self.items.push(item)?;
        Ok(())
    }

    pub fn len(&self) -> usize
        ensures { result ≡ length self.now }
    {
        self.items.len()
    }

    pub fn as_slice(&self) -> &[Arg]
        ensures { map argument result.now ≡ self.now }
    {
        self.items.as_slice()
    }
}
