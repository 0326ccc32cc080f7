//! Parameters.
ghost use Rattle.std.specs.Prelude.{◌≡◌, [], ◌∷◌, ◌++◌, length, map, IfOk, OnOk, OnErr, slice_get, option_map};
ghost use Rattle.std.specs.Option.{option_copied};
ghost use Rattle.exo_tree.specs.PlainParam.{parameter};

use crate::binder::Binder;
use crate::list::Indices;
use crate::number::{Cell, Kind, MemId};
use std::alloc::{AllocError, Global};
use std::marker::Model;

/// What a parameter takes.
pub enum ParamKind {
    Ctrl(Kind),
    /// A dense, row-major buffer of these dimensions in that memory.
    Tensor(Cell, Indices, MemId),
    /// A window with strides of its own.
    Window(Cell, Indices, MemId),
}

impl Drop for ParamKind {
    fn drop(self) {
        match self {
            Self::Ctrl(_) | Self::Tensor(_, _, _) | Self::Window(_, _, _) => {}
        }
    }
}

/// A parameter of a procedure.
pub struct Param {
    pub binder: Binder,
    pub kind: ParamKind,
}

impl Drop for Param {
    fn drop(self) {
        let Self { binder: _, kind: _ } = self;
    }
}

/// The parameters of a procedure.
#[derive(Drop)]
pub struct Params {
    items: Vec<Param>,
}

impl Model for Params {
    ghost use Rattle.std.specs.Prelude.{List, map};
    ghost use Rattle.std.specs.Coded.{coded_list};
    ghost use Rattle.exo_tree.specs.Tree.{Param};
    ghost use Rattle.exo_tree.specs.Codes.{param_code};
    ghost use Rattle.exo_tree.specs.PlainParam.{parameter};

    ghost Value = { List Param };

    ghost coded = { coded_list param_code };

    ghost view = { λ l. map parameter l.items.items };
}

impl Params {
    pub fn new(alloc: Global) -> Params
        ensures { result ≡ [] }
    {
        Params {
            items: Vec::new(alloc),
        }
    }

    /// Puts the parameter last. After want of memory the list is unchanged.
    pub fn push(&mut self, item: Param) -> Result<(), AllocError>
        ensures pushed { OnOk result (self.new ≡ self.old ++ parameter item ∷ []) }
        ensures unchanged { OnErr result (self.new ≡ self.old) }
    {
        self.items.push(item)?;
        Ok(())
    }

    pub fn len(&self) -> usize
        ensures { result ≡ length self.now }
    {
        self.items.len()
    }

    /// The parameter at that index; None exactly where the list is not so long.
    pub fn get(&self, k: usize) -> Option<&Param>
        ensures { option_map parameter (option_copied result) ≡ slice_get self.now k }
    {
        self.items.get(k)
    }

    pub fn as_slice(&self) -> &[Param]
        ensures { map parameter result.now ≡ self.now }
    {
        self.items.as_slice()
    }

    pub fn duplicate(&self, alloc: Global) -> Result<Params, AllocError>
        ensures { IfOk result (λ l. l ≡ self.now) }
    {
        let mut copied = Params::new(alloc);
        for item in &self.items {
            copied.push(item.duplicate(alloc)?)?;
        }
        Ok(copied)
    }
}
