//! What holds at a place.
ghost use Rattle.std.specs.Prelude.{◌≡◌, ◌++◌, ◌∷◌, [], map, OnOk, OnErr, length};
ghost use Rattle.affine_forms.specs.PlainFormulas.{plain_formula};

use affine_forms::Formula;
use std::alloc::{AllocError, Global};
use std::marker::Model;

/// The formulas that hold at a place.
#[derive(Drop)]
pub struct Context {
    items: Vec<Formula>,
}

impl Model for Context {
    ghost use Rattle.std.specs.Prelude.{List, map};
    ghost use Rattle.std.specs.Coded.{coded_list};
    ghost use Rattle.affine_forms.specs.Formulas as plain;
    ghost use Rattle.affine_systems.specs.FormulaCodes.{formula_code};

    ghost Value = { List plain.Formula };

    ghost coded = { coded_list formula_code };

    ghost use Rattle.affine_forms.specs.PlainFormulas.{plain_formula};

    ghost view = { λ c. map plain_formula c.items.items };
}

impl Context {
    /// Nothing is known.
    pub fn new(alloc: Global) -> Context
        ensures { result ≡ [] }
    {
        Context {
            items: Vec::new(alloc),
        }
    }

    /// Puts a formula last. After want of memory the context is unchanged.
    pub fn push(&mut self, f: Formula) -> Result<(), AllocError>
        ensures pushed { OnOk result (self.new ≡ self.old ++ plain_formula f ∷ []) }
        ensures unchanged { OnErr result (self.new ≡ self.old) }
    {
        self.items.push(f)?;
        Ok(())
    }

    /// The number of formulas.
    pub fn len(&self) -> usize
        ensures { result ≡ length self.now }
    {
        self.items.len()
    }

    /// The formulas.
    pub fn formulas(&self) -> &[Formula]
        ensures { map plain_formula result.now ≡ self.now }
    {
        &self.items
    }
}
