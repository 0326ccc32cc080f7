//! Lists of control expressions, conditions and coordinates.
ghost use Rattle.std.specs.Prelude.{◌≡◌, [], ◌∷◌, ◌++◌, length, map, IfOk, OnOk, OnErr, slice_get, option_map};
ghost use Rattle.std.specs.Option.{option_copied};
ghost use Rattle.exo_tree.specs.PlainControl.{control, condition, coordinate};

use crate::control::{Cond, Coord, Ctrl};
use std::alloc::{AllocError, Global};
use std::marker::Model;

/// The indices of an access, or the dimensions of a buffer.
#[derive(Drop)]
pub struct Indices {
    items: Vec<Ctrl>,
}

impl Model for Indices {
    ghost use Rattle.std.specs.Prelude.{List, map};
    ghost use Rattle.std.specs.Coded.{coded_list};
    ghost use Rattle.exo_tree.specs.Tree.{Control};
    ghost use Rattle.exo_tree.specs.Codes.{control_code};
    ghost use Rattle.exo_tree.specs.PlainControl.{control};

    ghost Value = { List Control };

    ghost coded = { coded_list control_code };

    ghost view = { λ l. map control l.items.items };
}

impl Indices {
    pub fn new(alloc: Global) -> Indices
        ensures { result ≡ [] }
    {
        Indices {
            items: Vec::new(alloc),
        }
    }

    /// Puts the expression last. After want of memory the list is unchanged.
    pub fn push(&mut self, item: Ctrl) -> Result<(), AllocError>
        ensures pushed { OnOk result (self.new ≡ self.old ++ control item ∷ []) }
        ensures unchanged { OnErr result (self.new ≡ self.old) }
    {
        self.items.push(item)?;
        Ok(())
    }

    pub fn len(&self) -> usize
        ensures { result ≡ length self.now }
    {
        self.items.len()
    }

    /// The expression at that index; None exactly where the list is not so long.
    pub fn get(&self, k: usize) -> Option<&Ctrl>
        ensures { option_map control (option_copied result) ≡ slice_get self.now k }
    {
        self.items.get(k)
    }

    pub fn as_slice(&self) -> &[Ctrl]
        ensures { map control result.now ≡ self.now }
    {
        self.items.as_slice()
    }
}

/// The assertions of a procedure.
#[derive(Drop)]
pub struct Conds {
    items: Vec<Cond>,
}

impl Model for Conds {
    ghost use Rattle.std.specs.Prelude.{List, map};
    ghost use Rattle.std.specs.Coded.{coded_list};
    ghost use Rattle.exo_tree.specs.Tree.{Condition};
    ghost use Rattle.exo_tree.specs.Codes.{condition_code};
    ghost use Rattle.exo_tree.specs.PlainControl.{condition};

    ghost Value = { List Condition };

    ghost coded = { coded_list condition_code };

    ghost view = { λ l. map condition l.items.items };
}

impl Conds {
    pub fn new(alloc: Global) -> Conds
        ensures { result ≡ [] }
    {
        Conds {
            items: Vec::new(alloc),
        }
    }

    /// Puts the condition last. After want of memory the list is unchanged.
    pub fn push(&mut self, item: Cond) -> Result<(), AllocError>
        ensures pushed { OnOk result (self.new ≡ self.old ++ condition item ∷ []) }
        ensures unchanged { OnErr result (self.new ≡ self.old) }
    {
        self.items.push(item)?;
        Ok(())
    }

    pub fn as_slice(&self) -> &[Cond]
        ensures { map condition result.now ≡ self.now }
    {
        self.items.as_slice()
    }

    pub fn duplicate(&self, alloc: Global) -> Result<Conds, AllocError>
        ensures { IfOk result (λ l. l ≡ self.now) }
    {
        let mut copied = Conds::new(alloc);
        for item in &self.items {
            copied.push(item.duplicate(alloc)?)?;
        }
        Ok(copied)
    }
}

/// The coordinates of a window.
#[derive(Drop)]
pub struct Coords {
    items: Vec<Coord>,
}

impl Model for Coords {
    ghost use Rattle.std.specs.Prelude.{List, map};
    ghost use Rattle.std.specs.Coded.{coded_list};
    ghost use Rattle.exo_tree.specs.Tree.{Coord};
    ghost use Rattle.exo_tree.specs.Codes.{coord_code};
    ghost use Rattle.exo_tree.specs.PlainControl.{coordinate};

    ghost Value = { List Coord };

    ghost coded = { coded_list coord_code };

    ghost view = { λ l. map coordinate l.items.items };
}

impl Coords {
    pub fn new(alloc: Global) -> Coords
        ensures { result ≡ [] }
    {
        Coords {
            items: Vec::new(alloc),
        }
    }

    /// Puts the coordinate last. After want of memory the list is unchanged.
    pub fn push(&mut self, item: Coord) -> Result<(), AllocError>
        ensures pushed { OnOk result (self.new ≡ self.old ++ coordinate item ∷ []) }
        ensures unchanged { OnErr result (self.new ≡ self.old) }
    {
        self.items.push(item)?;
        Ok(())
    }

    pub fn len(&self) -> usize
        ensures { result ≡ length self.now }
    {
        self.items.len()
    }

    /// The coordinate at that index; None exactly where the list is not so long.
    pub fn get(&self, k: usize) -> Option<&Coord>
        ensures { option_map coordinate (option_copied result) ≡ slice_get self.now k }
    {
        self.items.get(k)
    }

    pub fn as_slice(&self) -> &[Coord]
        ensures { map coordinate result.now ≡ self.now }
    {
        self.items.as_slice()
    }
}
