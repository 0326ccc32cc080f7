//! The text lines of procedures and statements.
ghost use Rattle.std.specs.Prelude.{◌≡◌, [], ◌∷◌, ◌++◌, OnOk, OnErr, slice_get};
ghost use Rattle.std.specs.Option.{option_copied};

use std::alloc::{AllocError, Global};
use std::marker::Model;

/// The lines of a procedure's statements in preorder, counted from 1.
#[derive(Drop)]
pub struct StatementLines {
    items: Vec<u32>,
}

impl Model for StatementLines {
    ghost use Rattle.std.specs.Prelude.{List, ℕ};
    ghost use Rattle.exo_tree.specs.Codes.{name_code};

    ghost Value = { List ℕ };

    ghost coded = { name_code };

    ghost view = { λ l. l.items.items };
}

impl StatementLines {
    pub fn new(alloc: Global) -> StatementLines
        ensures { result ≡ [] }
    {
        StatementLines {
            items: Vec::new(alloc),
        }
    }

    /// Puts the line last. After want of memory the list is unchanged.
    pub fn push(&mut self, line: u32) -> Result<(), AllocError>
        ensures pushed { OnOk result (self.new ≡ self.old ++ line ∷ []) }
        ensures unchanged { OnErr result (self.new ≡ self.old) }
    {
        self.items.push(line)?;
        Ok(())
    }

    pub fn as_slice(&self) -> &[u32]
        ensures { result.now ≡ self.now }
    {
        self.items.as_slice()
    }
}

/// The line of a procedure's `def`, counted from 1, and those of its statements.
#[derive(Drop)]
pub struct ProcLines {
    pub def: u32,
    pub statements: StatementLines,
}

/// The lines of the procedures of the text, in their order.
#[derive(Drop)]
pub struct Lines {
    items: Vec<ProcLines>,
}

impl Model for Lines {
    ghost use Rattle.std.specs.Prelude.{List};
    ghost use Rattle.exo_tree.specs.declared.lines.ProcLines.{ProcLines};

    ghost Value = { List ProcLines };

    ghost view = { λ l. l.items.items };
}

impl Lines {
    pub fn new(alloc: Global) -> Lines
        ensures { result ≡ [] }
    {
        Lines {
            items: Vec::new(alloc),
        }
    }

    /// Puts the lines of a procedure last. After want of memory the list is unchanged.
    pub fn push(&mut self, item: ProcLines) -> Result<(), AllocError>
        ensures pushed { OnOk result (self.new ≡ self.old ++ item ∷ []) }
        ensures unchanged { OnErr result (self.new ≡ self.old) }
    {
        self.items.push(item)?;
        Ok(())
    }

    /// The lines of the procedure of that number; None exactly where the text has not so many.
    pub fn get(&self, k: usize) -> Option<&ProcLines>
        ensures { option_copied result ≡ slice_get self.now k }
    {
        self.items.get(k)
    }
}
