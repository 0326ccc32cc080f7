// The blocks that are open at a line.

ghost use Rattle.std.specs.Prelude.{◌≡◌, ◌+◌, ◌<◌, [], ◌∷◌, length};
ghost use Rattle.std.specs.Result.{OnOk};
ghost use Rattle.text_lexer.specs.Layout.{innermost, still_open};

use std::alloc::{AllocError, Global};
use std::marker::Model;

/// The columns at which the lines of the indented blocks begin. It is seen as their list, the innermost first.
#[derive(Drop)]
pub struct Blocks {
    columns: Vec<u32>,
}

impl Model for Blocks {
    ghost use Rattle.std.specs.Prelude.{ℕ, List, reverse};

    ghost Value = { List ℕ };

    ghost view = { λ b. reverse b.columns.items };
}

impl Blocks {
    /// No indented block.
    pub fn new(alloc: Global) -> Blocks
        ensures { result ≡ [] }
    {
        Blocks {
            columns: Vec::new(alloc),
        }
    }

    /// How many blocks are open.
    pub fn len(&self) -> usize
        ensures { result ≡ length self.now }
    {
        self.columns.len()
    }

    /// The column of the lines in the innermost block, which is 1 outside all blocks.
    pub fn innermost(&self) -> u32
        ensures { result ≡ innermost self.now }
    {
        match self.columns.last() {
            Some(column) => *column,
            None => 1,
        }
    }

    /// One more block.
    pub fn open(&mut self, column: u32) -> Result<(), AllocError>
        ensures { OnOk result (self.new ≡ column ∷ self.old) }
    {
        self.columns.push(column)?;
        Ok(())
    }

    /// Ends the innermost block.
    fn close_one(&mut self)
        requires { 0 < length self.old }
        ensures { self.old ≡ innermost self.old ∷ self.new }
    {
        self.columns.pop();
    }

    /// Ends the blocks whose lines begin behind a column, and says how many they are.
    pub fn close(&mut self, column: u32) -> usize
        ensures closed { self.new ≡ still_open column self.old }
        ensures count { result + length self.new ≡ length self.old }
    {
        let before = self.len();
        while self.len() > 0 && self.innermost() > column {
            self.close_one();
        }
        before - self.len()
    }
}
