//! Names and texts, seen as their bytes.
ghost use Rattle.std.specs.Prelude.{◌≡◌, ◌++◌, codes, decimal, IfOk, string_bytes};

use std::alloc::{AllocError, Global};
use std::marker::Model;

/// The name of a procedure, a binder, a configuration, a field or a memory.
pub struct Name {
    text: String,
}

impl Drop for Name {
    fn drop(self) {
        let Self { text: _ } = self;
    }
}

impl Model for Name {
    ghost use Rattle.std.specs.Prelude.{List, ℕ};
    ghost use Rattle.exo_tree.specs.Codes.{name_code};

    ghost Value = { List ℕ };

    ghost coded = { name_code };

    ghost use Rattle.std.specs.Prelude.{string_bytes};

    ghost view = { λ n. string_bytes n.text };
}

impl Name {
    /// The name that is spelled so.
    pub fn new(alloc: Global, text: &str) -> Result<Name, AllocError>
        ensures { IfOk result (λ n. n ≡ text.now) }
    {
        Ok(Name {
            text: String::from_str(alloc, text)?,
        })
    }

    /// The name that is spelled so, with `_` and that number behind it.
    pub fn numbered(alloc: Global, text: &str, number: usize) -> Result<Name, AllocError>
        ensures { IfOk result (λ n. n ≡ text.now ++ codes "_" ++ decimal number) }
    {
        let numbered = format!(in alloc; "{text}_{number}")?;
        Ok(Name::new(alloc, numbered.as_str())?)
    }

    pub fn as_str(&self) -> &str
        ensures { result.now ≡ self.now }
    {
        self.text.as_str()
    }

    pub fn duplicate(&self, alloc: Global) -> Result<Name, AllocError>
        ensures { IfOk result (λ n. n ≡ self.now) }
    {
        Name::new(alloc, self.as_str())
    }
}

/// What a string of the unit text stands for: a template or an attribute of a memory.
pub struct Text {
    text: String,
}

impl Drop for Text {
    fn drop(self) {
        let Self { text: _ } = self;
    }
}

impl Model for Text {
    ghost use Rattle.std.specs.Prelude.{List, ℕ};
    ghost use Rattle.exo_tree.specs.Codes.{name_code};

    ghost Value = { List ℕ };

    ghost coded = { name_code };

    ghost use Rattle.std.specs.Prelude.{string_bytes};

    ghost view = { λ t. string_bytes t.text };
}

impl Text {
    /// The text with these characters.
    pub fn new(alloc: Global, text: &str) -> Result<Text, AllocError>
        ensures { IfOk result (λ t. t ≡ text.now) }
    {
        Ok(Text {
            text: String::from_str(alloc, text)?,
        })
    }

    pub fn as_str(&self) -> &str
        ensures { result.now ≡ self.now }
    {
        self.text.as_str()
    }

    pub fn duplicate(&self, alloc: Global) -> Result<Text, AllocError>
        ensures { IfOk result (λ t. t ≡ self.now) }
    {
        Text::new(alloc, self.as_str())
    }
}
