// Bytes that a token holds.

ghost use Rattle.std.specs.Prelude.{◌≡◌, ◌<◌, [], ◌∷◌, ◌++◌, IfOk, EachIndex, slice_index};
ghost use Rattle.std.specs.Result.{OnOk};

use std::alloc::{AllocError, Global};
use std::marker::Model;

/// A name, or what a string stands for. It is seen as the list of its bytes.
pub struct Text {
    text: String,
}

impl Drop for Text {
    fn drop(self) {
        let Self { text: _ } = self;
    }
}

impl Model for Text {
    ghost use Rattle.std.specs.Prelude.{ℕ, List, string_bytes};

    ghost Value = { List ℕ };

    ghost view = { λ t. string_bytes t.text };
}

impl Text {
    /// No bytes.
    pub fn new(alloc: Global) -> Text
        ensures { result ≡ [] }
    {
        Text {
            text: String::new(alloc),
        }
    }

    /// These bytes.
    pub fn from_slice(alloc: Global, bytes: &[u8]) -> Result<Text, AllocError>
        requires { EachIndex bytes.now (λ k. slice_index bytes.now k < 0x80) }
        ensures { IfOk result (λ t. t ≡ bytes.now) }
    {
        let mut text = Text {
            text: String::with_capacity(alloc, bytes.len())?,
        };
        for byte in bytes {
            text.push(*byte)?;
        }
        Ok(text)
    }

    /// One more byte at the end.
    pub fn push(&mut self, byte: u8) -> Result<(), AllocError>
        requires { byte < 0x80 }
        ensures { OnOk result (self.new ≡ self.old ++ byte ∷ []) }
    {
        self.text.push(char::from(byte))
    }

    /// The bytes.
    pub fn as_slice(&self) -> &[u8]
        ensures { result.now ≡ self.now }
    {
        self.text.as_bytes()
    }

    /// The characters.
    pub fn as_str(&self) -> &str
        ensures { result.now ≡ self.now }
    {
        self.text.as_str()
    }

    /// A copy.
    pub fn clone(&self) -> Result<Text, AllocError>
        ensures { IfOk result (λ t. t ≡ self.now) }
    {
        Ok(Text {
            text: self.text.clone()?,
        })
    }
}
