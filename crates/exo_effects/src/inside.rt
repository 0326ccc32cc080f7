//! Where in a piece a statement stands, and what its accesses are made from.
ghost use Rattle.std.specs.Prelude.{◌≡◌, ◌∷◌, [], ◌++◌, take, length, IfOk, OnOk, string_bytes};
ghost use Rattle.exo_effects.specs.Uses.{use_of};
ghost use Rattle.exo_effects.specs.Parts as plain;
ghost use Rattle.exo_effects.specs.PlainAccess.{plain_mode};
ghost use Rattle.exo_effects.specs.PlainParts.{plain_part};
ghost use Rattle.exo_effects.specs.PlainUses.{plain_uses};
ghost use Rattle.exo_effects.specs.PlainWalk.{inside_of, guarded, use_if};

use crate::access::{Access, Mode};
use crate::guards::Guard;
use crate::parts::{Part, Parts};
use exo_modes::ModeTable;
use exo_tree::{Coords, Id, Unit};
use std::alloc::{AllocError, Global};
use text_show::Words;

/// The unit of a piece, the modes of its procedures, and the words of the piece's procedure.
#[derive(Drop)]
pub(crate) struct EffectSite<'s, 'u> {
    pub(crate) unit: &'s Unit,
    pub(crate) modes: &'s ModeTable,
    pub(crate) words: &'s Words<'u>,
}

/// What the names of a statement stand for, and the loops and branches of the piece around it.
pub(crate) struct Inside<'a> {
    pub(crate) parts: Parts,
    pub(crate) guards: Vec<Guard<'a>>,
}

impl Drop for Inside<'_> {
    fn drop(self) {
        let Self {
            parts: _,
            guards: _,
        } = self;
    }
}

/// A copy of a list of guards.
fn copied<'a>(alloc: Global, guards: &[Guard<'a>]) -> Result<Vec<Guard<'a>>, AllocError>
    ensures { IfOk result (λ v. v.items ≡ guards.now) }
{
    let mut made = Vec::with_capacity(alloc, guards.len())?;
    made.extend_from_slice(guards)?;
    Ok(made)
}

impl<'a> Inside<'a> {
    /// Goes into a loop or branch; `says` is whether that says something.
    pub(crate) fn enter(&mut self, guard: Guard<'a>, says: bool) -> Result<(), AllocError>
        ensures entered { OnOk result (inside_of self.new ≡ guarded says guard.entry (inside_of self.old)) }
        ensures names { OnOk result (self.new.parts.names.items ≡ self.old.parts.names.items) }
        ensures kept { OnOk result (take (length self.old.guards.items) self.new.guards.items ≡ self.old.guards.items) }
    {
        if says {
            self.guards.push(guard)?;
        }
        Ok(())
    }

    /// Puts a use of some cells of a root last.
    pub(crate) fn put(
        &self,
        alloc: Global,
        out: &mut Vec<Access<'a>>,
        part: Part,
        mode: Mode,
        text: String,
    ) -> Result<(), AllocError>
        ensures { OnOk result
            (plain_uses out.new.items
            ≡ plain_uses out.old.items
            ++ use_of (inside_of self.now) (string_bytes text) (plain_part part) (plain_mode mode)
            ∷ []) }
    {
        let guards = copied(alloc, &self.guards)?;
        let Part { root, coords } = part;
        out.push(Access {
            root,
            mode,
            coords,
            guards,
            text,
        })?;
        Ok(())
    }

    /// Puts a use of a part in that mode last, where it has the mode.
    pub(crate) fn put_mode(
        &self,
        alloc: Global,
        out: &mut Vec<Access<'a>>,
        has: bool,
        mode: Mode,
        part: &Part,
        text: &str,
    ) -> Result<(), AllocError>
        ensures { OnOk result
            (plain_uses out.new.items
            ≡ plain_uses out.old.items
            ++ use_if has (inside_of self.now) text.now (plain_part part.now) (plain_mode mode)) }
    {
        if !has {
            return Ok(());
        }
        let mut written = String::new(alloc);
        written.push_str(text)?;
        let copy = part.duplicate(alloc)?;
        self.put(alloc, out, copy, mode, written)
    }
}
