//! Versions: the procedures of a text and those that steps made of them.
ghost use Rattle.std.specs.Prelude.{◌≡◌, IfOk, option_map};
ghost use Rattle.std.specs.Option.{option_copied};
ghost use Rattle.std.specs.Str.{bytes_eq};
ghost use Rattle.exo_tree.specs.PlainUnit.{program};
ghost use Rattle.schedule_laws.specs.Versions.Versions.{of_text, started, unmoved, version_of};
ghost use Rattle.schedule_laws.specs.Versions.Versions as plain;
ghost use Rattle.schedule_laws.specs.Versions.Places.{parent_at};
ghost use Rattle.config_live.specs.Origins.{origin};
ghost use Rattle.schedule_run.specs.PlainVersions.{held, versions};
ghost use Rattle.schedule_run.specs.Roots.{root_of};

use config_live::{FieldList, Origin, Side};
use cursor_forward::{Cursor, Edits, Shifts};
use exo_tree::{Name, Path, ProcId, Unit};
use std::alloc::{AllocError, Global};

/// What a name holds.
pub enum Held {
    Version(ProcId),
    /// A cursor in the version of that number.
    At(ProcId, Cursor),
}

impl Drop for Held {
    fn drop(self) {
        match self {
            Self::Version(_) | Self::At(_, _) => {}
        }
    }
}

/// A name, and what it holds from then on.
pub struct Binding {
    pub name: Name,
    pub held: Held,
}

impl Drop for Binding {
    fn drop(self) {
        let Self { name: _, held: _ } = self;
    }
}

/// The versions of a schedule. They are the procedures of its unit, first those of the text; each
/// has its origin under its number.
pub struct Session {
    pub unit: Unit,
    pub origins: Vec<Origin>,
    /// Where the statements of the version went of which each was made.
    pub edits: Vec<Edits>,
    /// All bindings in their order: the latest one of a name holds.
    pub names: Vec<Binding>,
    /// The versions to be printed, in the order of their lines.
    pub emitted: Vec<ProcId>,
    /// The number of steps that made versions.
    pub steps: u64,
    /// The number of obligations that were shown, with those of the text.
    pub obligations: u64,
}

impl Drop for Session {
    fn drop(self) {
        let Self {
            unit: _,
            origins: _,
            edits: _,
            names: _,
            emitted: _,
            steps: _,
            obligations: _,
        } = self;
    }
}

/// The number of a version; more of them than numbers are taken as want of memory.
pub(crate) fn number_of(index: usize) -> Result<ProcId, AllocError>
    ensures { IfOk result (λ k. k.0 ≡ index) }
{
    if index > 4294967295 {
        return Err(AllocError);
    }
    Ok(ProcId(index as u32))
}

/// Whether this is what the name holds.
fn is_named(binding: &Binding, name: &[u8]) -> bool
    ensures { result ≡ bytes_eq binding.now.name name.now }
{
    binding.name.as_str().as_bytes() == name
}

/// The origin of a procedure of the text.
fn origin_of_text(alloc: Global) -> Origin
    ensures { origin result ≡ of_text }
{
    Origin {
        parent: None,
        place: Path::new(),
        side: Side::Before,
        fields: FieldList::new(alloc),
    }
}

/// Where its statements went: it was made of none.
fn unmoved(alloc: Global) -> Edits
    ensures { result ≡ unmoved }
{
    Edits::new(Path::new(), 0, 0, Shifts::new(alloc))
}

impl Session {
    /// The versions before the first line: each procedure of the text, under its name. So many
    /// obligations were shown.
    pub(crate) fn start(alloc: Global, unit: Unit, shown: u64) -> Result<Session, AllocError>
        ensures { IfOk result (λ s. versions s ≡ started (program unit) shown) }
    {
        let mut origins = Vec::new(alloc);
        let mut edits = Vec::new(alloc);
        let mut names = Vec::new(alloc);
        for p in unit.procs.as_slice() {
            let number = number_of(origins.len())?;
            let name = p.name.duplicate(alloc)?;
            names.push(Binding {
                name,
                held: Held::Version(number),
            })?;
            origins.push(origin_of_text(alloc))?;
            edits.push(unmoved(alloc))?;
        }
        Ok(Session {
            unit,
            origins,
            edits,
            names,
            emitted: Vec::new(alloc),
            steps: 0,
            obligations: shown,
        })
    }

    /// What the name holds: its latest binding.
    pub(crate) fn held(&self, name: &[u8]) -> Option<&Held>
        ensures { option_map held (option_copied result) ≡ plain.held (versions self.now) name.now }
    {
        let mut k = self.names.len();
        while k > 0 {
            k -= 1;
            let binding = &self.names[k];
            if is_named(binding, name) {
                return Some(&binding.held);
            }
        }
        None
    }

    /// The version that the name holds.
    pub(crate) fn version_of(&self, name: &[u8]) -> Option<ProcId>
        ensures { option_map (λ k. k.0) result ≡ version_of (versions self.now) name.now }
    {
        match self.held(name)? {
            Held::Version(k) => Some(*k),
            Held::At(_, _) => None,
        }
    }

    /// The version of which a version was made.
    pub(crate) fn parent(&self, k: ProcId) -> Option<ProcId>
        ensures { option_map (λ j. j.0) result ≡ parent_at (versions self.now) k.0 }
    {
        self.origins.get(k.0 as usize)?.parent
    }

    /// The procedure of the text of which a version comes.
    pub fn root(&self, k: ProcId) -> ProcId
        ensures { result.0 ≡ root_of (versions self.now) k.0 }
    {
        let mut root = k;
        let mut left = k.0;
        while left > 0 {
            left -= 1;
            match self.parent(root) {
                Some(above) => root = above,
                None => return root,
            }
        }
        root
    }
}
