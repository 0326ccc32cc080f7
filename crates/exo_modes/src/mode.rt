//! Three ways to touch a buffer.
ghost use Rattle.std.specs.Prelude.{◌≡◌, ◌||◌};
ghost use Rattle.exo_meaning.specs.Modes.{Mode};
ghost use Rattle.exo_modes.specs.Seen.{says};

/// How a buffer is touched.
#[derive(Clone, Copy, PartialEq, Eq)]
pub struct Modes {
    pub read: bool,
    pub write: bool,
    pub reduce: bool,
}

impl Modes {
    pub(crate) const NONE: Modes = Modes {
        read: false,
        write: false,
        reduce: false,
    };

    pub(crate) const READ: Modes = Modes {
        read: true,
        write: false,
        reduce: false,
    };

    pub(crate) const WRITE: Modes = Modes {
        read: false,
        write: true,
        reduce: false,
    };

    pub(crate) const REDUCE: Modes = Modes {
        read: false,
        write: false,
        reduce: true,
    };

    /// What either says.
    pub(crate) fn or(self, other: Modes) -> Modes
        ensures { (m : Mode) → says result m ≡ (says self m || says other m) }
    {
        Modes {
            read: self.read || other.read,
            write: self.write || other.write,
            reduce: self.reduce || other.reduce,
        }
    }
}
