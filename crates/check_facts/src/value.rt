//! What is known of a configuration field while a procedure is gone through.
ghost use Rattle.std.specs.Prelude.{IsTrue};
ghost use Rattle.exo_tree.specs.PlainArgument.{argument};
ghost use Rattle.affine_places.specs.Facts.{Known, fact_keeps_rules};

use exo_tree::{Arg, Path};

/// The right side of a write: an affine expression or condition.
#[derive(Clone, Copy, Drop)]
pub(crate) struct Right<'a> {
    pub(crate) side: &'a Arg,
    pub(crate) ghost rules: { IsTrue (fact_keeps_rules (Known (argument side.now))) },
}

/// What became of a field.
#[derive(Drop)]
pub(crate) enum Value<'a> {
    /// It has its value at entry.
    Entry,
    /// It has the value of that right side.
    Written(Right<'a>),
    /// The statement at that path made its value unknown.
    Unknown(Path),
}

impl<'a> Value<'a> {
    ghost use Rattle.std.specs.Prelude.{◌≡◌};
    ghost use Rattle.check_facts.specs.Values.{plain_value};

    pub(crate) fn duplicate(&self) -> Value<'a>
        ensures { plain_value result ≡ plain_value self.now }
    {
        match self {
            Value::Entry => Value::Entry,
            Value::Written(right) => Value::Written(*right),
            Value::Unknown(path) => Value::Unknown(path.duplicate()),
        }
    }
}
