//! Two accesses that may clash.
ghost use Rattle.std.specs.Prelude.{◌≡◌, ◌++◌, IfOk, codes};
ghost use Rattle.exo_effects.specs.Conflicts as plain;
ghost use Rattle.exo_effects.specs.PlainAccess.{plain_mode};

use exo_effects::Mode;
use exo_tree::Text;
use std::alloc::{AllocError, Global};

/// How a conflict of two accesses is written.
pub(crate) fn against(alloc: Global, first: &str, second: &str) -> Result<Text, AllocError>
    ensures { IfOk result (λ t. t ≡ first.now ++ (codes " against " ++ second.now)) }
{
    let mut made = String::from_str(alloc, first)?;
    made.push_str(" against ")?;
    made.push_str(second)?;
    Text::new(alloc, made.as_str())
}

/// Whether two accesses of one cell clash: not both read, and not both reduce.
pub(crate) fn modes_clash(first: Mode, second: Mode) -> bool
    ensures { result ≡ plain.modes_clash (plain_mode first) (plain_mode second) }
{
    match first {
        Mode::Read => match second {
            Mode::Read => false,
            Mode::Write => true,
            Mode::Reduce => true,
        },
        Mode::Write => true,
        Mode::Reduce => match second {
            Mode::Read => true,
            Mode::Write => true,
            Mode::Reduce => false,
        },
    }
}
