//! Values of fields on which the ends of two branches agree.
ghost use Rattle.std.specs.Prelude.{◌≡◌, ◌&&◌, Bool, IfOk};
ghost use Rattle.exo_tree.specs.PlainArgument.{argument};
ghost use Rattle.meaning_laws.specs.KnownFields.{same_path, same_value};
ghost use Rattle.affine_places.specs.Readings.{entry_reading};
ghost use Rattle.affine_places.specs.Seen.{roots_in};
ghost use Rattle.affine_places.specs.Agreement.{Tested};
ghost use Rattle.check_facts.specs.Contexts.{values_agree};
ghost use Rattle.check_facts.specs.Values.{plain_value};

use crate::value::{Right, Value};
use affine_forms::FormError;
use affine_places::{AtEntry, agree, conditions_agree};
use exo_tree::{Arg, Path};
use std::alloc::{AllocError, Global};

/// Whether two paths are the same.
pub fn is_same_path(p: &Path, q: &Path) -> bool
    ensures { result ≡ same_path p.now q.now }
{
    p.as_slice() == q.as_slice()
}

/// The answer of a test that fails where a form that it needs is too wide.
fn unless_wide(answer: Result<bool, FormError>) -> Result<bool, AllocError>
    ensures { (fits test : Bool) → Tested answer fits test → IfOk result (λ t. t ≡ (fits && test)) }
{
    match answer {
        Ok(same) => Ok(same),
        Err(FormError::WideNumber) => Ok(false),
        Err(_) => Err(AllocError),
    }
}

/// Whether two right sides agree: no, where a form that is compared is too wide.
fn rights_agree(
    alloc: Global,
    at: &AtEntry<'_, '_>,
    a: &Right<'_>,
    b: &Right<'_>,
) -> Result<bool, AllocError>
    ensures { IfOk result
        (λ t. t
        ≡ values_agree (entry_reading at.now.fields.now (roots_in at.now.roots.now))
        (argument a.now.side.now) (argument b.now.side.now)) }
{
    match a.side {
        Arg::Ctrl(x) => match b.side {
            Arg::Ctrl(y) => unless_wide(agree(alloc, at, x, y)),
            Arg::Cond(_) => Ok(false),
            Arg::Whole(_) => Ok(false),
            Arg::Window(_, _) => Ok(false),
        },
        Arg::Cond(c) => match b.side {
            Arg::Ctrl(_) => Ok(false),
            Arg::Cond(d) => unless_wide(conditions_agree(alloc, at, c, d)),
            Arg::Whole(_) => Ok(false),
            Arg::Window(_, _) => Ok(false),
        },
        Arg::Whole(_) => Ok(false),
        Arg::Window(_, _) => Ok(false),
    }
}

/// Whether what is known of a field at one end is what is known of it at the other.
pub(crate) fn is_same_value(
    alloc: Global,
    at: &AtEntry<'_, '_>,
    one: &Value<'_>,
    other: &Value<'_>,
) -> Result<bool, AllocError>
    ensures { IfOk result
        (λ t. t
        ≡ same_value (values_agree (entry_reading at.now.fields.now (roots_in at.now.roots.now)))
        (plain_value one.now) (plain_value other.now)) }
{
    match one {
        Value::Entry => match other {
            Value::Entry => Ok(true),
            Value::Written(_) => Ok(false),
            Value::Unknown(_) => Ok(false),
        },
        Value::Written(a) => match other {
            Value::Entry => Ok(false),
            Value::Written(b) => rights_agree(alloc, at, a, b),
            Value::Unknown(_) => Ok(false),
        },
        Value::Unknown(p) => match other {
            Value::Entry => Ok(false),
            Value::Written(_) => Ok(false),
            Value::Unknown(q) => Ok(is_same_path(p, q)),
        },
    }
}
