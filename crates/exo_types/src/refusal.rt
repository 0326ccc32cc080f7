//! Why a part of a unit is refused.
ghost use Rattle.std.specs.Prelude.{◌≡◌, MatchResult, None};
ghost use Rattle.rules_names.specs.declared.error.TypeKind.TheVariants.{UnknownName};
ghost use Rattle.rules_names.specs.Faults.{fault, least};
ghost use Rattle.exo_types.specs.Refusals.{Refuses};

use rules_names::error::{TypeError, TypeKind};
use rules_names::fault::{Charge, Fault};
use std::alloc::AllocError;

/// A rule is broken, or there was no memory.
#[derive(Clone, Copy)]
pub enum Refusal {
    Memory,
    Broken(Fault),
}

impl From<AllocError> for Refusal {
    ghost use Rattle.std.specs.Prelude.{◌≡◌};
    ghost use Rattle.exo_types.specs.declared.refusal.Refusal.TheVariants.{Memory};

    ghost from_gives = { λ _ e. e ≡ Memory };

    fn from(_error: AllocError) -> Refusal {
        Refusal::Memory
    }
}

/// Refuses what breaks a rule.
pub fn keep(charge: Charge) -> Result<(), Refusal>
    ensures { MatchResult result (λ x. charge.first ≡ None) (λ e. Refuses e charge.first) }
{
    match charge.first {
        None => Ok(()),
        Some(fault) => Err(Refusal::Broken(fault)),
    }
}

/// Refuses a name at a token that stands for nothing.
pub fn unknown_name(token: usize) -> Refusal
    ensures { Refuses result (least (fault UnknownName token)) }
{
    Refusal::Broken(Fault {
        token,
        rule: TypeKind::UnknownName,
    })
}

/// Want of memory.
pub fn no_memory() -> TypeError
    ensures { result.kind ≡ TypeKind.Memory }
{
    TypeError {
        line: 0,
        column: 0,
        kind: TypeKind::Memory,
    }
}
