// The last stages of a compilation: from what is to be printed to the text of the C.
ghost use Rattle.std.specs.Prelude.{◌≡◌, IfOk, IfSome, Some, map, slice_get, string_bytes};
ghost use Rattle.exo_tree.specs.PlainUnit.{program};
ghost use Rattle.exo_tree.specs.Named.{name_of};
ghost use Rattle.compile_stages.specs.Stops as stop;
ghost use Rattle.compile_stages.specs.Stages.{lowered_text, printed};
ghost use Rattle.compile_stages.specs.Stopping.{made_of, plain, stage, stop_of};

use crate::memories::{MemoryFault, memory_fault};
use crate::stop::Stop;
use c_printer::{LowerError, Printed, lower};
use c_tree::c_text;
use exo_tree::{Name, Unit};
use std::alloc::{AllocError, Global};

/// The text of the C of what is to be printed.
pub(crate) fn printed(alloc: Global, unit: &Unit, what: &[Printed]) -> Result<String, Stop>
    ensures { IfSome (stage string_bytes result) (λ s. s ≡ printed (made_of unit.now what.now)) }
{
    if let Some(fault) = memory_fault(unit, what) {
        return Err(not_kept(alloc, unit, fault)?);
    }
    lowered_text(alloc, unit, what)
}

/// The stop where what is printed breaks a rule on memories.
fn not_kept(alloc: Global, unit: &Unit, fault: MemoryFault) -> Result<Stop, AllocError>
    ensures { IfOk result (λ why. plain why ≡ Some (stop.WrongMemory (name_of (slice_get unit.now.procs fault.proc.0)) fault.rule)) }
{
    let name = Name::new(alloc, unit.name_of(fault.proc))?;
    Ok(Stop::WrongMemory(name, fault.rule))
}

/// The same of what keeps all rules on memories.
fn lowered_text(alloc: Global, unit: &Unit, what: &[Printed]) -> Result<String, Stop>
    ensures { IfSome (stage string_bytes result) (λ s. s ≡ lowered_text (made_of unit.now what.now)) }
{
    match lower(alloc, unit, what) {
        Ok(c) => Ok(c_text(alloc, &c)?),
        Err(e) => Err(not_lowered(alloc, unit, e)?),
    }
}

/// The stop where there is no C of what is printed.
fn not_lowered(alloc: Global, unit: &Unit, e: LowerError) -> Result<Stop, AllocError>
    ensures { IfOk result (λ why. plain why ≡ stop_of (program unit.now) e) }
{
    match e {
        LowerError::TooWide(k) => Ok(Stop::TooWide(Name::new(alloc, unit.name_of(k))?)),
        LowerError::NameClash(name) => Ok(Stop::NameClash(name)),
        LowerError::Memory => Err(AllocError),
    }
}
