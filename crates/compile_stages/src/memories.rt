// Which of the printed procedures breaks a rule on memories.
ghost use Rattle.std.specs.Prelude.{◌≡◌, map, option_map};
ghost use Rattle.exo_tree.specs.PlainUnit.{program};
ghost use Rattle.c_printer.specs.PlainPrinted.{printing};
ghost use Rattle.compile_stages.specs.Printings.{memory_fault};
ghost use Rattle.compile_stages.specs.Stopping.{fault_in};

use c_printer::Printed;
use exo_tree::{ProcId, Unit};
use memory_kinds::{KindError, check_memories};

/// A procedure, and the first rule on memories that it breaks.
#[derive(Clone, Copy)]
pub(crate) struct MemoryFault {
    pub proc: ProcId,
    pub rule: KindError,
}

/// The first listed procedure that breaks a rule, with that rule.
pub(crate) fn memory_fault(unit: &Unit, what: &[Printed]) -> Option<MemoryFault>
    ensures { option_map fault_in result ≡ memory_fault (program unit.now) (map printing what.now) }
{
    for w in what {
        if let Err(rule) = check_memories(unit, w.proc) {
            return Some(MemoryFault { proc: w.proc, rule });
        }
    }
    None
}
