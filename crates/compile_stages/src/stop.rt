// Why the work on the texts stops, and what is said of it.
ghost use Rattle.std.specs.Prelude.{◌≡◌, IfOk, Some, option_map, string_bytes};
ghost use Rattle.compile_stages.specs.Kinds.{message};
ghost use Rattle.compile_stages.specs.Stopping.{plain, no_schedule};

use crate::kinds::{check_text, kind_text, memory_text, rule_text};
use crate::messages;
use crate::why::{open_text, why_text};
use affine_prover::Verdict;
use bounds_check::CheckError;
use exo_reader::unit::{ReadError, ReadKind};
use exo_tree::{Name, Text};
use memory_kinds::KindError;
use rules_names::error::{TypeError, TypeKind};
use schedule_run::Why;
use std::alloc::{AllocError, Global};

/// Why the work on the texts stopped, in the order of its stages.
pub enum Stop {
    /// There was no memory.
    Memory,
    /// The text is no unit; never for want of memory.
    Unread(ReadError),
    /// The unit breaks a rule; never for want of memory.
    Broken(TypeError),
    /// What a procedure owes can't be listed: the line of its `def`, and why.
    NotListed(u32, CheckError),
    /// What is owed at a line is not shown: the claim, and the verdict on it.
    NotShown(u32, Text, Verdict),
    /// The text is no schedule; never for want of memory.
    NoSchedule(ReadError),
    /// A line of the schedule is refused: its number, its operator and why; never for want of memory.
    AtLine(u32, Name, Why),
    /// The name holds no version.
    NoVersion(Name),
    /// This printed procedure breaks a rule on memories.
    WrongMemory(Name, KindError),
    /// In the tree of this procedure a number may become too large.
    TooWide(Name),
    /// C cannot keep this name of a function or field.
    NameClash(Name),
}

impl Drop for Stop {
    fn drop(self) {
        match self {
            Self::Memory
            | Self::Unread(_)
            | Self::Broken(_)
            | Self::NotListed(_, _)
            | Self::NotShown(_, _, _)
            | Self::NoSchedule(_)
            | Self::AtLine(_, _, _)
            | Self::NoVersion(_)
            | Self::WrongMemory(_, _)
            | Self::TooWide(_)
            | Self::NameClash(_) => {}
        }
    }
}

impl From<AllocError> for Stop {
    ghost use Rattle.std.specs.Prelude.{◌≡◌};
    ghost use Rattle.compile_stages.specs.declared.stop.Stop.TheVariants.{Memory};

    ghost from_gives = { λ _ stop. stop ≡ Memory };

    fn from(_error: AllocError) -> Stop {
        Stop::Memory
    }
}

impl From<ReadError> for Stop {
    ghost use Rattle.std.specs.Prelude.{◌≡◌};
    ghost use Rattle.compile_stages.specs.Stopping.{unread};

    ghost from_gives = { λ e stop. stop ≡ unread e e.kind };

    fn from(e: ReadError) -> Stop {
        match e.kind {
            ReadKind::Memory => Stop::Memory,
            _ => Stop::Unread(e),
        }
    }
}

impl From<TypeError> for Stop {
    ghost use Rattle.std.specs.Prelude.{◌≡◌};
    ghost use Rattle.compile_stages.specs.Stopping.{broken};

    ghost from_gives = { λ e stop. stop ≡ broken e e.kind };

    fn from(e: TypeError) -> Stop {
        match e.kind {
            TypeKind::Memory => Stop::Memory,
            _ => Stop::Broken(e),
        }
    }
}

/// The stop where a text is no schedule.
pub(crate) fn no_schedule(e: ReadError) -> Stop
    ensures { result ≡ no_schedule e e.kind }
{
    match e.kind {
        ReadKind::Memory => Stop::Memory,
        _ => Stop::NoSchedule(e),
    }
}

impl Stop {
    /// The message, by the names of the files of the unit and of the schedule; none for want of memory.
    pub fn message(&self, alloc: Global, procs: &str, schedule: &str) -> Result<String, AllocError>
        ensures { IfOk result (λ text. option_map (message procs.now schedule.now) (plain self.now) ≡ Some (string_bytes text)) }
    {
        match self {
            Stop::Memory => Err(AllocError),
            Stop::Unread(e) => {
                messages::place_refused(alloc, procs, e.line, e.column, kind_text(e.kind))
            }
            Stop::Broken(e) => {
                messages::place_refused(alloc, procs, e.line, e.column, rule_text(e.kind))
            }
            Stop::NotListed(line, e) => {
                messages::unit_refused(alloc, procs, *line, check_text(*e))
            }
            Stop::NotShown(line, what, verdict) => {
                let why = open_text(alloc, what, *verdict)?;
                messages::unit_refused(alloc, procs, *line, &why)
            }
            Stop::NoSchedule(e) => {
                messages::place_refused(alloc, schedule, e.line, e.column, kind_text(e.kind))
            }
            Stop::AtLine(number, operator, why) => {
                let why = why_text(alloc, why)?;
                messages::line_refused(alloc, schedule, *number, operator.as_str(), &why)
            }
            Stop::NoVersion(name) => messages::refused(alloc, name.as_str(), "UnknownProc"),
            Stop::WrongMemory(name, rule) => {
                messages::name_refused(alloc, procs, name.as_str(), memory_text(*rule))
            }
            Stop::TooWide(name) => {
                messages::name_refused(alloc, procs, name.as_str(), "TooWide")
            }
            Stop::NameClash(name) => {
                messages::name_refused(alloc, procs, name.as_str(), "NameClash")
            }
        }
    }
}
