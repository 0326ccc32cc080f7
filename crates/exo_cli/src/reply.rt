// What the program replies, and how it is delivered.
ghost use Rattle.std.specs.Prelude.{◌≡◌, ◌≢◌, ◌≤◌, ◌⊎◌, IfOk, Some, is_ok, if◌then◌else◌};
ghost use Rattle.std.specs.Prelude.{option_map, string_bytes};
ghost use Rattle.exo_cli.specs.Outside.Outside.{Rose, with_more, StopsWithin};
ghost use Rattle.exo_cli.specs.Answer.{answer_of, status_of, for_out, for_err};
ghost use Rattle.exo_cli.specs.Replies.{plain};
ghost use Rattle.compile_stages.specs.Stopping.{stage};

use crate::outside::{Failed, Sink, write_all};
use crate::status::Status;
use compile_stages::Stop;
use std::alloc::{AllocError, Global};

/// What the program replies.
#[derive(Drop)]
pub enum Reply {
    /// All was accepted: the text of the result.
    Accepted(String),
    /// A file was refused: the message.
    Rejected(String),
    /// A file could not be read: the message.
    Unread(String),
    /// The words are no command: the message.
    Misused(String),
}

impl Reply {
    /// Puts the text to `out`, or the message to `err`, and says how that ended.
    pub(crate) fn deliver<O: Sink, E: Sink>(&self, out: &mut O, err: &mut E) -> Status
        ensures status { result ≢ Status.WriteFault → result ≡ status_of (plain self.now) }
        ensures out { result ≢ Status.WriteFault
            → O.taken out.new ≡ with_more (O.taken out.old) (for_out (plain self.now)) }
        ensures err { result ≢ Status.WriteFault
            → E.taken err.new ≡ with_more (E.taken err.old) (for_err (plain self.now)) }
        ensures out_count { O.faults out.old ≤ O.faults out.new }
        ensures err_count { E.faults err.old ≤ E.faults err.new }
        ensures fault { result ≡ Status.WriteFault →
            (Rose (O.faults out.old) (O.faults out.new)
            × StopsWithin (O.taken out.old) (O.taken out.new) (for_out (plain self.now))
            × (E.taken err.new ≡ E.taken err.old))
            ⊎ (Rose (E.faults err.old) (E.faults err.new)
            × StopsWithin (E.taken err.old) (E.taken err.new) (for_err (plain self.now))
            × (O.taken out.new ≡ O.taken out.old)) }
    {
        match self {
            Reply::Accepted(text) => status_after(write_all(out, text.as_bytes()), Status::Ok),
            Reply::Rejected(message) => status_after(
                write_all(err, message.as_bytes()),
                Status::Refused,
            ),
            Reply::Unread(message) => status_after(
                write_all(err, message.as_bytes()),
                Status::ReadFault,
            ),
            Reply::Misused(message) => status_after(
                write_all(err, message.as_bytes()),
                Status::Usage,
            ),
        }
    }
}

/// The reply to what a command came to, by the names of the files of the unit and of the schedule.
pub(crate) fn replied(
    alloc: Global,
    procs: &str,
    schedule: &str,
    end: Result<String, Stop>,
) -> Result<Reply, AllocError>
    ensures { IfOk result
        (λ reply. option_map (answer_of procs.now schedule.now) (stage string_bytes end)
        ≡ Some (plain reply)) }
{
    match end {
        Ok(text) => Ok(Reply::Accepted(text)),
        Err(why) => Ok(Reply::Rejected(why.message(alloc, procs, schedule)?)),
    }
}

/// The status, if all was written.
fn status_after(written: Result<(), Failed>, status: Status) -> Status
    ensures { result ≡ (if is_ok written then status else Status.WriteFault) }
{
    match written {
        Ok(()) => status,
        Err(_) => Status::WriteFault,
    }
}
