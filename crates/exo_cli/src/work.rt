// The order of the work: the words, the files, what their texts give, and then what is written.
ghost use Rattle.std.specs.Prelude.{◌≡◌, ◌≤◌, ℕ, IfOk, IfSome, List, MatchResult, Option, length};
ghost use Rattle.exo_cli.specs.Headline.{KeepsItsPromise};
ghost use Rattle.exo_cli.specs.Outside.Outside.{Folder, HasBytes};
ghost use Rattle.exo_cli.specs.Words.{Compile, Check, Show, Gen, texts};
ghost use Rattle.exo_cli.specs.Replies.{plain};
ghost use Rattle.exo_cli.specs.Work.{Ends, EndsAt, IsAnswer, IsAnswerTo, file_limit};

use crate::messages;
use crate::outside::{FileFault, Files, Sink};
use crate::reply::{Reply, replied};
use crate::status::Status;
use crate::words::{Command, read_command};
use compile_stages::laws::{
    checked_is_counted, compiled_is_promised, displayed_is_promised, generated_is_promised,
};
use compile_stages::{checked, compiled, displayed, generated};
use ob_check::Gate;
use std::alloc::{AllocError, Global};
use std::thread::Threads;

/// The most bytes that a file may have.
const FILE_LIMIT: usize = 1 << 20;

/// Does what the words ask, with `words[0]` the program's name: it reads the files that they name, puts the result
/// to `out` or a message to `err`, and says how that ended. All is read and made before anything is written.
pub fn exoc<R: Threads + Sync, F: Files, O: Sink, E: Sink, G: Gate>(
    rt: &R,
    alloc: Global,
    words: &[String],
    files: &mut F,
    out: &mut O,
    err: &mut E,
    gate: &G,
) -> Status
    ensures ends { Ends (texts words.now)
        (record {
          told = F.told files.old;
          faults = F.faults files.old;
          last_fault = F.last_fault files.old;
          out = O.taken out.old;
          out_faults = O.faults out.old;
          err = E.taken err.old;
          err_faults = E.faults err.old;
        })
        (record {
          told = F.told files.new;
          faults = F.faults files.new;
          last_fault = F.last_fault files.new;
          out = O.taken out.new;
          out_faults = O.faults out.new;
          err = E.taken err.new;
          err_faults = E.faults err.new;
        })
        result }
    ensures promise { result ≡ Status.Ok → IfSome (F.told files.old) (λ folder.
        KeepsItsPromise (texts words.now) folder (O.taken out.old) (O.taken out.new)) }
{
    compiled_is_promised();
    displayed_is_promised();
    generated_is_promised();
    checked_is_counted();
    match reply_to(rt, alloc, words, files, gate) {
        Ok(reply) => reply.deliver(out, err),
        Err(_) => Status::Memory,
    }
}

/// What is replied to the words.
fn reply_to<R: Threads + Sync, F: Files, G: Gate>(
    rt: &R,
    alloc: Global,
    words: &[String],
    files: &mut F,
    gate: &G,
) -> Result<Reply, AllocError>
    ensures answer { IfOk result (λ reply. IsAnswer (texts words.now) (F.told files.old) (F.faults files.old) (F.faults files.new)
        (F.last_fault files.new) (plain reply)) }
    ensures same { F.told files.new ≡ F.told files.old }
    ensures count { F.faults files.old ≤ F.faults files.new }
{
    match read_command(words) {
        Some(Command::Compile(procs, schedule)) => {
            compile_files(rt, alloc, procs, schedule, files, gate)
        }
        Some(Command::Check(procs)) => check_file(rt, alloc, procs, files, gate),
        Some(Command::Show(procs, schedule, name)) => {
            show_version(rt, alloc, procs, schedule, name, files, gate)
        }
        Some(Command::Gen(n)) => generate(rt, alloc, n, gate),
        None => Ok(Reply::Misused(messages::usage(alloc)?)),
    }
}

/// What is replied to the command to compile these files.
fn compile_files<R: Threads + Sync, F: Files, G: Gate>(
    rt: &R,
    alloc: Global,
    procs: &str,
    schedule: &str,
    files: &mut F,
    gate: &G,
) -> Result<Reply, AllocError>
    ensures answer { IfOk result (λ reply. IsAnswerTo (Compile procs.now schedule.now) (F.told files.old) (F.faults files.old)
        (F.faults files.new) (F.last_fault files.new) (plain reply)) }
    ensures same { F.told files.new ≡ F.told files.old }
    ensures count { F.faults files.old ≤ F.faults files.new }
{
    let unit = match read_text(alloc, files, procs)? {
        Ok(text) => text,
        Err(reply) => return Ok(reply),
    };
    let lines = match read_text(alloc, files, schedule)? {
        Ok(text) => text,
        Err(reply) => return Ok(reply),
    };
    replied(
        alloc,
        procs,
        schedule,
        compiled(rt, alloc, &unit, &lines, gate),
    )
}

/// What is replied to the command to show a version that these files make.
fn show_version<R: Threads + Sync, F: Files, G: Gate>(
    rt: &R,
    alloc: Global,
    procs: &str,
    schedule: &str,
    name: &str,
    files: &mut F,
    gate: &G,
) -> Result<Reply, AllocError>
    ensures answer { IfOk result (λ reply. IsAnswerTo (Show procs.now schedule.now name.now) (F.told files.old) (F.faults files.old)
        (F.faults files.new) (F.last_fault files.new) (plain reply)) }
    ensures same { F.told files.new ≡ F.told files.old }
    ensures count { F.faults files.old ≤ F.faults files.new }
{
    let unit = match read_text(alloc, files, procs)? {
        Ok(text) => text,
        Err(reply) => return Ok(reply),
    };
    let lines = match read_text(alloc, files, schedule)? {
        Ok(text) => text,
        Err(reply) => return Ok(reply),
    };
    replied(
        alloc,
        procs,
        schedule,
        displayed(rt, alloc, &unit, &lines, name, gate),
    )
}

/// What is replied to the command to compile the texts of this number, whatever the files hold.
fn generate<R: Threads + Sync, G: Gate>(
    rt: &R,
    alloc: Global,
    n: u32,
    gate: &G,
) -> Result<Reply, AllocError>
    ensures { IfOk result (λ reply.
        (told : Option Folder) (before after : ℕ) (last : Option (List ℕ))
        → IsAnswerTo (Gen n) told before after last (plain reply)) }
{
    replied(
        alloc,
        "gen-procs",
        "gen-schedule",
        generated(rt, alloc, n, gate),
    )
}

/// What is replied to the command to check this file.
fn check_file<R: Threads + Sync, F: Files, G: Gate>(
    rt: &R,
    alloc: Global,
    procs: &str,
    files: &mut F,
    gate: &G,
) -> Result<Reply, AllocError>
    ensures answer { IfOk result (λ reply. IsAnswerTo (Check procs.now) (F.told files.old) (F.faults files.old)
        (F.faults files.new) (F.last_fault files.new) (plain reply)) }
    ensures same { F.told files.new ≡ F.told files.old }
    ensures count { F.faults files.old ≤ F.faults files.new }
{
    let text = match read_text(alloc, files, procs)? {
        Ok(bytes) => bytes,
        Err(reply) => return Ok(reply),
    };
    replied(alloc, procs, "", checked(rt, alloc, &text, gate))
}

/// The bytes of the file, or the reply with which the work ends there.
fn read_text<F: Files>(
    alloc: Global,
    files: &mut F,
    name: &str,
) -> Result<Result<Vec<u8>, Reply>, AllocError>
    ensures read { IfOk result (λ read. MatchResult read
        (λ text. HasBytes (F.told files.old) name.now text.items × (length text.items ≤ file_limit))
        (λ reply. EndsAt (F.told files.old) (F.faults files.old) (F.faults files.new) (F.last_fault files.new) name.now (plain reply))) }
    ensures same { F.told files.new ≡ F.told files.old }
    ensures count { F.faults files.old ≤ F.faults files.new }
{
    let mut text = Vec::new(alloc);
    match files.read_file(name, FILE_LIMIT, &mut text) {
        Ok(()) => Ok(Ok(text)),
        Err(FileFault::Memory) => Err(AllocError),
        Err(FileFault::Failed) => {
            let message = messages::cannot_read(alloc, name)?;
            Ok(Err(Reply::Unread(message)))
        }
        Err(FileFault::TooLong) => {
            let message = messages::too_long(alloc, name)?;
            Ok(Err(Reply::Rejected(message)))
        }
    }
}
