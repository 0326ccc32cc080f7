// Runs of the program on a case.
use crate::case::{Case, ROOM, Wanted};
use crate::pieces::Pieces;
use crate::watching::Watching;
use exo_cli::{MemFiles, MemSink, exoc};
use std::alloc::{AllocError, Global};
use std::thread::Threads;

/// What a run left: its status, what the two sinks took, how many chunks of systems were decided,
/// and whether one waited in vain.
#[derive(Drop)]
struct Outcome {
    status: u16,
    out: MemSink,
    err: MemSink,
    entered: u64,
    gave_up: bool,
}

impl Outcome {
    /// What is otherwise than it is wanted, the first of message, status, output and chunks.
    fn difference(&self, wanted: &Wanted) -> Option<&'static str> {
        let out = self.out.bytes();
        let is_same = if wanted.only_end {
            out.ends_with(&wanted.out)
        } else {
            out == wanted.out.as_slice()
        };
        if self.err.bytes() != wanted.err.as_slice() {
            return Some("message");
        }
        if self.status != wanted.status {
            return Some("status");
        }
        if !is_same {
            return Some("output");
        }
        self.chunk_difference(wanted)
    }

    /// What is otherwise of the chunks.
    fn chunk_difference(&self, wanted: &Wanted) -> Option<&'static str> {
        if self.gave_up {
            return Some("gave up");
        }
        match wanted.enters {
            Some(count) if count != self.entered => Some("enters"),
            _ => None,
        }
    }

    /// Adds to the report what is otherwise than it is wanted, and what came in its place.
    fn report(&self, alloc: Global, what: &str, report: &mut String) -> Result<(), AllocError> {
        let status = self.status;
        let entered = self.entered;
        let message = str::from_utf8(self.err.bytes()).unwrap_or("no text");
        report.push_str(&format!(in alloc; " {what}; status {status}, {entered} chunks {message}")?)
    }
}

/// Whether a part of a case is a file.
fn is_file(heading: &str) -> bool {
    heading != "out"
        && heading != "out ends"
        && heading != "err"
        && !heading.starts_with("err ")
        && !heading.starts_with("changes ")
}

/// Puts the files of a case into a list. Where bytes are given, the first file has these in place
/// of its own.
fn put_files(
    alloc: Global,
    case: &Case,
    first: Option<&[u8]>,
    files: &mut Vec<(String, Vec<u8>)>,
) -> Result<(), AllocError> {
    for part in &case.parts {
        if !is_file(part.heading.as_str()) {
            continue;
        }
        let bytes = match first {
            Some(bytes) if files.is_empty() => bytes,
            _ => part.text.bytes(),
        };
        let name = String::from_str(alloc, part.heading.as_str())?;
        files.push((name, bytes.to_vec(alloc)?))?;
    }
    Ok(())
}

/// The files of a case; `first` as above.
fn files_of(alloc: Global, case: &Case, first: Option<&[u8]>) -> Result<MemFiles, AllocError> {
    let mut list = Vec::new(alloc);
    put_files(alloc, case, first, &mut list)?;
    Ok(MemFiles::new(list, case.reads.to_vec(alloc)?))
}

/// Runs the program on the words and files of a case; `first` as above.
fn run<R: Threads + Sync + AllocGlobal>(
    rt: &R,
    case: &Case,
    first: Option<&[u8]>,
) -> Result<Outcome, AllocError> {
    let alloc = rt.alloc();
    let mut files = files_of(alloc, case, first)?;
    let mut out = Pieces {
        sink: MemSink::new(alloc, case.puts.to_vec(alloc)?, case.room)?,
        most: case.pieces,
    };
    let mut err = MemSink::new(alloc, case.err_puts.to_vec(alloc)?, ROOM)?;
    let gate = Watching::new(case.waits);
    let status = exoc(
        rt,
        alloc,
        &case.words,
        &mut files,
        &mut out,
        &mut err,
        &gate,
    );
    Ok(Outcome {
        status: u16::from(status.number()),
        out: out.sink,
        err,
        entered: gate.entered(),
        gave_up: gate.gave_up(),
    })
}

/// Runs the program on a case, and says whether it left what is wanted; else the report says what
/// it left. Where bytes are given, the first file has these in place of its own.
pub fn has_left<R: Threads + Sync + AllocGlobal>(
    rt: &R,
    case: &Case,
    first: Option<&[u8]>,
    wanted: &Wanted,
    report: &mut String,
) -> Result<bool, AllocError> {
    let outcome = run(rt, case, first)?;
    match outcome.difference(wanted) {
        Some(what) => {
            outcome.report(rt.alloc(), what, report)?;
            Ok(false)
        }
        None => Ok(true),
    }
}
