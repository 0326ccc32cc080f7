//! Runs the program on the cases of the files that `files` names, and prints where it answers
//! otherwise than they say.
//!
//! A file of cases begins with a free text. A case begins with a line `== NAME`, and its lines
//! follow:
//! - `$ exoc check u.py`: the words of the command, the first of them the program's name;
//! - `status 1`: the exit status that is wanted, if it is not 0;
//! - `fail read 1`, `fail put 0`, `fail err 0`: the second reading of a file fails, the first put
//!   to the standard output does, that to the standard error does;
//! - `room 5`, `pieces 2`: the standard output takes five bytes, or at most two bytes a call;
//! - `waits 0`: the first chunk of the first list of systems that has chunks waits until a second
//!   one has begun; `enters 3`: so many chunks are decided in the run;
//! - `--- u.py`: the lines from here to the next heading are a file of that name;
//! - `--- out`, `--- out ends`, `--- err`: so are the output, its end, and the message that are
//!   wanted, nothing where there is no heading;
//! - `--- changes 4`: each line is a row of changes of the first file, from its line 4 on (module
//!   changes); `--- err late`: the message that the word `late` of such a row stands for.
//!
//! In a file, an output or a message, `\n`, `\r`, `\t`, `\x80` and `\\` stand for a byte, a
//! backslash at the end of a line for no line end, and `\<3 ab\>` for `ababab`. Each other byte
//! stands for itself.
#![tactic(auto)]

mod case;
mod change;
mod changes;
mod pieces;
mod run;
mod text;
mod watching;

use crate::case::Case;
use crate::changes::Sweep;
use crate::run::has_left;
use exo_cli::{DiskFiles, Files};
use std::alloc::AllocError;
use std::io;
use std::thread::Threads;

/// The most bytes of a file of cases.
const LIMIT: usize = 1 << 24;

/// How many cases there were, and where the program did not answer as they say.
#[derive(Drop)]
struct Report {
    text: String,
    count: u32,
}

/// The rows of changes of a case, and the line where they begin.
fn rows_of(case: &Case) -> Option<(&str, u32)> {
    for part in &case.parts {
        if let Some(line) = part.heading.strip_prefix("changes ") {
            let rows = str::from_utf8(part.text.bytes()).ok()?;
            return Some((rows, line.parse::<u32>().ok()?));
        }
    }
    None
}

/// Runs the rows of changes of a case, if it has any.
fn run_rows<R: Threads + Sync + AllocGlobal>(
    rt: &R,
    case: &Case,
    report: &mut String,
) -> Result<(), AllocError> {
    let Some((rows, line)) = rows_of(case) else {
        return Ok(());
    };
    let sweep = Sweep::new(case)?;
    for row in rows.lines() {
        sweep.run_row(rt, row, line, report)?;
    }
    Ok(())
}

/// Adds to the report what is otherwise than the case says.
fn push_differences<R: Threads + Sync + AllocGlobal>(
    rt: &R,
    case: &Case,
    report: &mut String,
) -> Result<(), AllocError> {
    if !case.is_clear {
        report.push_str(" a line that no case has")?;
    }
    let wanted = case.wanted()?;
    has_left(rt, case, None, &wanted, report)?;
    run_rows(rt, case, report)
}

/// Runs a case of a file.
fn run_case<R: Threads + Sync + AllocGlobal>(
    rt: &R,
    file: &str,
    case: &Case,
    report: &mut Report,
) -> Result<(), AllocError> {
    report.count = report.count.saturating_add(1);
    let mut found = String::new(rt.alloc());
    push_differences(rt, case, &mut found)?;
    if found.is_empty() {
        return Ok(());
    }
    let name = case.name.as_str();
    let line = format!(in rt.alloc(); "{file}: {name}:{found}\n")?;
    report.text.push_str(&line)
}

/// Runs the cases of a file.
fn run_cases<R: Threads + Sync + AllocGlobal>(
    rt: &R,
    file: &str,
    text: &str,
    case: &mut Case,
    report: &mut Report,
) -> Result<(), AllocError> {
    for line in text.lines() {
        if let Some(name) = line.strip_prefix("== ") {
            if case.has_begun {
                run_case(rt, file, case, report)?;
            }
            case.begin(name)?;
        } else if case.has_begun {
            case.push_line(line)?;
        }
    }
    if case.has_begun {
        run_case(rt, file, case, report)?;
    }
    Ok(())
}

/// Runs the cases of a file with these bytes.
fn run_bytes<R: Threads + Sync + AllocGlobal>(
    rt: &R,
    file: &str,
    bytes: &[u8],
    report: &mut Report,
) -> Result<(), AllocError> {
    match str::from_utf8(bytes) {
        Ok(text) => {
            let mut case = Case::new(rt.alloc());
            run_cases(rt, file, text, &mut case, report)
        }
        Err(_) => report.text.push_str("a file is no text\n"),
    }
}

/// Runs the cases of the files that are named, one a line.
fn run_files<R: Threads + Sync + AllocGlobal, F: Files>(
    rt: &R,
    files: &mut F,
    names: &str,
    bytes: &mut Vec<u8>,
    report: &mut Report,
) -> Result<(), AllocError> {
    for name in names.lines() {
        match files.read_file(name, LIMIT, bytes) {
            Ok(()) => run_bytes(rt, name, bytes, report)?,
            Err(_) => report.text.push_str("a file is not read\n")?,
        }
    }
    Ok(())
}

/// Runs the cases of the files that `files` names.
fn run_all<R: Threads + Sync + AllocGlobal, F: Files>(
    rt: &R,
    files: &mut F,
    report: &mut Report,
) -> Result<(), AllocError> {
    let mut names = Vec::new(rt.alloc());
    let is_read = files.read_file("files", LIMIT, &mut names).is_ok();
    let mut bytes = Vec::new(rt.alloc());
    match str::from_utf8(&names) {
        Ok(names) if is_read => run_files(rt, files, names, &mut bytes, report),
        _ => report.text.push_str("the list of files is not read\n"),
    }
}

fn main(rt: HostRuntime) -> io::Result<()> {
    let mut report = Report {
        text: String::new(rt.alloc()),
        count: 0,
    };
    run_all(&rt, &mut DiskFiles::new(rt), &mut report)?;
    print!(rt; "{}", report.text)?;
    println!(rt; "{} cases", report.count)
}
