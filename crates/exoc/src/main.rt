//! The compiler: its words are those of the command line.
#![tactic(auto)]

use exo_cli::{DiskFiles, Status, StdSink, exoc};
use ob_check::Free;
use std::env;
use std::io::ErrorKind;
use std::process::ExitCode;

/// The words of the command line; none, which are no command, where one is not UTF-8. None where there is no memory
/// for them.
fn words(rt: HostRuntime) -> Option<Vec<String>> {
    let mut words = Vec::new(rt.alloc());
    match env::args(&rt) {
        Ok(args) => {
            for word in args {
                words.push(word).ok()?;
            }
            Some(words)
        }
        Err(fault) => (fault.kind() == ErrorKind::InvalidData).then_some(words),
    }
}

fn main(rt: HostRuntime) -> ExitCode {
    let Some(words) = words(rt) else {
        return ExitCode::from(Status::Memory.number());
    };
    let mut files = DiskFiles::new(rt);
    let mut out = StdSink::new(rt.stdout());
    let mut err = StdSink::new(rt.stderr());
    let status = exoc(
        &rt,
        rt.alloc(),
        &words,
        &mut files,
        &mut out,
        &mut err,
        &Free,
    );
    ExitCode::from(status.number())
}
