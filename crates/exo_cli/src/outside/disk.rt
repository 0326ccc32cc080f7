// The trusted edge: files of the disk and a stream of the process. They tell no content, and count their failures.
ghost use Rattle.std.specs.Prelude.{◌≡◌, ◌≤◌, ℕ, Some, None, option_map, string_bytes, vec_len, OnOk};
ghost use Rattle.exo_cli.specs.Outside.Outside.{counted};

use crate::outside::count::Count;
use crate::outside::outside::{Failed, FileFault, Files, Sink};
use std::fs::File;
use std::io::{Read, Write};
use std::rt;

/// The files of the disk, by their paths.
#[derive(Drop)]
pub struct DiskFiles<R> {
    rt: R,
    faults: Count,
    last: Option<String>,
}

impl<R: rt::Files + Drop> DiskFiles<R> {
    /// The disk that this runtime reaches, with no fault so far.
    pub fn new(rt: R) -> DiskFiles<R>
        ensures faults { ⟦<DiskFiles<R> as Files>⟧.faults result ≡ 0 }
        ensures last_fault { ⟦<DiskFiles<R> as Files>⟧.last_fault result ≡ None }
    {
        DiskFiles {
            rt,
            faults: Count::NONE,
            last: None,
        }
    }
}

impl<R: rt::Files + Drop> Files for DiskFiles<R> {
    ghost told = { λ _. None };

    ghost faults = { λ d. d.faults.0 };

    ghost last_fault = { λ d. option_map string_bytes d.last };

    fn read_file(&mut self, name: &str, limit: usize, into: &mut Vec<u8>) -> Result<(), FileFault> {
        into.clear();
        let asked = String::from_str(*into.allocator(), name)?;
        let Err(fault) = read_all(&self.rt, name, limit, into) else {
            return Ok(());
        };
        into.clear();
        if fault == FileFault::Failed {
            self.faults.add_one();
            self.last = Some(asked);
        }
        Err(fault)
    }
}

/// Appends all bytes of the file, unless `into` would then hold more than `limit`.
fn read_all<R: rt::Files>(
    rt: &R,
    name: &str,
    limit: usize,
    into: &mut Vec<u8>,
) -> Result<(), FileFault>
    requires { vec_len into.old ≤ limit }
    ensures { vec_len into.new ≤ limit }
{
    let Ok(mut file) = File::open(rt, name) else {
        return Err(FileFault::Failed);
    };
    let mut piece = [0u8; 4096];
    for _ in 0..u64::MAX {
        let Ok(count) = file.read(&mut piece) else {
            return Err(FileFault::Failed);
        };
        if count == 0 {
            return Ok(());
        }
        if count > limit - into.len() {
            return Err(FileFault::TooLong);
        }
        into.extend_from_slice(&piece[..count])?;
    }
    Err(FileFault::Failed)
}

/// A stream of the process, as its standard output.
#[derive(Drop)]
pub struct StdSink<W> {
    stream: W,
    faults: Count,
}

impl<W: Write + Drop> StdSink<W> {
    /// That stream, with no fault so far.
    pub fn new(stream: W) -> StdSink<W>
        ensures { ⟦<StdSink<W> as Sink>⟧.faults result ≡ 0 }
    {
        StdSink {
            stream,
            faults: Count::NONE,
        }
    }
}

impl<W: Write + Drop> Sink for StdSink<W> {
    ghost taken = { λ _. None };

    ghost faults = { λ s. s.faults.0 };

    fn put(&mut self, piece: &[u8]) -> Result<usize, Failed> {
        match self.stream.write(piece) {
            Ok(count) if count > 0 => Ok(count),
            _ => {
                self.faults.add_one();
                Err(Failed)
            }
        }
    }
}
