// The world outside the program, as its contracts may speak of it: files that are read by name, and sinks that
// take bytes. What a file holds and what a sink took may be told or not; that something failed is always counted.
ghost use Rattle.std.specs.Prelude.{◌≡◌, ◌<◌, ◌≤◌, ℕ, List, [], Option, length, take, vec_len, IfOk, OnOk, OnErr, IsErrOf, OnSome};
ghost use Rattle.exo_cli.specs.Outside.Outside.{Folder, HasBytes, IsLonger, Rose, with_more};
ghost use Rattle.exo_cli.specs.Outside.Outside.{StopsWithin};

/// Why a file was not read.
#[derive(Clone, Copy, PartialEq, Eq)]
pub enum FileFault {
    /// The outside failed, or there is no file of that name.
    Failed,
    /// The file has more bytes than the limit.
    TooLong,
    /// Memory ran out.
    Memory,
}

/// Files that are read by name.
pub trait Files {
    /// The files, where they are told.
    ghost told: { Self → Option Folder };

    /// How many faults there were: a number of 64 bits that stays at the greatest one.
    ghost faults: { Self → ℕ };

    /// The name that was asked at the last fault, where there was one.
    ghost last_fault: { Self → Option (List ℕ) };

    /// Reads all bytes of the file of that name, at most `limit` of them. After an error `into` is empty.
    fn read_file(&mut self, name: &str, limit: usize, into: &mut Vec<u8>) -> Result<(), FileFault>
        ensures whole { OnOk result (HasBytes (told self.old) name.now into.new.items) }
        ensures within { OnOk result (vec_len into.new ≤ limit) }
        ensures empty { OnErr result (into.new.items ≡ []) }
        ensures same { told self.new ≡ told self.old }
        ensures count { faults self.old ≤ faults self.new }
        ensures failed { IsErrOf result FileFault.Failed → Rose (faults self.old) (faults self.new) }
        ensures named { IsErrOf result FileFault.Failed → last_fault self.new ≡ Some name.now }
        ensures too_long { IsErrOf result FileFault.TooLong → IsLonger (told self.old) name.now limit };
}

/// A sink failed, and took nothing.
#[derive(Clone, Copy, PartialEq, Eq)]
pub struct Failed;

/// What takes bytes in pieces.
pub trait Sink {
    /// The bytes taken so far, where they are told.
    ghost taken: { Self → Option (List ℕ) };

    /// How many faults there were: a number of 64 bits that stays at the greatest one.
    ghost faults: { Self → ℕ };

    /// Takes some first bytes of the piece, at least one, and says how many.
    fn put(&mut self, piece: &[u8]) -> Result<usize, Failed>
        requires { 0 < length piece.now }
        ensures some { IfOk result (λ k. 0 < k) }
        ensures within { IfOk result (λ k. k ≤ length piece.now) }
        ensures taken { IfOk result (λ k. taken self.new ≡ with_more (taken self.old) (take k piece.now)) }
        ensures nothing { OnErr result (taken self.new ≡ taken self.old) }
        ensures count { faults self.old ≤ faults self.new }
        ensures cause { OnErr result (Rose (faults self.old) (faults self.new)) };
}

/// Puts all the bytes, piece by piece. At an error the sink took a proper prefix of them.
pub fn write_all<S: Sink>(sink: &mut S, bytes: &[u8]) -> Result<(), Failed>
    ensures all { OnOk result (S.taken sink.new ≡ with_more (S.taken sink.old) bytes.now) }
    ensures part { OnErr result (StopsWithin (S.taken sink.old) (S.taken sink.new) bytes.now) }
    ensures count { S.faults sink.old ≤ S.faults sink.new }
    ensures cause { OnErr result (Rose (S.faults sink.old) (S.faults sink.new)) }
{
    let mut done = 0usize;
    while done < bytes.len() {
        let count = sink.put(&bytes[done..])?;
        done += count;
    }
    Ok(())
}
