// Files and a sink in memory, which tell their content and fail when they are told to.
ghost use Rattle.std.specs.Prelude.{◌≡◌, ◌≢◌, ◌≤◌, ◌<◌, ◌-◌, ◌⊎◌, [], List, ℕ, Some, None, length};
ghost use Rattle.std.specs.Prelude.{map, option_map, string_bytes, vec_len, vec_capacity, IfOk};
ghost use Rattle.std.specs.Prelude.{OnOk, OnErr, IsErrOf, Err, ◌++◌, take};
ghost use Rattle.std.specs.Option.{option_copied};
ghost use Rattle.std.specs.Result.{result_ok, result_err};
ghost use Rattle.exo_cli.specs.Outside.Outside.{IsLonger, Rose, content_of, counted, with_more};
ghost use Rattle.exo_cli.specs.Outside.Memory.{folder_of, is_to_fail, put_count, read_fault};
ghost use Rattle.exo_cli.specs.declared.outside.outside.FileFault.TheVariants.{Memory};

use crate::outside::count::{Count, Plan};
use crate::outside::outside::{Failed, FileFault, Files, Sink};
use std::alloc::{AllocError, Global};

impl From<AllocError> for FileFault {
    ghost from_gives = { λ _ e. e ≡ Memory };

    fn from(_error: AllocError) -> Self {
        FileFault::Memory
    }
}

/// Files in memory. The calls whose numbers are listed fail.
#[derive(Drop)]
pub struct MemFiles {
    files: Vec<(String, Vec<u8>)>,
    plan: Plan,
    last: Option<String>,
}

impl MemFiles {
    /// Files with these names and bytes, whose names differ. The calls of `read_file` whose
    /// numbers, from 0, are in `fail` fail.
    pub fn new(files: Vec<(String, Vec<u8>)>, fail: Vec<u64>) -> MemFiles
        ensures told { ⟦<MemFiles as Files>⟧.told result ≡ Some (folder_of files.items) }
        ensures fail { result.plan.fail ≡ fail }
        ensures calls { result.plan.calls.0 ≡ 0 }
        ensures faults { ⟦<MemFiles as Files>⟧.faults result ≡ 0 }
        ensures last_fault { ⟦<MemFiles as Files>⟧.last_fault result ≡ None }
    {
        MemFiles {
            files,
            plan: Plan::new(fail),
            last: None,
        }
    }

    fn failed(&mut self, name: String) -> FileFault
        ensures answer { result ≡ FileFault.Failed }
        ensures files { self.new.files ≡ self.old.files }
        ensures fail { self.new.plan.fail ≡ self.old.plan.fail }
        ensures calls { self.new.plan.calls ≡ self.old.plan.calls }
        ensures last { self.new.last ≡ Some name }
        ensures counted { self.new.plan.faults.0 ≡ counted self.old.plan.faults.0 }
        ensures never_falls { self.old.plan.faults.0 ≤ self.new.plan.faults.0 }
    {
        self.plan.faults.add_one();
        self.last = Some(name);
        FileFault::Failed
    }
}

impl Files for MemFiles {
    ghost told = { λ m. Some (folder_of m.files.items) };

    ghost faults = { λ m. m.plan.faults.0 };

    ghost last_fault = { λ m. option_map string_bytes m.last };

    /// Fails where the call is listed, there is no such file or memory runs out, and else reads
    /// what is not too long.
    fn read_file(&mut self, name: &str, limit: usize, into: &mut Vec<u8>) -> Result<(), FileFault>
        ensures whole { OnOk result
            (content_of (folder_of self.old.files.items) name.now ≡ Some into.new.items) }
        ensures within { OnOk result (vec_len into.new ≤ limit) }
        ensures empty { OnErr result (into.new.items ≡ []) }
        ensures same { self.new.files ≡ self.old.files }
        ensures count { self.old.plan.faults.0 ≤ self.new.plan.faults.0 }
        ensures failed { IsErrOf result FileFault.Failed
            → Rose self.old.plan.faults.0 self.new.plan.faults.0 }
        ensures named { IsErrOf result FileFault.Failed
            → option_map string_bytes self.new.last ≡ Some name.now }
        ensures too_long { IsErrOf result FileFault.TooLong
            → IsLonger (Some (folder_of self.old.files.items)) name.now limit }
        ensures answer { (result ≡ Err FileFault.Memory)
            ⊎ (result_err result
            ≡ read_fault (is_to_fail self.old.plan)
            (content_of (folder_of self.old.files.items) name.now) limit) }
        ensures fail { self.new.plan.fail ≡ self.old.plan.fail }
        ensures calls { self.new.plan.calls.0 ≡ counted self.old.plan.calls.0 }
        ensures faults { result ≢ Err FileFault.Failed
            → self.new.plan.faults ≡ self.old.plan.faults }
    {
        into.clear();
        let fails = self.plan.next_fails();
        let asked = String::from_str(*into.allocator(), name)?;
        if fails {
            return Err(self.failed(asked));
        }
        let Some(bytes) = find_file(&self.files, name) else {
            return Err(self.failed(asked));
        };
        if bytes.len() > limit {
            return Err(FileFault::TooLong);
        }
        into.extend_from_slice(bytes)?;
        Ok(())
    }
}

/// The bytes of the first file of that name.
fn find_file<'a>(files: &'a [(String, Vec<u8>)], name: &str) -> Option<&'a Vec<u8>>
    ensures { option_map (λ bytes. bytes.items) (option_copied result)
        ≡ content_of (folder_of files.now) name.now }
{
    for file in files {
        if file.0.as_str() == name {
            return Some(&file.1);
        }
    }
    None
}

/// A sink in memory with room for a number of bytes. The calls whose numbers are listed fail, and
/// so does each call once the room is full.
#[derive(Drop)]
pub struct MemSink {
    bytes: Vec<u8>,
    room: usize,
    plan: Plan,
    ghost reserved: { room ≤ vec_capacity bytes },
    ghost within: { vec_len bytes ≤ room },
}

impl MemSink {
    /// An empty sink with this room, in bytes, which it reserves. The calls of `put` whose numbers,
    /// from 0, are in `fail` fail.
    pub fn new(alloc: Global, fail: Vec<u64>, room: usize) -> Result<MemSink, AllocError>
        ensures taken { IfOk result (λ sink. ⟦<MemSink as Sink>⟧.taken sink ≡ Some []) }
        ensures fail { IfOk result (λ sink. sink.plan.fail ≡ fail) }
        ensures calls { IfOk result (λ sink. sink.plan.calls.0 ≡ 0) }
        ensures room { IfOk result (λ sink. sink.room ≡ room) }
        ensures faults { IfOk result (λ sink. ⟦<MemSink as Sink>⟧.faults sink ≡ 0) }
    {
        Ok(MemSink {
            bytes: Vec::with_capacity(alloc, room)?,
            room,
            plan: Plan::new(fail),
        })
    }

    /// The bytes taken so far.
    pub fn bytes(&self) -> &[u8]
        ensures { ⟦<MemSink as Sink>⟧.taken self.now ≡ Some result.now }
    {
        &self.bytes
    }
}

impl Sink for MemSink {
    ghost taken = { λ s. Some s.bytes.items };

    ghost faults = { λ s. s.plan.faults.0 };

    /// Takes as much of the piece as there is room for, and fails where the call is listed or the
    /// room is full.
    fn put(&mut self, piece: &[u8]) -> Result<usize, Failed>
        requires { 0 < length piece.now }
        ensures some { IfOk result (λ k. 0 < k) }
        ensures within { IfOk result (λ k. k ≤ length piece.now) }
        ensures taken { IfOk result
            (λ k. self.new.bytes.items ≡ self.old.bytes.items ++ take k piece.now) }
        ensures nothing { OnErr result (self.new.bytes.items ≡ self.old.bytes.items) }
        ensures count { self.old.plan.faults.0 ≤ self.new.plan.faults.0 }
        ensures cause { OnErr result (Rose self.old.plan.faults.0 self.new.plan.faults.0) }
        ensures answer { result_ok result ≡ put_count (is_to_fail self.old.plan)
            (self.old.room - vec_len self.old.bytes) (length piece.now) }
        ensures fail { self.new.plan.fail ≡ self.old.plan.fail }
        ensures calls { self.new.plan.calls.0 ≡ counted self.old.plan.calls.0 }
        ensures room { self.new.room ≡ self.old.room }
    {
        let fails = self.plan.next_fails();
        let left = self.room - self.bytes.len();
        if fails || left == 0 {
            self.plan.faults.add_one();
            return Err(Failed);
        }
        let count = left.min(piece.len());
        self.bytes.extend_from_slice(&piece[..count]).unwrap();
        Ok(count)
    }
}
