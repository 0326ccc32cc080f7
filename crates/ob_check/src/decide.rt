//! The verdicts on systems that no cache knows, each chunk of them in a thread.
ghost use Rattle.std.specs.Prelude.{◌≡◌, ◌<◌, map, flat_map, max, IfOk, IsOk, All};
ghost use Rattle.std.specs.Int.{div_ceil};
ghost use Rattle.affine_forms.specs.System.{plain_system};
ghost use Rattle.ob_check.specs.Systems.{system_known, known_in};

use crate::gate::Gate;
use crate::known::KnownSystem;
use affine_forms::System;
use affine_prover::verdict;
use std::alloc::{AllocError, Global};
use std::thread;
use std::thread::Threads;

/// How many systems a chunk has, but for the last one: a sixteenth of them, and at least 16, so that there are at most 16 chunks.
fn chunk_size(systems: usize) -> usize
    ensures { result ≡ max 16 (div_ceil systems 16) }
{
    systems.div_ceil(16).max(16)
}

/// Decides the systems of the chunk of that number.
fn decide_chunk<'a, G: Gate>(
    alloc: Global,
    chunk: &[&'a System],
    number: usize,
    gate: &G,
) -> Result<Vec<KnownSystem<'a>>, AllocError>
    ensures { IfOk result (λ v. map system_known v.items ≡ map (λ s. plain_system s.now) chunk.now) }
{
    gate.enter(number);
    let mut all = Vec::new(alloc);
    for system in chunk {
        let verdict = verdict(alloc, *system)?;
        all.push(KnownSystem {
            system: *system,
            verdict,
        })?;
    }
    Ok(all)
}

/// What the chunks gave, one after the other.
fn joined<'a>(
    alloc: Global,
    chunks: Vec<Result<Vec<KnownSystem<'a>>, AllocError>>,
) -> Result<Vec<KnownSystem<'a>>, AllocError>
    ensures joined { IfOk result (λ v. v.items ≡ flat_map known_in chunks.entry.items) }
    ensures all { IfOk result (λ _. All IsOk chunks.entry.items) }
{
    let mut all = Vec::new(alloc);
    for part in chunks {
        let mut more = part?;
        all.append(&mut more)?;
    }
    Ok(all)
}

/// Decides systems, each chunk in a thread of its own where one can be made.
pub(crate) fn decide_all<'a, R: Threads + Sync, G: Gate>(
    rt: &R,
    alloc: Global,
    systems: &[&'a System],
    gate: &G,
) -> Result<Vec<KnownSystem<'a>>, AllocError>
    ensures { IfOk result (λ v. map system_known v.items ≡ map (λ s. plain_system s.now) systems.now) }
{
    let size = chunk_size(systems.len());
    let chunks = thread::map_chunks(
        rt,
        alloc,
        systems,
        size,
        &|start, chunk|
            requires { 0 < size }
            ensures { IfOk result (λ v. map system_known v.items
                ≡ map (λ s. plain_system s.now) chunk.entry.now) }
        { decide_chunk(alloc, chunk, start / size, gate) },
    )?;
    joined(alloc, chunks)
}
