//! A gate that counts, and waits.
use ob_check::Gate;
use std::sync::atomic::{AtomicU64, Ordering};

/// The most turns that a wait takes.
const TURNS: u32 = 100_000_000;

/// Counts the calls. One call for a chunk 0 waits until a chunk 1 has entered.
#[derive(Drop)]
pub struct Watching {
    waits: u64,
    calls: AtomicU64,
    zeros: AtomicU64,
    ones: AtomicU64,
    gave_up: AtomicU64,
}

impl Watching {
    /// Of the calls for a chunk 0, that of this number waits, counted from 0.
    pub fn new(waits: u64) -> Watching {
        Watching {
            waits,
            calls: AtomicU64::new(0),
            zeros: AtomicU64::new(0),
            ones: AtomicU64::new(0),
            gave_up: AtomicU64::new(0),
        }
    }

    /// How many calls there were.
    pub fn entered(&self) -> u64 {
        self.calls.load(Ordering::SeqCst)
    }

    /// Whether the wait was given up.
    pub fn gave_up(&self) -> bool {
        self.gave_up.load(Ordering::SeqCst) > 0
    }

    /// Waits until a chunk 1 has entered.
    fn wait(&self) {
        for _ in 0..TURNS {
            if self.ones.load(Ordering::SeqCst) > 0 {
                return;
            }
        }
        self.gave_up.store(1, Ordering::SeqCst);
    }
}

impl Gate for Watching {
    fn enter(&self, chunk: usize) {
        self.calls.fetch_add(1, Ordering::SeqCst);
        if chunk == 1 {
            self.ones.fetch_add(1, Ordering::SeqCst);
        }
        if chunk == 0 && self.zeros.fetch_add(1, Ordering::SeqCst) == self.waits {
            self.wait();
        }
    }
}
