// A sink that takes little a call.
use exo_cli::{Failed, MemSink, Sink};

/// A sink that takes at most so many bytes a call, and at least one.
#[derive(Drop)]
pub struct Pieces {
    pub sink: MemSink,
    pub most: usize,
}

impl Sink for Pieces {
    ghost taken = { λ s. ⟦<MemSink as Sink>⟧.taken s.sink };

    ghost faults = { λ s. ⟦<MemSink as Sink>⟧.faults s.sink };

    fn put(&mut self, piece: &[u8]) -> Result<usize, Failed> {
        let count = self.most.max(1).min(piece.len());
        self.sink.put(&piece[..count])
    }
}
