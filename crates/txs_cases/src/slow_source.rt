ghost use Rattle.std.specs.Prelude.{◌≡◌};

use std::marker::Model;
use txs_outside::{Got, MemSource, Source};

/// A source in memory that gives few bytes a read.
#[derive(Drop)]
pub struct SlowSource {
    inner: MemSource,
    most: usize,
}

impl Model for SlowSource {
    ghost use Rattle.txs_outside.specs.Memory.{MemSourceState};

    ghost Value = { MemSourceState };

    ghost view = { λ s. s.inner };
}

impl SlowSource {
    /// Gives at most so many bytes a read, and at least one.
    pub fn new(inner: MemSource, most: usize) -> SlowSource
        ensures { result ≡ inner }
    {
        SlowSource { inner, most }
    }
}

impl Source for SlowSource {
    ghost use Rattle.std.specs.Prelude.{Some};

    ghost left = { λ s. Some s.left };

    ghost given = { λ s. Some s.given };

    ghost faults = { λ s. s.faults };

    ghost at_end = { λ s. s.at_end };

    ghost has_failed = { λ s. s.has_failed };

    fn read(&mut self, buf: &mut [u8]) -> Got {
        let room = self.most.max(1).min(buf.len());
        self.inner.read(&mut buf[..room])
    }

    fn finish(&mut self) {}
}
