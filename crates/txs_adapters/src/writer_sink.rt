ghost use Rattle.std.specs.Prelude.{◌≡◌, false, IfOk, ◌≤◌, length};

use crate::retrying;
use std::io::Write;
use std::marker::Model;
use txs_outside::{Failed, Sink};

/// A writer as a sink, which tells none of its bytes. What it takes has reached the other side.
#[derive(Drop)]
pub struct WriterSink<W> {
    writer: W,
    has_failed: bool,
    faults: u64,
}

impl<W> Model for WriterSink<W> {
    ghost use Rattle.txs_adapters.specs.Edge.{WriterState};

    ghost Value = { WriterState };

    ghost view = { λ k. record { has_failed = k.has_failed; faults = k.faults } };
}

impl<W> WriterSink<W> {
    pub fn new(writer: W) -> WriterSink<W>
        ensures { result ≡ record { has_failed = false; faults = 0 } }
    {
        WriterSink {
            writer,
            has_failed: false,
            faults: 0,
        }
    }
}

impl<W: Write> Sink for WriterSink<W> {
    ghost use Rattle.std.specs.Prelude.{None};

    ghost taken = { λ _. None };

    ghost faults = { λ k. k.faults };

    ghost has_failed = { λ k. k.has_failed };

    fn write(&mut self, bytes: &[u8]) -> Result<usize, Failed> {
        self.has_failed = false;
        match retrying::write(&mut self.writer, bytes) {
            Ok(count) if count > 0 && retrying::flush(&mut self.writer).is_ok() => Ok(count),
            _ => {
                self.has_failed = true;
                self.faults = self.faults.saturating_add(1);
                Err(Failed)
            }
        }
    }

    fn finish(&mut self) {}
}
