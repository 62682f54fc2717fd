ghost use Rattle.std.specs.Prelude.{◌≡◌, false};

use crate::retrying;
use std::io::Read;
use std::marker::Model;
use txs_outside::{Got, Source};

/// A reader as a source, which tells none of its bytes.
#[derive(Drop)]
pub struct ReaderSource<R> {
    reader: R,
    at_end: bool,
    has_failed: bool,
    faults: u64,
}

impl<R> Model for ReaderSource<R> {
    ghost use Rattle.txs_adapters.specs.Edge.{ReaderState};

    ghost Value = { ReaderState };

    ghost view = { λ s. record { at_end = s.at_end; has_failed = s.has_failed; faults = s.faults } };
}

impl<R> ReaderSource<R> {
    pub fn new(reader: R) -> ReaderSource<R>
        ensures { result ≡ record { at_end = false; has_failed = false; faults = 0 } }
    {
        ReaderSource {
            reader,
            at_end: false,
            has_failed: false,
            faults: 0,
        }
    }
}

impl<R: Read> Source for ReaderSource<R> {
    ghost use Rattle.std.specs.Prelude.{None};

    ghost left = { λ _. None };

    ghost given = { λ _. None };

    ghost faults = { λ s. s.faults };

    ghost at_end = { λ s. s.at_end };

    ghost has_failed = { λ s. s.has_failed };

    fn read(&mut self, buf: &mut [u8]) -> Got {
        self.at_end = false;
        self.has_failed = false;
        match retrying::read(&mut self.reader, buf) {
            Ok(0) => {
                self.at_end = true;
                Got::End
            }
            Ok(len) => Got::Bytes { len },
            Err(_) => {
                self.has_failed = true;
                self.faults = self.faults.saturating_add(1);
                Got::Failed
            }
        }
    }

    fn finish(&mut self) {}
}
