ghost use Rattle.std.specs.Prelude.{◌≡◌, ◌≤◌, ◌<◌, [], length, take, false};

use crate::{Got, Source};
use std::marker::Model;
use txs_values::Bytes;

/// A source over bytes in memory that never fails.
#[derive(Debug, Drop)]
pub struct SureSource {
    bytes: Bytes,
    at: usize,
    at_end: bool,
}

impl Model for SureSource {
    ghost use Rattle.std.specs.Prelude.{◌≤◌, length, take, drop};
    ghost use Rattle.txs_outside.specs.Memory.{SureSourceState};

    ghost Value = { SureSourceState };

    ghost view = { λ s. record { left = drop s.at s.bytes; given = take s.at s.bytes; at_end = s.at_end } };

    ghost invariant = { λ s. s.at ≤ length s.bytes };
}

impl SureSource {
    pub fn new(bytes: Bytes) -> SureSource
        ensures { result ≡ record { left = bytes; given = []; at_end = false } }
    {
        SureSource {
            bytes,
            at: 0,
            at_end: false,
        }
    }

    /// Makes it forget that its last read answered the end.
    pub(crate) fn forget_end(&mut self)
        ensures { self.new ≡ record self.old { at_end = false } }
    {
        self.at_end = false;
    }
}

impl Source for SureSource {
    ghost use Rattle.std.specs.Prelude.{Some, false};

    ghost left = { λ s. Some s.left };

    ghost given = { λ s. Some s.given };

    ghost faults = { λ _. 0 };

    ghost at_end = { λ s. s.at_end };

    ghost has_failed = { λ _. false };

    fn read(&mut self, buf: &mut [u8]) -> Got {
        let (_, rest) = self.bytes.as_slice().split_at(self.at);
        self.at_end = rest.is_empty();
        if self.at_end {
            return Got::End;
        }
        let len = copy_front(rest, buf);
        self.at += len;
        Got::Bytes { len }
    }

    fn finish(&mut self) {}
}

/// Copies as much of the front as there is room for, and answers how much that is.
pub(crate) fn copy_front(from: &[u8], buf: &mut [u8]) -> usize
    ensures within { result ≤ length from.now }
    ensures room { result ≤ length buf.old }
    ensures some { 0 < length from.now → 0 < length buf.old → 0 < result }
    ensures whole { result < length buf.old → result ≡ length from.now }
    ensures copied { take result buf.new ≡ take result from.now }
{
    let len = from.len().min(buf.len());
    buf[..len].copy_from_slice(&from[..len]);
    len
}
