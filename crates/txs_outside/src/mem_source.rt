ghost use Rattle.std.specs.Prelude.{◌≡◌, [], false};

use crate::failing::Failing;
use crate::{Got, Numbers, Source, SureSource};
use std::marker::Model;
use txs_values::Bytes;

/// A source over bytes in memory whose listed reads fail.
#[derive(Debug, Drop)]
pub struct MemSource {
    inner: SureSource,
    failing: Failing,
}

impl Model for MemSource {
    ghost use Rattle.txs_outside.specs.Memory.{MemSourceState};

    ghost Value = { MemSourceState };

    ghost view = { λ s. record {
      left = s.inner.left;
      given = s.inner.given;
      at_end = s.inner.at_end;
      has_failed = s.failing.has_failed;
      made = s.failing.calls;
      fails = s.failing.fails;
      faults = s.failing.faults;
    } };
}

impl MemSource {
    /// Its reads are numbered from 1.
    pub fn new(bytes: Bytes, fails: Numbers) -> MemSource
        ensures { result ≡ record { left = bytes; given = []; at_end = false; has_failed = false; made = 0; fails = fails; faults = 0 } }
    {
        MemSource {
            inner: SureSource::new(bytes),
            failing: Failing::new(fails),
        }
    }
}

impl Source for MemSource {
    ghost use Rattle.std.specs.Prelude.{Some};

    ghost left = { λ s. Some s.left };

    ghost given = { λ s. Some s.given };

    ghost faults = { λ s. s.faults };

    ghost at_end = { λ s. s.at_end };

    ghost has_failed = { λ s. s.has_failed };

    fn read(&mut self, buf: &mut [u8]) -> Got {
        if self.failing.call().is_err() {
            self.inner.forget_end();
            return Got::Failed;
        }
        self.inner.read(buf)
    }

    fn finish(&mut self) {}
}
