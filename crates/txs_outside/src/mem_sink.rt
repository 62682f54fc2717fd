ghost use Rattle.std.specs.Prelude.{◌≡◌, [], false, IfOk};

use crate::failing::Failing;
use crate::{Failed, Numbers, Sink};
use std::alloc::Global;
use std::marker::Model;
use txs_values::{Bytes, NoMemory};

/// A sink that keeps what it takes, and whose listed writes fail.
#[derive(Debug, Drop)]
pub struct MemSink {
    bytes: Bytes,
    failing: Failing,
}

impl Model for MemSink {
    ghost use Rattle.txs_outside.specs.Memory.{MemSinkState};

    ghost Value = { MemSinkState };

    ghost view = { λ k. record {
      taken = k.bytes;
      has_failed = k.failing.has_failed;
      made = k.failing.calls;
      fails = k.failing.fails;
      faults = k.failing.faults;
    } };
}

impl MemSink {
    /// Reserves room for so many bytes. Its writes are numbered from 1; one that finds no memory
    /// for what it is to take fails too.
    pub fn new(alloc: Global, room: usize, fails: Numbers) -> Result<MemSink, NoMemory>
        ensures { IfOk result (λ k. k ≡ record { taken = []; has_failed = false; made = 0; fails = fails; faults = 0 }) }
    {
        let bytes = Bytes::from_vec(Vec::with_capacity(alloc, room)?);
        Ok(MemSink {
            bytes,
            failing: Failing::new(fails),
        })
    }

    /// The bytes taken so far.
    pub fn bytes(&self) -> &[u8]
        ensures { result.now ≡ self.now.taken }
    {
        self.bytes.as_slice()
    }
}

impl Sink for MemSink {
    ghost use Rattle.std.specs.Prelude.{Some};

    ghost taken = { λ k. Some k.taken };

    ghost faults = { λ k. k.faults };

    ghost has_failed = { λ k. k.has_failed };

    fn write(&mut self, bytes: &[u8]) -> Result<usize, Failed> {
        self.failing.call()?;
        if self.bytes.extend(bytes).is_err() {
            return Err(self.failing.fault());
        }
        Ok(bytes.len())
    }

    fn finish(&mut self) {}
}
