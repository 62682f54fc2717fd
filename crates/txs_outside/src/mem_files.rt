ghost use Rattle.std.specs.Prelude.{◌≡◌};

use crate::failing::Failing;
use crate::sure_files::{copy_whole, found};
use crate::{Files, FilesFault, NamedFiles, Numbers};
use std::alloc::Global;
use std::marker::Model;
use txs_values::Bytes;

/// Files in memory whose listed calls fail, as does one for a name that they do not hold.
#[derive(Debug, Drop)]
pub struct MemFiles {
    files: NamedFiles,
    failing: Failing,
}

impl Model for MemFiles {
    ghost use Rattle.txs_outside.specs.Memory.{MemFilesState};

    ghost Value = { MemFilesState };

    ghost view = { λ f. record {
      files = f.files;
      made = f.failing.calls;
      fails = f.failing.fails;
      faults = f.failing.faults;
    } };
}

impl MemFiles {
    /// Its calls are numbered from 1.
    pub fn new(files: NamedFiles, fails: Numbers) -> MemFiles
        ensures { result ≡ record { files = files; made = 0; fails = fails; faults = 0 } }
    {
        MemFiles {
            files,
            failing: Failing::new(fails),
        }
    }
}

impl Files for MemFiles {
    ghost use Rattle.txs_outside.specs.Held.{held};

    ghost contents = { λ f name. held f.files name };

    ghost faults = { λ f. f.faults };

    fn read_all(&mut self, alloc: Global, name: &str) -> Result<Bytes, FilesFault> {
        if self.failing.call().is_err() {
            return Err(FilesFault::Failed);
        }
        let Some(bytes) = found(self.files.as_slice(), name) else {
            self.failing.fault();
            return Err(FilesFault::Failed);
        };
        copy_whole(alloc, bytes)
    }
}
