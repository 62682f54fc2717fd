ghost use Rattle.std.specs.Prelude.{◌≡◌, ◌≢◌, ◌≤◌, length, IfOk};

use crate::retrying;
use std::alloc::Global;
use std::fs::File;
use std::io::Read;
use std::marker::Model;
use std::rt;
use txs_outside::{FILE_LIMIT, Files, FilesFault};
use txs_values::Bytes;

/// The files of the system, which tell no contents.
#[derive(Drop)]
pub struct DiskFiles<R> {
    rt: R,
    faults: u64,
}

impl<R> Model for DiskFiles<R> {
    ghost use Rattle.std.specs.Prelude.{ℕ};

    ghost Value = { ℕ };

    ghost view = { λ f. f.faults };
}

impl<R> DiskFiles<R> {
    pub fn new(rt: R) -> DiskFiles<R>
        ensures { result ≡ 0 }
    {
        DiskFiles { rt, faults: 0 }
    }
}

impl<R: rt::Files> Files for DiskFiles<R> {
    ghost use Rattle.std.specs.Prelude.{None};

    ghost contents = { λ _ _. None };

    ghost faults = { λ f. f };

    fn read_all(&mut self, alloc: Global, name: &str) -> Result<Bytes, FilesFault> {
        let answer = match File::open(&self.rt, name) {
            Ok(mut file) => read_file(alloc, &mut file),
            Err(_) => Err(FilesFault::Failed),
        };
        if let Err(FilesFault::Failed) = answer {
            self.faults = self.faults.saturating_add(1);
        }
        answer
    }
}

/// All bytes of a reader, if they are not too many.
fn read_file<R: Read>(alloc: Global, reader: &mut R) -> Result<Bytes, FilesFault>
    ensures { IfOk result (λ b. length b ≤ 1048576) }
{
    let mut bytes = Bytes::new(alloc);
    let mut buf = [0u8; 4096];
    'reads: while bytes.len() <= FILE_LIMIT {
        match retrying::read(reader, &mut buf) {
            Ok(0) => return Ok(bytes),
            Ok(count) => bytes.extend(&buf[..count])?,
            Err(_) => return Err(FilesFault::Failed),
        }
    }
    Err(FilesFault::TooBig)
}

#[cfg(test)]
mod tests {
    use super::*;
    use std::fs;
    use std::test::Fail;

    #[test]
    fn reads_up_to_the_most(rt: HostRuntime) -> Result<(), Fail> {
        let alloc = rt.alloc();
        let name = "disk_files_test.bytes";
        let mut files = DiskFiles::new(&rt);
        assert_eq!(rt; files.read_all(alloc, name).err(), Some(FilesFault::Failed));
        let mut bytes = vec![in alloc; 7u8; FILE_LIMIT]?;
        fs::write(&rt, name, bytes.as_slice())?;
        let bytes_read = files.read_all(alloc, name).ok().ok_or("read")?;
        assert_eq!(rt; bytes_read.len(), FILE_LIMIT);
        bytes.push(7)?;
        fs::write(&rt, name, bytes.as_slice())?;
        assert_eq!(rt; files.read_all(alloc, name).err(), Some(FilesFault::TooBig));
        fs::remove_file(&rt, name)?;
        Ok(())
    }
}
