ghost use Rattle.std.specs.Prelude.{◌≡◌};
ghost use Rattle.std.specs.Option.{option_copied};

use crate::{Files, FilesFault};
use sqlite_items::Items;
use std::alloc::Global;
use std::marker::Model;
use txs_values::{Bytes, Text};

/// A file in memory.
#[derive(Debug, Drop)]
pub struct NamedFile {
    pub name: Text,
    pub bytes: Bytes,
}

/// Files in memory. Of several with one name the first counts.
pub type NamedFiles = Items<NamedFile>;

/// Files in memory that never fail: a name that they do not hold is that of an empty file.
#[derive(Debug, Drop)]
pub struct SureFiles {
    files: NamedFiles,
}

impl Model for SureFiles {
    ghost use Rattle.std.specs.Prelude.{List};
    ghost use Rattle.txs_outside.specs.declared.sure_files.NamedFile.{NamedFile};

    ghost Value = { List NamedFile };

    ghost view = { λ f. f.files };
}

impl SureFiles {
    pub fn new(files: NamedFiles) -> SureFiles
        ensures { result ≡ files }
    {
        SureFiles { files }
    }
}

impl Files for SureFiles {
    ghost use Rattle.std.specs.Prelude.{[], Some, unwrap_or};
    ghost use Rattle.txs_outside.specs.Held.{held};

    ghost contents = { λ f name. Some (unwrap_or (held f name) []) };

    ghost faults = { λ _. 0 };

    fn read_all(&mut self, alloc: Global, name: &str) -> Result<Bytes, FilesFault> {
        match found(self.files.as_slice(), name) {
            Some(bytes) => copy_whole(alloc, bytes),
            None => Ok(Bytes::new(alloc)),
        }
    }
}

ghost use Rattle.std.specs.Prelude.{◌<◌, ◌≤◌, length, IfOk, IfErr, IsErrOf, ◌≢◌};
ghost use Rattle.txs_outside.specs.Held.{held};

/// The bytes of the first file of the name.
pub(crate) fn found<'a>(files: &'a [NamedFile], name: &str) -> Option<&'a Bytes>
    ensures { option_copied result ≡ held files.now name.now }
{
    for file in files {
        if file.name.as_str() == name {
            return Some(&file.bytes);
        }
    }
    None
}

/// The bytes of a file, if they are not too many.
pub(crate) fn copy_whole(alloc: Global, bytes: &Bytes) -> Result<Bytes, FilesFault>
    ensures bytes { IfOk result (λ b. b ≡ bytes.now) }
    ensures size { IfOk result (λ b. length b ≤ 1048576) }
    ensures too_big { IsErrOf result FilesFault.TooBig → 1048576 < length bytes.now }
    ensures sure { IfErr result (λ e. e ≢ FilesFault.Failed) }
{
    if bytes.len() > FILE_LIMIT {
        return Err(FilesFault::TooBig);
    }
    Ok(bytes.copy(alloc)?)
}

/// The most bytes that a file may have.
pub const FILE_LIMIT: usize = 1_048_576;
