use thiserror::Error;
use txs_values::NoMemory;

/// Why a file was not read.
#[derive(Clone, Copy, Debug, Error)]
pub enum LoadFault {
    #[error("the file is not of the form that is read so far")]
    Later,
    #[error("memory ran out")]
    NoMemory,
}

impl From<NoMemory> for LoadFault {
    ghost use Rattle.std.specs.Prelude.{◌≡◌};
    ghost use Rattle.txs_words.specs.declared.load_fault.LoadFault.TheVariants.{NoMemory};

    ghost from_gives = { λ _ e. e ≡ NoMemory };

    fn from(_e: NoMemory) -> LoadFault {
        LoadFault::NoMemory
    }
}
