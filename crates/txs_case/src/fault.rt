use std::alloc::{AllocError, AllocFailed};
use thiserror::Error;
use txs_values::NoMemory;

/// Why a line was not read.
#[derive(Clone, Copy, Debug, Error)]
pub enum CaseFault {
    #[error("not a line of a case file")]
    Form,
    #[error("out of memory")]
    NoMemory,
}

impl From<AllocError> for CaseFault {
    fn from(_e: AllocError) -> CaseFault {
        CaseFault::NoMemory
    }
}

impl<T: Drop> From<AllocFailed<T>> for CaseFault {
    fn from(_e: AllocFailed<T>) -> CaseFault {
        CaseFault::NoMemory
    }
}

impl From<NoMemory> for CaseFault {
    fn from(_e: NoMemory) -> CaseFault {
        CaseFault::NoMemory
    }
}
