use std::alloc::AllocError;
use txs_case::CaseFault;
use txs_values::NoMemory;

/// Why no more cases are run.
#[derive(Clone, Copy)]
pub enum Stop {
    /// The line of this number, from 1, is not of the form.
    BadLine(u64),
    NoMemory,
}

impl From<NoMemory> for Stop {
    fn from(_e: NoMemory) -> Stop {
        Stop::NoMemory
    }
}

impl From<AllocError> for Stop {
    fn from(_e: AllocError) -> Stop {
        Stop::NoMemory
    }
}

/// The stop at a line that was not read.
pub fn stop_at(number: u64, fault: CaseFault) -> Stop {
    match fault {
        CaseFault::Form => Stop::BadLine(number),
        CaseFault::NoMemory => Stop::NoMemory,
    }
}
