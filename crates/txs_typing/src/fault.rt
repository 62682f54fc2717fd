ghost use Rattle.std.specs.Prelude.{◌≡◌, ◌↔◌, IsTrue};
ghost use Rattle.txs_typing.specs.declared.fault.TypeFault.TheVariants as fault;
ghost use Rattle.txs_typing.specs.inner.Told.{Lesser, IsBefore, order};

use std::alloc::{AllocError, AllocFailed};
use thiserror::Error;
use txs_values::NoMemory;

/// Why definitions, or an expression, are not accepted; `at` is a byte of the text, at which the offending token begins.
#[derive(Clone, Copy, Debug, PartialEq, Eq, Error)]
pub enum TypeFault {
    #[error("the name is taken already: choose another one")]
    Twice { at: usize },
    #[error("nothing of this name is defined here")]
    Unknown { at: usize },
    #[error("another number of arguments is needed here")]
    Arity { at: usize },
    #[error("an expression of another type is needed here; fromString stands only where a type is needed")]
    Mismatch { at: usize },
    #[error("the type has no finite value: give it a constructor that does not lead back to the type")]
    EmptyType { at: usize },
    #[error("the default of the type has a size above 16384 or a height above 1000")]
    BigType { at: usize },
    #[error("memory ran out")]
    NoMemory,
}

impl From<NoMemory> for TypeFault {
    ghost from_gives = { λ _ f. f ≡ fault.NoMemory };

    fn from(_error: NoMemory) -> TypeFault {
        TypeFault::NoMemory
    }
}

impl From<AllocError> for TypeFault {
    ghost from_gives = { λ _ f. f ≡ fault.NoMemory };

    fn from(_error: AllocError) -> TypeFault {
        TypeFault::NoMemory
    }
}

impl<T: Drop> From<AllocFailed<T>> for TypeFault {
    ghost from_gives = { λ _ f. f ≡ fault.NoMemory };

    fn from(_error: AllocFailed<T>) -> TypeFault {
        TypeFault::NoMemory
    }
}

/// The offset and the rank among the faults at one offset; want of memory has none.
fn order(fault: TypeFault) -> Option<(usize, u8)>
    ensures { result ≡ order fault }
{
    match fault {
        TypeFault::Twice { at } => Some((at, 0)),
        TypeFault::Unknown { at } => Some((at, 1)),
        TypeFault::Arity { at } => Some((at, 2)),
        TypeFault::Mismatch { at } => Some((at, 3)),
        TypeFault::EmptyType { at } => Some((at, 4)),
        TypeFault::BigType { at } => Some((at, 5)),
        TypeFault::NoMemory => None,
    }
}

/// Whether the first of two offsets, each with a rank, goes before the second.
fn is_before(a: (usize, u8), b: (usize, u8)) -> bool
    ensures { IsTrue result ↔ IsBefore a b }
{
    a.0 < b.0 || (a.0 == b.0 && a.1 < b.1)
}

/// That of two faults which decides; want of memory goes before all.
pub fn lesser(a: TypeFault, b: TypeFault) -> TypeFault
    ensures { Lesser a b result }
{
    match (order(a), order(b)) {
        (Some(x), Some(y)) => if is_before(y, x) { b } else { a },
        _ => TypeFault::NoMemory,
    }
}
