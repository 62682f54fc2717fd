use std::alloc::{AllocError, AllocFailed};
use thiserror::Error;
use txs_values::NoMemory;

/// Why a text has no tokens. A place is the number of bytes before it.
#[derive(Clone, Copy, Debug, PartialEq, Eq, Error)]
pub enum LexFault {
    #[error("the text has more than 1048576 bytes: split the model or take out comments")]
    TooLong,
    #[error("the text is UTF-8 up to byte {at} and no further: save it as UTF-8")]
    NotUtf8 { at: usize },
    #[error("no token begins with the character at byte {at}, or it begins none of the five escapes of a text")]
    BadChar { at: usize },
    #[error("the text in quotes that begins at byte {at} is not closed on its line: add a quote")]
    OpenText { at: usize },
    #[error("the comment that begins at byte {at} is not closed: add -}}")]
    OpenComment { at: usize },
    #[error("the number at byte {at} is above 2^127 - 1")]
    Number { at: usize },
    #[error("memory ran out")]
    NoMemory,
}

impl From<NoMemory> for LexFault {
    ghost use Rattle.std.specs.Prelude.{◌≡◌};
    ghost use Rattle.txs_lexer.specs.declared.fault.LexFault.TheVariants.{NoMemory};

    ghost from_gives = { λ _ e. e ≡ NoMemory };

    fn from(_e: NoMemory) -> LexFault {
        LexFault::NoMemory
    }
}

impl From<AllocError> for LexFault {
    ghost use Rattle.std.specs.Prelude.{◌≡◌};
    ghost use Rattle.txs_lexer.specs.declared.fault.LexFault.TheVariants.{NoMemory};

    ghost from_gives = { λ _ e. e ≡ NoMemory };

    fn from(_e: AllocError) -> LexFault {
        LexFault::NoMemory
    }
}

impl<T: Drop> From<AllocFailed<T>> for LexFault {
    ghost use Rattle.std.specs.Prelude.{◌≡◌};
    ghost use Rattle.txs_lexer.specs.declared.fault.LexFault.TheVariants.{NoMemory};

    ghost from_gives = { λ _ e. e ≡ NoMemory };

    fn from(_e: AllocFailed<T>) -> LexFault {
        LexFault::NoMemory
    }
}
