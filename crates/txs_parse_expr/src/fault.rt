ghost use Rattle.std.specs.Prelude.{◌≡◌};
ghost use Rattle.txs_parse_expr.specs.declared.fault.Stop.TheVariants as stop;
ghost use Rattle.txs_parse_expr.specs.View.{fault};

use crate::token::offset_of;
use std::alloc::{AllocError, AllocFailed};
use thiserror::Error;
use txs_lexer::Token;

/// Why no expression is read; `at` is a byte of the text.
#[derive(Clone, Copy, Debug, PartialEq, Eq, Error)]
pub enum ParseFault {
    #[error("no expression goes on so: the token does not fit here, or the text ends too early")]
    Unexpected { at: usize },
    #[error("too deep: more than 500 parentheses, operators, IF and LET are open here")]
    Deep { at: usize },
    #[error("memory ran out")]
    NoMemory,
}

/// Why reading stopped, by the number of the token.
#[derive(Clone, Copy, Debug, Drop)]
pub enum Stop {
    Unexpected(usize),
    Deep(usize),
    NoMemory,
}

impl From<AllocError> for Stop {
    ghost from_gives = { λ _ f. f ≡ stop.NoMemory };

    fn from(_error: AllocError) -> Stop {
        Stop::NoMemory
    }
}

impl<T: Drop> From<AllocFailed<T>> for Stop {
    ghost from_gives = { λ _ f. f ≡ stop.NoMemory };

    fn from(_error: AllocFailed<T>) -> Stop {
        Stop::NoMemory
    }
}

impl From<txs_values::NoMemory> for Stop {
    ghost from_gives = { λ _ f. f ≡ stop.NoMemory };

    fn from(_error: txs_values::NoMemory) -> Stop {
        Stop::NoMemory
    }
}

/// The fault of a text of so many bytes.
pub fn fault_of(tokens: &[Token], len: usize, stop: Stop) -> ParseFault
    ensures { result ≡ fault len tokens.now stop }
{
    match stop {
        Stop::Unexpected(next) => ParseFault::Unexpected {
            at: offset_of(tokens, next, len),
        },
        Stop::Deep(token) => ParseFault::Deep {
            at: offset_of(tokens, token, len),
        },
        Stop::NoMemory => ParseFault::NoMemory,
    }
}
