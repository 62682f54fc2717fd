//! What stands at the front of a text.
ghost use Rattle.std.specs.Prelude.{◌≡◌, ◌<◌, ◌≤◌, ◌+◌, ◌^◌, ℕ, List, length, IfOk};
ghost use Rattle.txs_lexer.specs.Scan.{Gives, IsTail, front_of};

use crate::LexFault;
use crate::byte::{first, is_blank, name_len};
use crate::name::name_token;
use crate::number::number_token;
use crate::quoted::quoted_token;
use crate::signs::sign;
use crate::token::Kind;
use std::alloc::Global;
use txs_values::{digits_len, is_digit, is_letter};

/// A blank or a comment, or a token, with the number of its bytes.
#[derive(Debug, Drop)]
pub enum Front {
    Gap(usize),
    Lexeme(Kind, usize),
}

/// What the rest of a text, from `at` on, begins with.
#[tactic(auto, unfolding(crate::specs::Scan::front_of))]
pub fn read_front(alloc: Global, at: usize, rest: &[u8]) -> Result<Front, LexFault>
    requires tail { IsTail rest.now }
    requires fits { at + length rest.now + 2 < 2 ^ 64 }
    ensures { Gives result (front_of at rest.now) }
{
    match rest {
        [] => Ok(Front::Gap(0)),
        [byte, ..] if is_blank(*byte) => Ok(Front::Gap(1)),
        [byte, ..] if is_letter(*byte) => name_token(alloc, first(rest, name_len(rest))),
        [byte, ..] if is_digit(*byte) => number_token(at, first(rest, digits_len(rest))),
        [b'"', behind @ ..] => quoted_token(alloc, at, behind),
        _ => sign(at, rest),
    }
}
