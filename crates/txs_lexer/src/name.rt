ghost use Rattle.std.specs.Prelude.{◌≡◌, IfOk, IsUtf8};
ghost use Rattle.txs_values.specs.Spelling.{is_name_byte};
ghost use Rattle.txs_lexer.specs.Scan.{Gives, named_by, word_number};
ghost use Rattle.txs_lexer.specs.Tokens.{AreAll};

use crate::LexFault;
use crate::front::Front;
use crate::tables::word_number;
use crate::token::Kind;
use std::alloc::Global;
use txs_values::{NoMemory, Text};

/// The text of bytes that are known to be UTF-8.
pub fn text_of(alloc: Global, bytes: &[u8]) -> Result<Text, NoMemory>
    requires { IsUtf8 bytes.now }
    ensures { IfOk result (λ text. text ≡ bytes.now) }
{
    match Text::from_utf8(alloc, bytes)? {
        Some(text) => Ok(text),
        None => unreachable!(),
    }
}

/// The token of a run of letters, digits and `_`.
pub fn name_token(alloc: Global, name: &[u8]) -> Result<Front, LexFault>
    requires { AreAll is_name_byte name.now }
    ensures { Gives result (Ok (named_by (word_number name.now) name.now)) }
{
    match word_number(name) {
        Some(k) => Ok(Front::Lexeme(Kind::Word(k as u32), name.len())),
        None => Ok(Front::Lexeme(Kind::Name(text_of(alloc, name)?), name.len())),
    }
}
