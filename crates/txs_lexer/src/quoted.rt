//! Texts in quotes.
ghost use Rattle.std.specs.Prelude.{◌≡◌, ◌<◌, ◌≤◌, ◌+◌, ◌^◌, ◌∷◌, length, IfOk, IfErr};
ghost use Rattle.txs_values.specs.Spelling;
ghost use Rattle.txs_lexer.specs.Scan.{Gives, IsTail, character, inside_len, meaning, quoted};

use crate::LexFault;
use crate::byte::{begins_with, first, is_plain, past};
use crate::front::Front;
use crate::name::text_of;
use crate::token::Kind;
use std::alloc::Global;
use txs_values::{Bytes, NoMemory};

/// How many bytes can stand inside, up to a quote or to where the text breaks off.
fn inside_len(bytes: &[u8]) -> usize
    ensures number { result ≡ inside_len bytes.now }
    ensures within { result ≤ length bytes.now }
{
    let mut len = 0;
    let mut rest = bytes;
    loop {
        match rest {
            [byte, others @ ..] if is_plain(*byte) => {
                len += 1;
                rest = others;
            }
            [b'\\', second, others @ ..] if *second != b'\n' => {
                len += 2;
                rest = others;
            }
            _ => return len,
        }
    }
}

/// The character of an escape.
fn escape_of(byte: u8) -> Option<u8>
    ensures { result ≡ Spelling.escape_of byte }
{
    match byte {
        b'"' => Some(b'"'),
        b'\\' => Some(b'\\'),
        b'n' => Some(b'\n'),
        b'r' => Some(b'\r'),
        b't' => Some(b'\t'),
        _ => None,
    }
}

/// The first character of what stands between quotes, and in how many bytes it is written.
fn character(inside: &[u8]) -> Option<(u8, usize)>
    ensures { result ≡ character inside.now }
{
    match inside {
        [b'\\', second, ..] => match escape_of(*second) {
            Some(byte) => Some((byte, 2)),
            None => None,
        },
        [] | [b'\\', ..] => None,
        [byte, ..] => Some((*byte, 1)),
    }
}

/// What stands between the quotes means, or how far in its first wrong escape is.
fn meaning(alloc: Global, inside: &[u8]) -> Result<Result<Bytes, usize>, NoMemory>
    ensures read { IfOk result (λ read. read ≡ meaning inside.now) }
    ensures within { IfOk result (λ read. IfErr read (λ k. k < length inside.now)) }
{
    let mut text = Bytes::new(alloc);
    let mut len = 0;
    let mut rest = inside;
    while !rest.is_empty() {
        match character(rest) {
            None => return Ok(Err(len)),
            Some((byte, width)) => {
                text.push(byte)?;
                len += width;
                rest = past(rest, width);
            }
        }
    }
    Ok(Ok(text))
}

/// The text whose opening quote stands at `at`, before these bytes.
pub fn quoted_token(alloc: Global, at: usize, behind: &[u8]) -> Result<Front, LexFault>
    requires tail { IsTail (34 ∷ behind.now) }
    requires fits { at + length behind.now + 2 < 2 ^ 64 }
    ensures { Gives result (quoted at behind.now) }
{
    let len = inside_len(behind);
    if !begins_with(b'"', past(behind, len)) {
        return Err(LexFault::OpenText { at });
    }
    match meaning(alloc, first(behind, len))? {
        Ok(text) => {
            let text = text_of(alloc, text.as_slice())?;
            Ok(Front::Lexeme(Kind::Quoted(text), len + 2))
        }
        Err(k) => Err(LexFault::BadChar { at: at + 1 + k }),
    }
}
