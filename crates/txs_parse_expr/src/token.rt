ghost use Rattle.std.specs.Prelude.{◌≡◌, ◌<◌, drop, length, IsTrue, OnSome, Some, None, true, false};
ghost use Rattle.txs_parse_expr.specs.Answer as answer;
ghost use Rattle.txs_parse_expr.specs.Reader as reader;
ghost use Rattle.txs_parse_expr.specs.View.{Stopped};

use crate::fault::Stop;
use txs_lexer::symbol::{MINUS, OPEN};
use txs_lexer::word::{IF, LET};
use txs_lexer::{Kind, Token};

fn is_symbol(token: &Token, symbol: u32) -> bool
    ensures { result ≡ reader.is_symbol symbol token.now }
{
    match &token.kind {
        Kind::Symbol(found) => *found == symbol,
        _ => false,
    }
}

fn is_word(token: &Token, word: u32) -> bool
    ensures { result ≡ reader.is_word word token.now }
{
    match &token.kind {
        Kind::Word(found) => *found == word,
        _ => false,
    }
}

/// Whether the symbol stands there.
pub fn has_symbol(tokens: &[Token], at: usize, symbol: u32) -> bool
    ensures value { result ≡ reader.on (reader.is_symbol symbol) (drop at tokens.now) (λ _. true) false }
    ensures within { IsTrue result → at < length tokens.now }
{
    match tokens.get(at) {
        Some(token) => is_symbol(token, symbol),
        None => false,
    }
}

/// Whether the reserved word stands there.
pub fn has_word(tokens: &[Token], at: usize, word: u32) -> bool
    ensures value { result ≡ reader.on (reader.is_word word) (drop at tokens.now) (λ _. true) false }
    ensures within { IsTrue result → at < length tokens.now }
{
    match tokens.get(at) {
        Some(token) => is_word(token, word),
        None => false,
    }
}

/// The place of the minus that stands there.
pub fn minus_at(tokens: &[Token], at: usize) -> Option<usize>
    ensures value { result ≡ reader.at_token (reader.is_symbol MINUS) (drop at tokens.now) (λ c _. Some c.from) None }
    ensures within { OnSome result (at < length tokens.now) }
{
    match tokens.get(at) {
        Some(token) => if is_symbol(token, MINUS) {
            Some(token.from)
        } else {
            None
        },
        None => None,
    }
}

/// Whether an expression may begin with the token.
fn begins(token: &Token) -> bool
    ensures { result ≡ reader.begins token.now }
{
    match &token.kind {
        Kind::Symbol(symbol) => *symbol == MINUS || *symbol == OPEN,
        Kind::Word(word) => *word == LET || *word == IF,
        Kind::Name(_) => true,
        Kind::Number(_) => true,
        Kind::Quoted(_) => true,
    }
}

/// What is wrong where no construct may be open any more.
pub fn too_deep(tokens: &[Token], at: usize) -> Stop
    ensures { Stopped tokens.now result (reader.full_at (drop at tokens.now)) }
{
    match tokens.get(at) {
        Some(token) => if begins(token) {
            Stop::Deep(at)
        } else {
            Stop::Unexpected(at)
        },
        None => Stop::Unexpected(at),
    }
}

/// The byte at which the token begins, or at which the text ends.
pub fn offset_of(tokens: &[Token], at: usize, len: usize) -> usize
    ensures { result ≡ answer.offset len (drop at tokens.now) }
{
    match tokens.get(at) {
        Some(token) => token.from,
        None => len,
    }
}
