ghost use Rattle.std.specs.Prelude.{◌≡◌, ◌≢◌, ◌↔◌, ◌≤◌, ◌<◌, ◌+◌, ◌^◌, ℕ, List, length, IfOk, MatchResult, Err, IsUtf8};
ghost use Rattle.txs_lexer.specs.Lexed.{Answer, IsLexed, AreSlices};
ghost use Rattle.txs_lexer.specs.Scan.{IsTail, Reads, Steps, Stops};
ghost use Rattle.txs_lexer.specs.Tokens.{Fails};
ghost use Rattle.txs_lexer.specs.Words.{words, symbols, named_words, named_symbols, AreNumbers};

use crate::LexFault;
use crate::byte::past;
use crate::front::{Front, read_front};
use crate::token::{Token, Tokens};
use std::alloc::Global;

/// As many bytes as a text may have.
const TEXT_LIMIT: usize = 1_048_576;

/// The tokens of a text, or its fault.
pub fn lex(alloc: Global, bytes: &[u8]) -> Result<Tokens, LexFault>
    // Where memory suffices, the result is the one answer that the text gives.
    ensures exact { result ≢ Err LexFault.NoMemory → (answer : Answer) → (result ≡ answer) ↔ IsLexed bytes.now answer }
    ensures slices { IfOk result (λ tokens. AreSlices bytes.now 0 tokens) }
{
    if bytes.len() > TEXT_LIMIT {
        return Err(LexFault::TooLong);
    }
    match std::str::from_utf8(bytes) {
        Ok(text) => all_tokens(alloc, text.as_bytes()),
        Err(e) => Err(LexFault::NotUtf8 {
            at: e.valid_up_to(),
        }),
    }
}

/// Reads one blank, comment or token, which goes to the tokens, and says how many bytes it has.
fn read_one(alloc: Global, tokens: &mut Tokens, at: usize, rest: &[u8]) -> Result<usize, LexFault>
    requires tail { IsTail rest.now }
    requires some { 0 < length rest.now }
    requires fits { at + length rest.now + 2 < 2 ^ 64 }
    ensures { MatchResult result (λ n. Steps at rest.now tokens.old tokens.new n) (λ fault. Stops fault (Fails at rest.now fault)) }
{
    match read_front(alloc, at, rest)? {
        Front::Gap(len) => Ok(len),
        Front::Lexeme(kind, len) => {
            tokens.push(Token {
                kind,
                from: at,
                to: at + len,
            })?;
            Ok(len)
        }
    }
}

fn all_tokens(alloc: Global, text: &[u8]) -> Result<Tokens, LexFault>
    requires small { length text.now ≤ 1048576 }
    requires utf8 { IsUtf8 text.now }
    ensures { Reads 0 text.now result }
{
    let mut tokens = Tokens::new(alloc);
    let mut at = 0;
    let mut rest = text;
    while !rest.is_empty() {
        let len = read_one(alloc, &mut tokens, at, rest)?;
        at += len;
        rest = past(rest, len);
    }
    Ok(tokens)
}

/// A text gives one answer at most.
pub fn one_answer()
    ensures { (bytes : List ℕ) (a b : Answer) → IsLexed bytes a → IsLexed bytes b → a ≡ b }
{}

/// Each text gives one.
pub fn some_answer()
    ensures { (bytes : List ℕ) → (answer : Answer) × IsLexed bytes answer }
{}

/// The constants of `word` and `symbol` are the numbers of what they name.
pub fn named_numbers()
    ensures words { AreNumbers named_words words }
    ensures symbols { AreNumbers named_symbols symbols }
{}
