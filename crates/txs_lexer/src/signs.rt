ghost use Rattle.std.specs.Prelude.{◌≡◌, ◌<◌, ◌+◌, ◌^◌, length};
ghost use Rattle.txs_lexer.specs.Scan.{symbol_of, sign_of};

use crate::LexFault;
use crate::byte::line_len;
use crate::comment::block_comment;
use crate::front::Front;
use crate::tables::symbol_number;
use crate::token::Kind;

#[tactic(auto, unfolding(crate::specs::Scan::symbol_of))]
fn symbol(at: usize, text: &[u8]) -> Result<Front, LexFault>
    ensures { result ≡ symbol_of at text.now }
{
    if let Some(k) = symbol_number(text, 3) {
        return Ok(Front::Lexeme(Kind::Symbol(k as u32), 3));
    }
    if let Some(k) = symbol_number(text, 2) {
        return Ok(Front::Lexeme(Kind::Symbol(k as u32), 2));
    }
    if let Some(k) = symbol_number(text, 1) {
        return Ok(Front::Lexeme(Kind::Symbol(k as u32), 1));
    }
    Err(LexFault::BadChar { at })
}

/// A comment or a symbol.
#[tactic(auto, unfolding(crate::specs::Scan::sign_of))]
pub fn sign(at: usize, text: &[u8]) -> Result<Front, LexFault>
    requires { length text.now + 2 < 2 ^ 64 }
    ensures { result ≡ sign_of at text.now }
{
    match text {
        [b'-', b'-', line @ ..] => Ok(Front::Gap(line_len(line) + 2)),
        [b'{', b'-', behind @ ..] => block_comment(at, behind),
        _ => symbol(at, text),
    }
}
