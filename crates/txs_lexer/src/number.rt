ghost use Rattle.std.specs.Prelude.{◌≡◌};
ghost use Rattle.txs_lexer.specs.Scan.{number_of, numbered};
ghost use Rattle.txs_lexer.specs.Tokens.{IsNumeral};

use crate::LexFault;
use crate::front::Front;
use crate::token::Kind;

/// The number of these digits, where it is at most 2^127 - 1.
fn number_of(digits: &[u8]) -> Option<i128>
    requires { IsNumeral digits.now }
    ensures { result ≡ number_of digits.now }
{
    match std::str::from_utf8(digits) {
        Ok(text) => match text.parse::<i128>() {
            Ok(n) => Some(n),
            Err(_) => None,
        },
        Err(_) => unreachable!(),
    }
}

/// The token of a run of digits.
#[tactic(auto, unfolding(crate::specs::Scan::numbered))]
pub fn number_token(at: usize, digits: &[u8]) -> Result<Front, LexFault>
    requires { IsNumeral digits.now }
    ensures { result ≡ numbered at digits.now }
{
    match number_of(digits) {
        Some(n) => Ok(Front::Lexeme(Kind::Number(n), digits.len())),
        None => Err(LexFault::Number { at }),
    }
}
