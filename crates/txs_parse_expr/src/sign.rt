ghost use Rattle.std.specs.Prelude.{◌≡◌, ◌<◌, drop, length, OnSome};
ghost use Rattle.txs_syntax.specs.Grammar as grammar;
ghost use Rattle.txs_parse_expr.specs.View.{first_sign, table};

use txs_lexer::symbol::{
    AND, AT_LEAST, AT_MOST, DIFFERENT, DIVIDE, EQUAL, JOIN, LESS, MINUS, MORE, OR, PLUS, REMAINDER,
    TIMES,
};
use txs_lexer::{Kind, Token};
use txs_syntax::Op;

/// How strongly an operator binds, from the weakest on.
#[derive(Clone, Copy, Debug, Drop)]
pub enum Strength {
    Or,
    And,
    Compare,
    Join,
    Sum,
    Product,
}

fn compare(symbol: u32) -> Option<Op>
    ensures { result ≡ grammar.look_up grammar.compare_signs symbol }
{
    match symbol {
        EQUAL => Some(Op::Equal),
        DIFFERENT => Some(Op::Different),
        LESS => Some(Op::Less),
        AT_MOST => Some(Op::AtMost),
        MORE => Some(Op::More),
        AT_LEAST => Some(Op::AtLeast),
        _ => None,
    }
}

fn sum(symbol: u32) -> Option<Op>
    ensures { result ≡ grammar.look_up grammar.sum_signs symbol }
{
    match symbol {
        PLUS => Some(Op::Plus),
        MINUS => Some(Op::Minus),
        _ => None,
    }
}

fn product(symbol: u32) -> Option<Op>
    ensures { result ≡ grammar.look_up grammar.product_signs symbol }
{
    match symbol {
        TIMES => Some(Op::Times),
        DIVIDE => Some(Op::Divide),
        REMAINDER => Some(Op::Remainder),
        _ => None,
    }
}

fn sign(strength: Strength, symbol: u32) -> Option<Op>
    ensures { result ≡ grammar.look_up (table strength) symbol }
{
    match strength {
        Strength::Or => if symbol == OR { Some(Op::Or) } else { None },
        Strength::And => if symbol == AND { Some(Op::And) } else { None },
        Strength::Compare => compare(symbol),
        Strength::Join => if symbol == JOIN { Some(Op::Join) } else { None },
        Strength::Sum => sum(symbol),
        Strength::Product => product(symbol),
    }
}

/// The operator of this strength that the token is.
fn sign_of(strength: Strength, token: &Token) -> Option<Op>
    ensures { result ≡ grammar.sign_of (table strength) token.now }
{
    match &token.kind {
        Kind::Symbol(symbol) => sign(strength, *symbol),
        _ => None,
    }
}

/// The operator of this strength that stands there.
pub fn sign_at(strength: Strength, tokens: &[Token], at: usize) -> Option<Op>
    ensures value { result ≡ first_sign (table strength) (drop at tokens.now) }
    ensures within { OnSome result (at < length tokens.now) }
{
    match tokens.get(at) {
        Some(token) => sign_of(strength, token),
        None => None,
    }
}
