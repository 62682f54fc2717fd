ghost use Rattle.std.specs.Prelude.{◌≡◌, ◌≢◌, neg_ℤ, ℤ, FitsSigned, SomeIff};
ghost use Rattle.std.specs.Int.{w128};
ghost use Rattle.txs_terms.specs.Eval.{in_range, divided};
ghost use Rattle.txs_terms.specs.Expr.{divide, remainder};
ghost use Rattle.txs_terms.specs.Eval as spec;
ghost use Rattle.txs_terms.specs.View.{binary_of};
ghost use Rattle.txs_eval.specs.Answer.{Comes};

use crate::fault::Stop;
use txs_terms::Binary;
use txs_values::Value;

/// A number, if it is one of Int.
pub fn integer(number: Option<i128>) -> Result<Value, Stop>
    ensures value { (x : ℤ) → SomeIff number (FitsSigned w128 x) x → Comes result (in_range x) }
    ensures memory { result ≢ Err Stop.NoMemory }
{
    match number {
        Some(number) => Ok(Value::Int(number)),
        None => Err(Stop::Range),
    }
}

pub fn negated(x: i128) -> Result<Value, Stop>
    ensures value { Comes result (in_range (neg_ℤ x)) }
    ensures memory { result ≢ Err Stop.NoMemory }
{
    integer(x.checked_neg())
}

fn quotient(x: i128, y: i128) -> Result<Value, Stop>
    ensures value { Comes result (divided divide x y) }
    ensures memory { result ≢ Err Stop.NoMemory }
{
    if y == 0 {
        Err(Stop::Division)
    } else {
        integer(x.checked_div(y))
    }
}

/// What division leaves; by -1 nothing, also if the quotient is no Int.
fn remainder_of(x: i128, y: i128) -> Result<Value, Stop>
    ensures value { Comes result (divided remainder x y) }
    ensures memory { result ≢ Err Stop.NoMemory }
{
    if y == 0 {
        Err(Stop::Division)
    } else if y == -1 {
        integer(Some(0))
    } else {
        integer(Some(x % y))
    }
}

/// An operator on two numbers.
pub fn on_numbers(operator: Binary, x: i128, y: i128) -> Result<Value, Stop>
    ensures value { Comes result (spec.integer_binary (binary_of operator) x y) }
    ensures memory { result ≢ Err Stop.NoMemory }
{
    match operator {
        Binary::Plus => integer(x.checked_add(y)),
        Binary::Minus => integer(x.checked_sub(y)),
        Binary::Times => integer(x.checked_mul(y)),
        Binary::Divide => quotient(x, y),
        Binary::Remainder => remainder_of(x, y),
        Binary::LessThan => Ok(Value::Bool(x < y)),
        Binary::AtMost => Ok(Value::Bool(x <= y)),
        Binary::MoreThan => Ok(Value::Bool(y < x)),
        Binary::AtLeast => Ok(Value::Bool(y <= x)),
        Binary::Differ => Ok(Value::Bool(x != y)),
        Binary::Concat | Binary::CharAt => Err(Stop::Wrong),
    }
}
