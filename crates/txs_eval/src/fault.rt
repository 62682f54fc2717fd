ghost use Rattle.std.specs.Prelude.{◌≡◌, ◌≢◌, Err};
ghost use Rattle.txs_terms.specs.Eval as spec;
ghost use Rattle.txs_eval.specs.declared.fault.Stop.TheVariants.{NoMemory as wanting};
ghost use Rattle.txs_eval.specs.Answer.{Answers, Stopped};

use std::alloc::{AllocError, AllocFailed};
use thiserror::Error;
use txs_values::NoMemory;

/// Why an expression has no value.
#[derive(Clone, Copy, Debug, PartialEq, Eq, Error)]
pub enum EvalFault {
    #[error("a division by zero")]
    Division,
    #[error("a number past the range of Int, -2^127 to 2^127 - 1")]
    Range,
    #[error("a selector of another constructor, or a place that the text does not have")]
    Selector,
    #[error("the text is no spelling of a value of the type")]
    Form,
    #[error("the evaluation stands higher than 1000")]
    High,
    #[error("the evaluation has more than 1000000 nodes")]
    Long,
    #[error("a value of a size above 16384 or of a height above 1000")]
    Size,
    #[error("memory ran out")]
    NoMemory,
}

/// Why an evaluation stops. `Wrong`, a value of a wrong type, is met by no well typed expression.
#[derive(Clone, Copy, Drop)]
pub enum Stop {
    Division,
    Range,
    Selector,
    Form,
    High,
    Long,
    Size,
    Wrong,
    NoMemory,
}

impl From<NoMemory> for Stop {
    ghost from_gives = { λ _ e. e ≡ wanting };

    fn from(_e: NoMemory) -> Stop {
        Stop::NoMemory
    }
}

impl From<AllocError> for Stop {
    ghost from_gives = { λ _ e. e ≡ wanting };

    fn from(_e: AllocError) -> Stop {
        Stop::NoMemory
    }
}

/// The fault that a well typed expression stops by.
pub fn fault_of(stop: Stop) -> EvalFault
    requires { stop ≢ Stop.Wrong }
    ensures answer { (r : spec.Run) → Stopped spec.bad stop r → Answers r (Err result) }
    ensures memory { result ≡ EvalFault.NoMemory → stop ≡ Stop.NoMemory }
{
    match stop {
        Stop::Division => EvalFault::Division,
        Stop::Range => EvalFault::Range,
        Stop::Selector => EvalFault::Selector,
        Stop::Form => EvalFault::Form,
        Stop::High => EvalFault::High,
        Stop::Long => EvalFault::Long,
        Stop::Size => EvalFault::Size,
        Stop::NoMemory => EvalFault::NoMemory,
        Stop::Wrong => unreachable!(),
    }
}
