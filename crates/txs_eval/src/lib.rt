//! The value of an expression, or the fault that its evaluation meets first.
#![tactic(auto)]

mod equality;
mod evaluation;
mod fault;
mod found;
mod numbers;
mod operators;
mod texts;

pub use evaluation::eval;
pub use fault::EvalFault;
