//! Reading an expression from tokens.
#![tactic(auto)]

mod fault;
mod parse;
mod sign;
mod token;
mod tree;

pub use fault::ParseFault;
pub use parse::{one_tree, parse_expr};
