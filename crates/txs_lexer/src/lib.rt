//! Tokens: names, reserved words, numbers, quoted texts and symbols.
#![tactic(auto)]

mod byte;
mod comment;
mod fault;
mod front;
mod name;
mod number;
mod quoted;
mod signs;
pub mod symbol;
mod tables;
mod text;
mod token;
pub mod word;

pub use fault::LexFault;
pub use text::{lex, named_numbers, one_answer, some_answer};
pub use token::{Kind, Token, Tokens};
