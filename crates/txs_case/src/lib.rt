//! The format of case files: the cases that a text holds line by line, quoted words, and the lines of results.
#![tactic(auto)]

mod entry;
mod fault;
mod numbers;
mod quoted;
mod reader;
mod written;

pub use entry::{Entries, Entry};
pub use fault::CaseFault;
pub use numbers::{number_of, numbers_of, split_word};
pub use quoted::{quoted_texts, quoted_words};
pub use reader::{Lines, Reader};
pub use written::{push_content, push_line, push_quoted};
