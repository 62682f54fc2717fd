//! The top call: words, file, acceptance, session.
#![tactic(auto)]

mod program;

pub use program::top;
