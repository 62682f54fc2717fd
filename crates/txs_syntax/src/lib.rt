//! The trees that a file is read into, and the tokens that spell an expression.
#![tactic(auto)]

mod ast;
mod file;

pub use ast::{Ast, Binding, Name, Op};
pub use file::{ConDef, Decl, DeclList, Def, File};
