//! The types of expressions: what a tree means at a type, and what offends in it.
#![tactic(auto)]

mod call;
mod expression;
mod fault;
mod fitting;
mod joined;
mod leaf;
mod meaning;
mod node;
mod numbers;
mod operator;
mod scope;
mod typed;

pub use expression::expression as elaborate;
pub use fault::{TypeFault, lesser};
pub use meaning::{GlobalName, GlobalNames, Meaning};
pub use numbers::{number_of, place_after};
pub use scope::{Called, Scope};
pub use typed::Typed;
