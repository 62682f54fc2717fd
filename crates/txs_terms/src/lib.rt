//! Terms, actions, the rules of behaviour, and what may be observed after a trace.
#![tactic(auto)]

mod action;
mod after;
mod defs;
mod expr;
mod offer;
mod slots;
mod term;
mod tree;

pub use action::{Action, Channels, Part};
pub use after::{after_action, after_quiescence, first};
pub use defs::{ConstantDef, Defs, DefsRef, FunctionDef};
pub use expr::{
    Binary, Binding, Bindings, Expr, Exprs, SharedBindings, SharedExprs, Unary, copy_expr,
    copy_exprs,
};
pub use offer::{Offer, Offers, Position, Positions, copy_offers};
pub use slots::fill;
pub use term::{Call, ChanTypes, Names, Term, Top, term_choice, term_prefix, term_stop};
