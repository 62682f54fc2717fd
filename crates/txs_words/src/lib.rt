//! Reading a file by its words: one model over two channels of type Int, and one connection.
#![tactic(auto)]

mod behaviour;
mod form;
mod load;
mod load_fault;
mod model;
mod names;
mod numbers;
mod words;

pub use load::run_load;
pub use load_fault::LoadFault;
pub use model::Model;
