//! The types of definitions and queries: which definitions a file means, which expression a query, and what offends in them.
#![tactic(auto)]

mod bodies;
mod declarations;
mod definitions;
mod file;
mod file_names;
mod file_types;
mod global_names;
mod least;
mod names;
mod offences;
mod query;
mod table_names;

pub use file::type_defs;
pub use query::type_query;
pub use txs_typing::TypeFault;
