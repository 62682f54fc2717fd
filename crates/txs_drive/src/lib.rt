//! One session of a model over real objects, from the command bytes to the status.
#![tactic(auto)]

mod driver;
mod feed;
mod plain;

use driver::{Next, Stop};
use feed::{Finish, Read};
pub use plain::{close, run_plain};
