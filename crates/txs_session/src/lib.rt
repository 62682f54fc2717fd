//! One session of a model, as a machine that touches nothing outside.
#![tactic(auto)]

mod answer;
mod command;
mod cuts;
mod doing;
mod lines;
mod note;
mod run;
mod session;

pub use answer::{Answer, answer_of};
pub use command::{Command, read_command};
pub use doing::Doing;
pub use lines::{line_of, sent_line};
pub use note::{Ending, Note, Seen};
use run::Run;
pub use session::{Prepared, Session};
