//! The outside: sources, sinks, files and systems under test, and those in memory.
#![tactic(auto)]

mod call_list;
mod ends;
mod failing;
mod files;
mod mem_files;
mod mem_sink;
mod mem_source;
mod mem_sut;
mod numbers;
mod playing;
mod sink;
mod source;
mod sure_files;
mod sure_sink;
mod sure_source;
mod sure_sut;
mod sut;

pub use ends::{End, EndList, Ends};
pub use files::{Files, FilesFault};
pub use mem_files::MemFiles;
pub use mem_sink::MemSink;
pub use mem_source::MemSource;
pub use mem_sut::MemSut;
pub use numbers::Numbers;
pub use playing::{Script, ScriptEntry};
pub use sink::{Failed, Sink};
pub use source::{Got, Source};
pub use sure_files::{FILE_LIMIT, NamedFile, NamedFiles, SureFiles};
pub use sure_sink::SureSink;
pub use sure_source::SureSource;
pub use sure_sut::SureSut;
pub use sut::{Heard, Sut, SutCall, SutEntry, Told};

/// How a program ended.
#[derive(Clone, Copy, Debug, PartialEq, Eq)]
pub struct Status {
    pub code: u8,
}
