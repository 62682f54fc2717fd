//! The adapters: the files, the reader, the writer and the TCP connections of the operating system as the outside.
#![tactic(auto)]

mod disk_files;
mod reader_source;
mod retrying;
mod tcp_sut;
mod writer_sink;

pub use disk_files::DiskFiles;
pub use reader_source::ReaderSource;
pub use tcp_sut::TcpSut;
pub use writer_sink::WriterSink;
