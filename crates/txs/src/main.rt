//! The program: tests a system by a model.
#![tactic(auto)]

use std::process::ExitCode;
use std::rt::Env;
use std::{env, io};
use txs_adapters::{DiskFiles, ReaderSource, TcpSut, WriterSink};
use txs_top::top;

/// The status if memory runs out before the session begins.
const NO_MEMORY: u8 = 5;

/// The words of the command line after the program's name. If one is no text there are none,
/// since such words fit no form.
fn words_of(rt: &(impl Env + AllocGlobal)) -> io::Result<Vec<String>> {
    let mut words = Vec::new(rt.alloc());
    match env::args(rt) {
        Ok(args) => {
            for word in args.skip(1) {
                words.push(word)?;
            }
        }
        Err(error) if error.kind() == io::ErrorKind::InvalidData => {}
        Err(error) => return Err(error),
    }
    Ok(words)
}

/// Runs the words of the command line over the real objects, and answers the status.
fn run(rt: HostRuntime) -> io::Result<u8> {
    let words = words_of(&rt)?;
    let mut files = DiskFiles::new(rt.clone()?);
    let mut source = ReaderSource::new(rt.stdin());
    let mut sink = WriterSink::new(rt.stdout());
    let mut sut = TcpSut::new(rt.alloc(), rt.clone()?);
    let status = top(
        rt.alloc(),
        words.as_slice(),
        &mut files,
        &mut source,
        &mut sink,
        &mut sut,
    );
    Ok(status.code)
}

fn main(rt: HostRuntime) -> io::Result<ExitCode> {
    match run(rt) {
        Ok(code) => Ok(ExitCode::from(code)),
        Err(_) => Ok(ExitCode::from(NO_MEMORY)),
    }
}
