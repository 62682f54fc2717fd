use crate::run::Run;
use crate::slow_source::SlowSource;
use std::alloc::Global;
use std::fmt::Write;
use txs_case::push_content;
use txs_outside::{
    MemFiles, MemSink, MemSource, MemSut, Numbers, Status, SureFiles, SureSink, SureSource,
    SureSut, SutCall, SutEntry,
};
use txs_top::top;
use txs_values::{Bytes, NoMemory, Text};

/// Room for what a sink takes.
const BYTES: usize = 65_536;

/// Room for the calls of a system.
const CALLS: usize = 1_000;

/// What comes of a whole run.
pub fn result_of(alloc: Global, name: &Text, run: Run) -> Result<String, NoMemory> {
    if run.is_sure {
        sure_result(alloc, name, run)
    } else {
        memory_result(alloc, name, run)
    }
}

/// What comes of a run over objects that never fail and tell nothing.
fn sure_result(alloc: Global, name: &Text, run: Run) -> Result<String, NoMemory> {
    let words = run.words.unwrap_or(Vec::new(alloc));
    let commands = run.commands.unwrap_or(Bytes::new(alloc));
    let mut files = SureFiles::new(run.files);
    let mut source = SureSource::new(commands);
    let mut sink = SureSink::new();
    let mut sut = SureSut::new(run.script);
    let status = top(
        alloc,
        words.as_slice(),
        &mut files,
        &mut source,
        &mut sink,
        &mut sut,
    );
    let mut out = begun(alloc, name, status)?;
    out.push_str("end\n")?;
    Ok(out)
}

/// What comes of a run over objects in memory.
fn memory_result(alloc: Global, name: &Text, run: Run) -> Result<String, NoMemory> {
    let fails = run.fails;
    let words = run.words.unwrap_or(Vec::new(alloc));
    let mut files = MemFiles::new(run.files, numbers(alloc, fails.files));
    let mut source = source(alloc, run.commands, fails.source, run.reads);
    let mut sink = MemSink::new(alloc, BYTES, numbers(alloc, fails.sink))?;
    let mut sut = MemSut::new(alloc, run.script, CALLS, numbers(alloc, fails.sut))?;
    let status = top(
        alloc,
        words.as_slice(),
        &mut files,
        &mut source,
        &mut sink,
        &mut sut,
    );
    let out = begun(alloc, name, status)?;
    told(out, &sink, &sut, run.shows_calls)
}

fn numbers(alloc: Global, fails: Option<Numbers>) -> Numbers {
    match fails {
        Some(numbers) => numbers,
        None => Numbers::none(alloc),
    }
}

/// A source that gives at most so many bytes a read.
fn source(
    alloc: Global,
    commands: Option<Bytes>,
    fails: Option<Numbers>,
    reads: Option<usize>,
) -> SlowSource {
    let commands = commands.unwrap_or(Bytes::new(alloc));
    let inner = MemSource::new(commands, numbers(alloc, fails));
    SlowSource::new(inner, reads.unwrap_or(usize::MAX))
}

/// The lines of a result that all runs have.
fn begun(alloc: Global, name: &Text, status: Status) -> Result<String, NoMemory> {
    let mut out = String::new(alloc);
    writeln!(out, "case {}", name.as_str())?;
    writeln!(out, "status {}", status.code)?;
    Ok(out)
}

/// A result, with what the objects tell after it.
fn told(out: String, sink: &MemSink, sut: &MemSut, shows_calls: bool) -> Result<String, NoMemory> {
    let mut out = out;
    out.push_str("out\n")?;
    push_content(&mut out, sink.bytes())?;
    for entry in sut.entries() {
        push_sent(&mut out, entry)?;
    }
    writeln!(out, "hangups {}", sut.hang_ups())?;
    if shows_calls {
        writeln!(out, "calls {}", sut.entries().len())?;
    }
    out.push_str("end\n")?;
    Ok(out)
}

/// What a call sent, if it did.
fn push_sent(out: &mut String, entry: &SutEntry) -> Result<(), NoMemory> {
    if let SutCall::Send {
        end,
        bytes,
        ok: true,
    } = &entry.call
    {
        writeln!(out, "sent {end}")?;
        push_content(out, bytes.as_slice())?;
    }
    Ok(())
}
