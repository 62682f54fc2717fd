use crate::stop::{Stop, stop_at};
use sqlite_items::Items;
use std::alloc::Global;
use txs_case::{CaseFault, Entry, number_of, numbers_of, quoted_texts, split_word};
use txs_outside::{NamedFile, NamedFiles, Numbers, Script, ScriptEntry};
use txs_values::{Bytes, Text};

/// What one call of `top` is given. What may stand once is `None` until it does.
#[derive(Drop)]
pub struct Run {
    pub words: Option<Vec<String>>,
    pub files: NamedFiles,
    pub commands: Option<Bytes>,
    pub script: Script,
    pub fails: Fails,
    /// The most bytes that a read gives.
    pub reads: Option<usize>,
    /// Whether the objects never fail and tell nothing.
    pub is_sure: bool,
    /// Whether the number of calls of the system is told.
    pub shows_calls: bool,
}

/// The numbers of the calls that fail.
#[derive(Drop)]
pub struct Fails {
    pub files: Option<Numbers>,
    pub source: Option<Numbers>,
    pub sink: Option<Numbers>,
    pub sut: Option<Numbers>,
}

fn new_run(alloc: Global) -> Run {
    Run {
        words: None,
        files: Items::new(alloc),
        commands: None,
        script: Items::new(alloc),
        fails: Fails {
            files: None,
            source: None,
            sink: None,
            sut: None,
        },
        reads: None,
        is_sure: false,
        shows_calls: false,
    }
}

/// The whole run that these lines are.
pub fn run_of(alloc: Global, entries: &[Entry]) -> Result<Run, Stop> {
    let mut run = new_run(alloc);
    for entry in entries {
        if let Err(fault) = take(alloc, &mut run, entry) {
            return Err(stop_at(entry.number, fault));
        }
    }
    Ok(run)
}

/// Reads a line of a whole run.
fn take(alloc: Global, run: &mut Run, entry: &Entry) -> Result<(), CaseFault> {
    match entry.head.as_str() {
        "words" => set_once(&mut run.words, quoted_texts(alloc, entry.rest.as_str())?),
        "file" => take_file(alloc, &mut run.files, entry),
        "commands" => {
            entry.is_bare()?;
            set_once(&mut run.commands, entry.content.copy(alloc)?)
        }
        "fail" => take_fails(alloc, &mut run.fails, entry),
        "reads" => set_once(&mut run.reads, read_size(entry)?),
        "objects" => set_flag(&mut run.is_sure, entry, "sure"),
        "show" => set_flag(&mut run.shows_calls, entry, "calls"),
        _ => {
            run.script.push(script_entry(alloc, entry)?)?;
            Ok(())
        }
    }
}

/// A file, by its quoted name.
fn take_file(alloc: Global, files: &mut NamedFiles, entry: &Entry) -> Result<(), CaseFault> {
    let mut names = quoted_texts(alloc, entry.rest.as_str())?;
    let Some(name) = names.pop() else {
        return Err(CaseFault::Form);
    };
    if !names.is_empty() {
        return Err(CaseFault::Form);
    }
    files.push(NamedFile {
        name: Text::from_string(alloc, name)?,
        bytes: entry.content.copy(alloc)?,
    })?;
    Ok(())
}

/// An entry of the script.
fn script_entry(alloc: Global, entry: &Entry) -> Result<ScriptEntry, CaseFault> {
    match entry.head.as_str() {
        "piece" => {
            let end = end_of(entry)?;
            let bytes = entry.content.copy(alloc)?;
            Ok(ScriptEntry::Piece { end, bytes })
        }
        "quiet" => {
            entry.is_bare()?;
            Ok(ScriptEntry::Quiet)
        }
        "ended" => Ok(ScriptEntry::Ended {
            end: end_of(entry)?,
        }),
        _ => Err(CaseFault::Form),
    }
}

fn end_of(entry: &Entry) -> Result<u32, CaseFault> {
    let number = number_of(entry.rest.as_str())?;
    match u32::try_from(number) {
        Ok(end) => Ok(end),
        Err(_) => Err(CaseFault::Form),
    }
}

/// How many bytes a read gives at most: one or more.
fn read_size(entry: &Entry) -> Result<usize, CaseFault> {
    let number = number_of(entry.rest.as_str())?;
    if number == 0 {
        return Err(CaseFault::Form);
    }
    Ok(number as usize)
}

/// The numbers of the calls of one object that fail.
fn take_fails(alloc: Global, fails: &mut Fails, entry: &Entry) -> Result<(), CaseFault> {
    let (who, rest) = split_word(entry.rest.as_str());
    let numbers = Numbers::from_vec(numbers_of(alloc, rest)?);
    match who {
        "files" => set_once(&mut fails.files, numbers),
        "source" => set_once(&mut fails.source, numbers),
        "sink" => set_once(&mut fails.sink, numbers),
        "sut" => set_once(&mut fails.sut, numbers),
        _ => Err(CaseFault::Form),
    }
}

/// Sets what may stand once.
fn set_once<T: Drop>(place: &mut Option<T>, value: T) -> Result<(), CaseFault> {
    if place.is_some() {
        return Err(CaseFault::Form);
    }
    *place = Some(value);
    Ok(())
}

/// Sets what a line with this one word sets, once.
fn set_flag(flag: &mut bool, entry: &Entry, word: &str) -> Result<(), CaseFault> {
    if *flag || entry.rest.as_str() != word {
        return Err(CaseFault::Form);
    }
    *flag = true;
    Ok(())
}
