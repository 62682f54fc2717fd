use crate::call::{Call, call_of};
use crate::stop::{Stop, stop_at};
use sqlite_items::Items;
use std::alloc::Global;
use txs_case::{CaseFault, Entry, number_of, quoted_words, split_word};
use txs_values::Bytes;

/// A call of one layer.
#[derive(Drop)]
pub struct Direct {
    pub definitions: Bytes,
    pub call: Call,
    /// The numbers that stand before the words: of a tree alone.
    pub from: u64,
    pub depth: u64,
    pub words: Items<Bytes>,
    pub content: Bytes,
    pub steps: Items<Step>,
}

/// A step of a trace.
#[derive(Drop)]
pub enum Step {
    Act(Bytes),
    Quiet,
}

impl Direct {
    /// The word of this number, from 0.
    pub fn word(&self, number: usize) -> &[u8] {
        match self.words.get(number) {
            Some(word) => word.as_slice(),
            None => &[],
        }
    }
}

/// Whether one of the lines is a call of a layer.
pub fn is_direct(entries: &[Entry]) -> bool {
    entries.iter().any(|entry| is_call(entry))
}

/// Whether a line is a call. A `file` with a name is none.
fn is_call(entry: &Entry) -> bool {
    match call_of(entry.head.as_str()) {
        Some((Call::File, _)) => entry.rest.as_str().is_empty(),
        Some(_) => true,
        None => false,
    }
}

/// The call that these lines are; a case without one is bad at its end.
pub fn direct_of(alloc: Global, entries: &[Entry], end: u64) -> Result<Direct, Stop> {
    let mut definitions = None;
    let mut call = None;
    for entry in entries {
        if let Err(fault) = take(alloc, &mut definitions, &mut call, entry) {
            return Err(stop_at(entry.number, fault));
        }
    }
    match call {
        Some(direct) => Ok(Direct {
            definitions: definitions.unwrap_or(Bytes::new(alloc)),
            ..direct
        }),
        None => Err(Stop::BadLine(end)),
    }
}

/// Reads a line of a call.
fn take(
    alloc: Global,
    definitions: &mut Option<Bytes>,
    call: &mut Option<Direct>,
    entry: &Entry,
) -> Result<(), CaseFault> {
    if entry.is("define") {
        return take_definitions(alloc, definitions, entry);
    }
    match call {
        Some(direct) => take_step(alloc, direct, entry),
        None => {
            *call = Some(called(alloc, entry)?);
            Ok(())
        }
    }
}

fn take_definitions(
    alloc: Global,
    definitions: &mut Option<Bytes>,
    entry: &Entry,
) -> Result<(), CaseFault> {
    entry.is_bare()?;
    if definitions.is_some() {
        return Err(CaseFault::Form);
    }
    *definitions = Some(entry.content.copy(alloc)?);
    Ok(())
}

/// Reads a line after a call: a step of a trace.
fn take_step(alloc: Global, direct: &mut Direct, entry: &Entry) -> Result<(), CaseFault> {
    match direct.call {
        Call::Members => {
            direct.steps.push(step_of(alloc, entry)?)?;
            Ok(())
        }
        _ => Err(CaseFault::Form),
    }
}

fn step_of(alloc: Global, entry: &Entry) -> Result<Step, CaseFault> {
    if entry.is("quiet") {
        entry.is_bare()?;
        return Ok(Step::Quiet);
    }
    if !entry.is("act") {
        return Err(CaseFault::Form);
    }
    let mut words = words_of(alloc, entry.rest.as_str(), 1)?;
    match words.pop() {
        Some(word) => Ok(Step::Act(word)),
        None => Err(CaseFault::Form),
    }
}

/// The quoted words of a text, which are so many.
fn words_of(alloc: Global, text: &str, count: usize) -> Result<Items<Bytes>, CaseFault> {
    let words = quoted_words(alloc, text)?;
    if words.len() == count {
        Ok(words)
    } else {
        Err(CaseFault::Form)
    }
}

/// The call of a line, without definitions.
fn called(alloc: Global, entry: &Entry) -> Result<Direct, CaseFault> {
    let Some((call, count)) = call_of(entry.head.as_str()) else {
        return Err(CaseFault::Form);
    };
    let mut rest = entry.rest.as_str();
    let mut from = 0;
    let mut depth = 0;
    if let Call::Tree = call {
        let (first, others) = split_word(rest);
        let (second, others) = split_word(others);
        from = number_of(first)?;
        depth = number_of(second)?;
        rest = others;
    }
    Ok(Direct {
        definitions: Bytes::new(alloc),
        call,
        from,
        depth,
        words: words_of(alloc, rest, count)?,
        content: entry.content.copy(alloc)?,
        steps: Items::new(alloc),
    })
}
