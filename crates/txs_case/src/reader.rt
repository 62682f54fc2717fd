use crate::entry::{Entries, Entry};
use crate::fault::CaseFault;
use crate::quoted::quoted_whole;
use sqlite_items::Items;
use std::alloc::Global;
use std::mem;
use txs_values::Text;

/// The lines of a case, and the number of the one that ends it.
#[derive(Drop)]
pub struct Lines {
    pub name: Text,
    pub entries: Entries,
    pub end: u64,
}

/// Reads a case file line by line.
#[derive(Drop)]
pub struct Reader {
    alloc: Global,
    /// The number of the last line.
    number: u64,
    /// The name of the case that was begun and has not ended.
    name: Option<Text>,
    entries: Entries,
    /// Whether content may come next.
    is_open: bool,
}

impl Reader {
    pub fn new(alloc: Global) -> Reader {
        Reader {
            alloc,
            number: 0,
            name: None,
            entries: Items::new(alloc),
            is_open: false,
        }
    }

    /// Reads a line, with or without its line feed, and answers the case that it ends.
    pub fn take(&mut self, line: &[u8]) -> Result<Option<Lines>, CaseFault> {
        self.number = self.number.saturating_add(1);
        let line = line.strip_suffix(b"\n").unwrap_or(line);
        if self.name.is_some() {
            self.take_within(line)
        } else {
            self.begin(line)?;
            Ok(None)
        }
    }

    /// What was read of a case that has not ended, at a line after all those read, or at the last one.
    pub fn left(&mut self) -> Option<Lines> {
        let end = self.number;
        match self.name.take() {
            Some(name) => Some(Lines {
                name,
                entries: mem::replace(&mut self.entries, Items::new(self.alloc)),
                end,
            }),
            None => None,
        }
    }

    /// The number of the last line read.
    pub fn number(&self) -> u64 {
        self.number
    }

    /// Reads a line outside cases.
    fn begin(&mut self, line: &[u8]) -> Result<(), CaseFault> {
        if is_passed_over(line) {
            return Ok(());
        }
        let name = name_of(self.alloc, text_of(line)?)?;
        self.name = Some(name);
        self.is_open = false;
        Ok(())
    }

    /// Reads a line of a case.
    fn take_within(&mut self, line: &[u8]) -> Result<Option<Lines>, CaseFault> {
        match line {
            b"end" => Ok(self.left()),
            [b'|', b' ', text @ ..] => {
                self.add(text)?;
                self.add(b"\n")?;
                Ok(None)
            }
            [b'q', b' ', text @ ..] => {
                let bytes = quoted_whole(self.alloc, text)?;
                self.add(bytes.as_slice())?;
                Ok(None)
            }
            _ => {
                self.take_entry(line)?;
                Ok(None)
            }
        }
    }

    /// Adds to the content of the last line that is none.
    fn add(&mut self, more: &[u8]) -> Result<(), CaseFault> {
        if !self.is_open {
            return Err(CaseFault::Form);
        }
        match self.entries.pop() {
            Some(mut entry) => {
                entry.content.extend(more)?;
                self.entries.push(entry)?;
                Ok(())
            }
            None => Err(CaseFault::Form),
        }
    }

    /// Reads a line of a case that is no content.
    fn take_entry(&mut self, line: &[u8]) -> Result<(), CaseFault> {
        self.is_open = false;
        if is_passed_over(line) {
            return Ok(());
        }
        let entry = Entry::new(self.alloc, self.number, text_of(line)?)?;
        self.is_open = entry.takes_content();
        self.entries.push(entry)?;
        Ok(())
    }
}

/// The name of the case that a line outside cases begins.
fn name_of(alloc: Global, line: &str) -> Result<Text, CaseFault> {
    let Some(name) = line.strip_prefix("case ") else {
        return Err(CaseFault::Form);
    };
    if name.is_empty() || name.contains(' ') {
        return Err(CaseFault::Form);
    }
    Ok(Text::from_str(alloc, name)?)
}

/// Whether a line outside content is blank or a comment.
fn is_passed_over(line: &[u8]) -> bool {
    match line {
        [b'#', ..] => true,
        _ => line.iter().all(|byte| *byte == b' ' || *byte == b'\t'),
    }
}

fn text_of(line: &[u8]) -> Result<&str, CaseFault> {
    match str::from_utf8(line) {
        Ok(text) => Ok(text),
        Err(_) => Err(CaseFault::Form),
    }
}
