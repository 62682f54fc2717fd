use crate::fault::CaseFault;
use sqlite_items::Items;
use std::alloc::Global;
use txs_values::{Bytes, Text};

/// A line of a case that is no content, with the content after it.
#[derive(Drop)]
pub struct Entry {
    /// The number of the line, from 1.
    pub number: u64,
    /// Its first word.
    pub head: Text,
    /// What stands after the first word and a blank.
    pub rest: Text,
    pub content: Bytes,
}

/// The lines of a case that are no content, in order.
pub type Entries = Items<Entry>;

impl Entry {
    /// A line that has no content yet.
    pub(crate) fn new(alloc: Global, number: u64, line: &str) -> Result<Entry, CaseFault> {
        let (head, rest) = line.split_once(' ').unwrap_or((line, ""));
        Ok(Entry {
            number,
            head: Text::from_str(alloc, head)?,
            rest: Text::from_str(alloc, rest)?,
            content: Bytes::new(alloc),
        })
    }

    /// Whether content may come after it.
    pub(crate) fn takes_content(&self) -> bool {
        WITH_CONTENT.iter().any(|word| *word == self.head.as_str())
    }

    /// Whether the first word is this.
    pub fn is(&self, word: &str) -> bool {
        self.head.as_str() == word
    }

    /// That nothing stands after the first word.
    pub fn is_bare(&self) -> Result<(), CaseFault> {
        if self.rest.as_str().is_empty() {
            Ok(())
        } else {
            Err(CaseFault::Form)
        }
    }
}

/// The words after which content may come.
const WITH_CONTENT: [&str; 5] = ["file", "commands", "piece", "define", "tokens"];
