//! What reading a text means.
ghost use Rattle.txs_laws.specs.Spellings.{ReadIsSpelled, SpelledIsOne, TextIsSpelling, WrittenIsRead, TablesAreReadable};

/// A text is read as the value that it spells.
pub fn read_is_spelled()
    ensures { ReadIsSpelled }
{}

/// The canonical text of a value is one of its spellings.
pub fn text_is_spelling()
    ensures { TextIsSpelling }
{}

/// What is written is read as what it was.
pub fn written_is_read()
    ensures { WrittenIsRead }
{}

/// A text spells at most one value of a type.
pub fn spelled_is_one()
    ensures { SpelledIsOne }
{}

/// The table of well typed definitions has texts that can be read.
pub fn tables_are_readable()
    ensures { TablesAreReadable }
{}
