use sqlite_items::Items;
use txs_values::Text;

/// What a token is. A reserved word and a symbol are told by their numbers (`word`, `symbol`); a quoted text stands without its quotes, each escape replaced by the character that it stands for.
#[derive(Debug, Drop)]
pub enum Kind {
    Name(Text),
    Word(u32),
    Number(i128),
    Quoted(Text),
    Symbol(u32),
}

/// A token, and the bytes of the text that it takes: from `from` up to `to`, which is no longer part of it.
#[derive(Debug, Drop)]
pub struct Token {
    pub kind: Kind,
    pub from: usize,
    pub to: usize,
}

/// Tokens in the order of the text.
pub type Tokens = Items<Token>;
