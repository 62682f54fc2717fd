ghost use Rattle.std.specs.Prelude.{◌≡◌, ◌<◌, IfSome, bytes_eq, length};
ghost use Rattle.std.specs.List.{position};
ghost use Rattle.txs_lexer.specs.Scan.{word_number, symbol_number};

use crate::byte::first;

/// The reserved words; the places are the numbers of `word`.
pub const WORDS: [&str; 40] = [
    "TYPEDEF",
    "FUNCDEF",
    "CONSTDEF",
    "CHANDEF",
    "PROCDEF",
    "STAUTDEF",
    "MODELDEF",
    "PURPDEF",
    "CNECTDEF",
    "ENDDEF",
    "CHAN",
    "IN",
    "OUT",
    "SYNC",
    "BEHAVIOUR",
    "STATE",
    "VAR",
    "INIT",
    "TRANS",
    "GOAL",
    "CLIENTSOCK",
    "SERVERSOCK",
    "HOST",
    "PORT",
    "ENCODE",
    "DECODE",
    "STOP",
    "EXIT",
    "HIT",
    "MISS",
    "ISTEP",
    "ACCEPT",
    "NI",
    "HIDE",
    "LET",
    "IF",
    "THEN",
    "ELSE",
    "FI",
    "QUIET",
];

/// The symbols; the places are the numbers of `symbol`.
pub const SYMBOLS: [&str; 44] = [
    "::=", ">->", ">>>", "[>>", "[><", "|||", "||", "|[", "]|", "##", "[[", "]]", "=>>", "->",
    "<-", "::", ":=", "==", "<>", "<=", ">=", "<", ">", "++", "+", "-", "*", "/", "%", "/\\",
    "\\/", "=", "!", "?", "|", "#", "(", ")", "[", "]", "{", "}", ",", ";",
];

fn is(text: &str, bytes: &[u8]) -> bool
    ensures { result ≡ bytes_eq text.now bytes.now }
{
    text.as_bytes() == bytes
}

/// The place of the bytes in a list.
fn place(texts: &[&str], bytes: &[u8]) -> Option<usize>
    ensures place { result ≡ position (λ text. bytes_eq text.now bytes.now) texts.now }
    ensures within { IfSome result (λ k. k < length texts.now) }
{
    texts.iter().position(|&text| is(text, bytes))
}

/// The number of the reserved word that this name is.
pub fn word_number(name: &[u8]) -> Option<usize>
    ensures number { result ≡ word_number name.now }
    ensures within { IfSome result (λ k. k < 40) }
{
    place(&WORDS, name)
}

/// The number of the symbol that the first `len` bytes are.
pub fn symbol_number(text: &[u8], len: usize) -> Option<usize>
    ensures number { result ≡ symbol_number len text.now }
    ensures within { IfSome result (λ k. k < 44) }
{
    if text.len() < len {
        return None;
    }
    place(&SYMBOLS, first(text, len))
}
