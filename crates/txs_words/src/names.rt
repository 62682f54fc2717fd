ghost use Rattle.std.specs.Prelude.{◌≡◌, map, IfOk};
ghost use Rattle.std.specs.List.{list_all};
ghost use Rattle.txs_words.specs.Form;
ghost use Rattle.txs_words.specs.Form.{IsName};
ghost use Rattle.txs_words.specs.inner.Parsing.{Reads, is_listed, name_read};
ghost use Rattle.txs_values.specs.Spelling;

use crate::LoadFault;
use std::alloc::Global;
use txs_values::{NoMemory, Text, is_letter, is_name_byte};

const RESERVED: [&str; 40] = [
    "TYPEDEF",
    "FUNCDEF",
    "CONSTDEF",
    "CHANDEF",
    "PROCDEF",
    "STAUTDEF",
    "MODELDEF",
    "PURPDEF",
    "CNECTDEF",
    "ENDDEF",
    "CHAN",
    "IN",
    "OUT",
    "SYNC",
    "BEHAVIOUR",
    "STATE",
    "VAR",
    "INIT",
    "TRANS",
    "GOAL",
    "CLIENTSOCK",
    "SERVERSOCK",
    "HOST",
    "PORT",
    "ENCODE",
    "DECODE",
    "STOP",
    "EXIT",
    "HIT",
    "MISS",
    "ISTEP",
    "ACCEPT",
    "NI",
    "HIDE",
    "LET",
    "IF",
    "THEN",
    "ELSE",
    "FI",
    "QUIET",
];

fn are_name_bytes(bytes: &[u8]) -> bool
    ensures { result ≡ list_all Spelling.is_name_byte bytes.now }
{
    for byte in bytes {
        if !is_name_byte(*byte) {
            return false;
        }
    }
    true
}

fn is_worded(word: &[u8]) -> bool
    ensures { result ≡ Form.is_worded word.now }
{
    match word {
        [] => false,
        [first, others @ ..] => is_letter(*first) && are_name_bytes(others),
    }
}

fn is_listed(word: &[u8], words: &[&str]) -> bool
    ensures { result ≡ is_listed word.now (map (λ w. w.now) words.now) }
{
    for listed in words {
        if listed.as_bytes() == word {
            return true;
        }
    }
    false
}

/// Whether a word is no name though it is spelled as one.
fn is_reserved(word: &[u8]) -> bool
    ensures { result ≡ is_listed word.now Form.reserved }
{
    is_listed(word, &RESERVED)
}

/// Whether a word is a name.
pub fn is_name(word: &[u8]) -> bool
    ensures { result ≡ Form.is_name word.now }
{
    is_worded(word) && !is_reserved(word)
}

/// A word that is a name, as a text.
pub fn known_name(alloc: Global, word: &[u8]) -> Result<Text, NoMemory>
    requires { IsName word.now }
    ensures { IfOk result (λ name. name ≡ word.now) }
{
    match std::str::from_utf8(word) {
        Ok(text) => Text::from_str(alloc, text),
        Err(_) => unreachable!(),
    }
}

/// A name as a text.
pub fn name_text(alloc: Global, word: &[u8]) -> Result<Text, LoadFault>
    ensures { Reads (λ name. name) result (name_read word.now) }
{
    if !is_name(word) {
        return Err(LoadFault::Later);
    }
    Ok(known_name(alloc, word)?)
}
