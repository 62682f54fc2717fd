use crate::refusal::Refusal;
use std::alloc::{AllocError, Global};
use std::fmt::Write;
use txs_case::push_quoted;
use txs_lexer::{Kind, Token, lex};

/// The reserved words, in the order of their numbers.
const WORDS: [&str; 40] = [
    "TYPEDEF",
    "FUNCDEF",
    "CONSTDEF",
    "CHANDEF",
    "PROCDEF",
    "STAUTDEF",
    "MODELDEF",
    "PURPDEF",
    "CNECTDEF",
    "ENDDEF",
    "CHAN",
    "IN",
    "OUT",
    "SYNC",
    "BEHAVIOUR",
    "STATE",
    "VAR",
    "INIT",
    "TRANS",
    "GOAL",
    "CLIENTSOCK",
    "SERVERSOCK",
    "HOST",
    "PORT",
    "ENCODE",
    "DECODE",
    "STOP",
    "EXIT",
    "HIT",
    "MISS",
    "ISTEP",
    "ACCEPT",
    "NI",
    "HIDE",
    "LET",
    "IF",
    "THEN",
    "ELSE",
    "FI",
    "QUIET",
];

/// The symbols, in the order of their numbers.
const SYMBOLS: [&str; 44] = [
    "::=", ">->", ">>>", "[>>", "[><", "|||", "||", "|[", "]|", "##", "[[", "]]", "=>>", "->",
    "<-", "::", ":=", "==", "<>", "<=", ">=", "<", ">", "++", "+", "-", "*", "/", "%", "/\\",
    "\\/", "=", "!", "?", "|", "#", "(", ")", "[", "]", "{", "}", ",", ";",
];

/// The tokens of a text, one a line.
pub fn tokens(alloc: Global, text: &[u8]) -> Result<String, Refusal> {
    let tokens = lex(alloc, text)?;
    let mut out = String::new(alloc);
    for token in tokens.as_slice() {
        push_token(&mut out, token)?;
    }
    Ok(out)
}

/// The line of a token.
fn push_token(out: &mut String, token: &Token) -> Result<(), AllocError> {
    push_kind(out, &token.kind)?;
    writeln!(out, " {} {}", token.from, token.to)
}

fn push_kind(out: &mut String, kind: &Kind) -> Result<(), AllocError> {
    match kind {
        Kind::Name(text) => {
            out.push_str("name ")?;
            out.push_str(text.as_str())
        }
        Kind::Word(number) => {
            out.push_str("word ")?;
            out.push_str(name_of(&WORDS, *number))
        }
        Kind::Number(value) => write!(out, "number {value}"),
        Kind::Quoted(text) => {
            out.push_str("quoted ")?;
            push_quoted(out, text.as_bytes())
        }
        Kind::Symbol(number) => {
            out.push_str("symbol ")?;
            out.push_str(name_of(&SYMBOLS, *number))
        }
    }
}

fn name_of<'a>(names: &[&'a str], number: u32) -> &'a str {
    match names.get(number as usize) {
        Some(name) => *name,
        None => "unknown",
    }
}
