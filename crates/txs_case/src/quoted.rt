ghost use Rattle.std.specs.Prelude.{◌<◌, length, IfOk};

use crate::fault::CaseFault;
use sqlite_items::Items;
use std::alloc::Global;
use txs_values::Bytes;

/// The bytes of the quoted word that a text begins with, and what stands after it.
pub fn quoted(alloc: Global, text: &[u8]) -> Result<(Vec<u8>, &[u8]), CaseFault>
    ensures { IfOk result (λ it. length it.1.now < length text.now) }
{
    let [b'"', rest @ ..] = text else {
        return Err(CaseFault::Form);
    };
    let mut rest = rest;
    let mut bytes = Vec::new(alloc);
    loop {
        let [first, behind @ ..] = rest else {
            return Err(CaseFault::Form);
        };
        match *first {
            b'"' => return Ok((bytes, behind)),
            b'\\' => {
                let (byte, after) = escaped(behind)?;
                bytes.push(byte)?;
                rest = after;
            }
            byte => {
                bytes.push(byte)?;
                rest = behind;
            }
        }
    }
}

/// The byte that an escape names after its backslash, and what stands after the escape.
fn escaped(text: &[u8]) -> Result<(u8, &[u8]), CaseFault>
    ensures { IfOk result (λ it. length it.1.now < length text.now) }
{
    match text {
        [b'n', after @ ..] => Ok((b'\n', after)),
        [b'r', after @ ..] => Ok((b'\r', after)),
        [b't', after @ ..] => Ok((b'\t', after)),
        [b'"', after @ ..] => Ok((b'"', after)),
        [b'\\', after @ ..] => Ok((b'\\', after)),
        [b'x', high, low, after @ ..] => Ok((digit(*high)? * 16 + digit(*low)?, after)),
        _ => Err(CaseFault::Form),
    }
}

/// The value of a lower-case hexadecimal digit.
fn digit(byte: u8) -> Result<u8, CaseFault>
    ensures { IfOk result (λ d. d < 16) }
{
    match byte {
        b'0'..=b'9' => Ok(byte - b'0'),
        b'a'..=b'f' => Ok(byte - b'a' + 10),
        _ => Err(CaseFault::Form),
    }
}

/// The bytes of a text that is one quoted word.
pub fn quoted_whole(alloc: Global, text: &[u8]) -> Result<Vec<u8>, CaseFault> {
    let (bytes, after) = quoted(alloc, text)?;
    if after.is_empty() {
        Ok(bytes)
    } else {
        Err(CaseFault::Form)
    }
}

/// The bytes of the quoted words of a line, which blanks part.
pub fn quoted_words(alloc: Global, line: &str) -> Result<Items<Bytes>, CaseFault> {
    let mut words = Items::new(alloc);
    let mut rest = line.as_bytes();
    while let [first, after @ ..] = rest {
        if *first == b' ' {
            rest = after;
            continue;
        }
        let (bytes, behind) = quoted(alloc, rest)?;
        words.push(Bytes::from_vec(bytes))?;
        rest = behind;
    }
    Ok(words)
}

/// The quoted words of a line, each of which is UTF-8.
pub fn quoted_texts(alloc: Global, line: &str) -> Result<Vec<String>, CaseFault> {
    let mut texts = Vec::new(alloc);
    for word in quoted_words(alloc, line)?.as_slice() {
        texts.push(text_of(alloc, word.as_slice())?)?;
    }
    Ok(texts)
}

fn text_of(alloc: Global, bytes: &[u8]) -> Result<String, CaseFault> {
    match str::from_utf8(bytes) {
        Ok(text) => Ok(String::from_str(alloc, text)?),
        Err(_) => Err(CaseFault::Form),
    }
}
