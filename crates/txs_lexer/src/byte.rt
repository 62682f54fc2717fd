//! Kinds of bytes, and how long runs of them are.
ghost use Rattle.std.specs.Prelude.{◌≡◌, ◌≤◌, length, take, drop};
ghost use Rattle.txs_values.specs.Spelling;
ghost use Rattle.txs_values.specs.Spelling.{run_of};
ghost use Rattle.txs_lexer.specs.Scan;
ghost use Rattle.txs_lexer.specs.Tokens;

use txs_values::is_name_byte;

/// A space, a tab, a carriage return or a line feed.
pub fn is_blank(byte: u8) -> bool
    ensures { result ≡ Tokens.is_blank byte }
{
    byte == b' ' || byte == b'\t' || byte == b'\r' || byte == b'\n'
}

fn is_in_line(byte: u8) -> bool
    ensures { result ≡ Tokens.is_in_line byte }
{
    byte != b'\n'
}

/// A byte of a text in quotes that stands for itself.
pub fn is_plain(byte: u8) -> bool
    ensures { result ≡ Tokens.is_plain byte }
{
    byte != b'"' && byte != b'\\' && byte != b'\n'
}

pub fn begins_with(byte: u8, bytes: &[u8]) -> bool
    ensures { result ≡ Scan.begins_with byte bytes.now }
{
    match bytes {
        [] => false,
        [first, ..] => *first == byte,
    }
}

/// What stands behind the first `len` bytes.
pub fn past(bytes: &[u8], len: usize) -> &[u8]
    requires { len ≤ length bytes.now }
    ensures { result.now ≡ drop len bytes.now }
{
    &bytes[len..]
}

/// The first `len` bytes.
pub fn first(bytes: &[u8], len: usize) -> &[u8]
    requires { len ≤ length bytes.now }
    ensures { result.now ≡ take len bytes.now }
{
    &bytes[..len]
}

/// How many letters, digits and `_` stand in front.
pub fn name_len(bytes: &[u8]) -> usize
    ensures run { result ≡ length (run_of Spelling.is_name_byte bytes.now) }
    ensures within { result ≤ length bytes.now }
{
    let mut len = 0;
    for byte in bytes {
        if !is_name_byte(*byte) {
            break;
        }
        len += 1;
    }
    len
}

/// How many bytes stand before the end of the line.
pub fn line_len(bytes: &[u8]) -> usize
    ensures run { result ≡ length (run_of Tokens.is_in_line bytes.now) }
    ensures within { result ≤ length bytes.now }
{
    let mut len = 0;
    for byte in bytes {
        if !is_in_line(*byte) {
            break;
        }
        len += 1;
    }
    len
}
