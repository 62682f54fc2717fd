use std::alloc::AllocError;

/// Bytes as content lines.
pub fn push_content(out: &mut String, bytes: &[u8]) -> Result<(), AllocError> {
    for line in bytes.split_inclusive(|byte| *byte == b'\n') {
        push_content_line(out, line)?;
    }
    Ok(())
}

/// A line of content, with its line feed or without.
fn push_content_line(out: &mut String, line: &[u8]) -> Result<(), AllocError> {
    match line {
        [front @ .., b'\n'] if are_printable(front) => {
            out.push_str("| ")?;
            push_plain(out, front)?;
        }
        _ => {
            out.push_str("q ")?;
            push_quoted(out, line)?;
        }
    }
    out.push('\n')
}

/// A line of a result, given without its line feed: as it stands if it is printable ASCII, and quoted if not.
pub fn push_line(out: &mut String, line: &[u8]) -> Result<(), AllocError> {
    if are_printable(line) {
        push_plain(out, line)?;
    } else {
        out.push_str("q ")?;
        push_quoted(out, line)?;
    }
    out.push('\n')
}

fn push_plain(out: &mut String, bytes: &[u8]) -> Result<(), AllocError> {
    for byte in bytes {
        out.push(char::from(*byte))?;
    }
    Ok(())
}

/// Bytes as a quoted word.
pub fn push_quoted(out: &mut String, bytes: &[u8]) -> Result<(), AllocError> {
    out.push('"')?;
    for byte in bytes {
        push_byte(out, *byte)?;
    }
    out.push('"')
}

/// A byte between quotes.
fn push_byte(out: &mut String, byte: u8) -> Result<(), AllocError> {
    match byte {
        b'\n' => out.push_str("\\n"),
        b'\r' => out.push_str("\\r"),
        b'\t' => out.push_str("\\t"),
        b'"' => out.push_str("\\\""),
        b'\\' => out.push_str("\\\\"),
        _ if is_printable(byte) => out.push(char::from(byte)),
        _ => {
            out.push_str("\\x")?;
            out.push(digit(byte / 16))?;
            out.push(digit(byte % 16))
        }
    }
}

/// The lower-case hexadecimal digit of a number below 16.
fn digit(number: u8) -> char {
    if number < 10 {
        char::from(b'0'.saturating_add(number))
    } else {
        char::from(b'W'.saturating_add(number))
    }
}

fn are_printable(bytes: &[u8]) -> bool {
    bytes.iter().all(|byte| is_printable(*byte))
}

fn is_printable(byte: u8) -> bool {
    (0x20..=0x7e).contains(&byte)
}
