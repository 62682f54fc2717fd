//! Bytes of numbers and names.
ghost use Rattle.std.specs.Prelude.{◌≡◌, ◌≤◌, length};
ghost use Rattle.txs_values.specs.Spelling;
ghost use Rattle.txs_values.specs.Spelling.{run_of};

pub fn is_digit(byte: u8) -> bool
    ensures { result ≡ Spelling.is_digit byte }
{
    b'0' <= byte && byte <= b'9'
}

pub fn is_letter(byte: u8) -> bool
    ensures { result ≡ Spelling.is_letter byte }
{
    (b'A' <= byte && byte <= b'Z') || (b'a' <= byte && byte <= b'z')
}

/// A letter, a digit or `_`.
pub fn is_name_byte(byte: u8) -> bool
    ensures { result ≡ Spelling.is_name_byte byte }
{
    is_letter(byte) || is_digit(byte) || byte == b'_'
}

/// How many digits stand in front.
pub fn digits_len(bytes: &[u8]) -> usize
    ensures run { result ≡ length (run_of Spelling.is_digit bytes.now) }
    ensures within { result ≤ length bytes.now }
{
    let mut len = 0;
    for byte in bytes {
        if !is_digit(*byte) {
            break;
        }
        len += 1;
    }
    len
}
