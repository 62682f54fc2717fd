ghost use Rattle.std.specs.Prelude.{◌≡◌};
ghost use Rattle.std.specs.List.{list_all};
ghost use Rattle.txs_words.specs.inner.Parsing.{are_digits, nonzero, number_read, port_read};
ghost use Rattle.txs_values.specs.Spelling;

use txs_values::is_digit;

fn all_digits(bytes: &[u8]) -> bool
    ensures { result ≡ list_all Spelling.is_digit bytes.now }
{
    for byte in bytes {
        if !is_digit(*byte) {
            return false;
        }
    }
    true
}

/// Whether a word is digits.
pub fn are_digits(word: &[u8]) -> bool
    ensures { result ≡ are_digits word.now }
{
    match word {
        [] => false,
        [_, ..] => all_digits(word),
    }
}

/// The number that digits spell.
pub fn number_of(word: &[u8]) -> Option<i128>
    ensures { result ≡ number_read word.now }
{
    if !are_digits(word) {
        return None;
    }
    match std::str::from_utf8(word) {
        Ok(text) => match text.parse::<i128>() {
            Ok(number) => Some(number),
            Err(_) => None,
        },
        Err(_) => unreachable!(),
    }
}

/// The port that digits spell.
pub fn port_of(word: &[u8]) -> Option<u16>
    ensures { result ≡ port_read word.now }
{
    if !are_digits(word) {
        return None;
    }
    match std::str::from_utf8(word) {
        Ok(text) => match text.parse::<u16>() {
            Ok(port) => nonzero(port),
            Err(_) => None,
        },
        Err(_) => unreachable!(),
    }
}

fn nonzero(port: u16) -> Option<u16>
    ensures { result ≡ nonzero port }
{
    if port == 0 { None } else { Some(port) }
}
