ghost use Rattle.std.specs.Prelude.{◌≡◌, eqb, ◌<◌, Option, List, ℕ, position, length, IfSome};
ghost use Rattle.std.specs.Option.{option_map};
ghost use Rattle.std.specs.Borrow.{Bor};
ghost use Rattle.txs_values.specs.Spelling;
ghost use Rattle.txs_values.specs.Spelling.{past_blanks};
ghost use Rattle.txs_session.specs.Parts.{stripped, cut_at, word_cut};

fn is_blank(b: u8) -> bool
    ensures { result ≡ Spelling.is_blank b }
{
    b == b' ' || b == b'\t'
}

fn skip_front(bytes: &[u8]) -> &[u8]
    ensures { result.now ≡ past_blanks bytes.now }
{
    let mut rest = bytes;
    while let [first, others @ ..] = rest {
        if !is_blank(*first) {
            break;
        }
        rest = others;
    }
    rest
}

/// The bytes without the blanks at both ends.
pub fn strip(bytes: &[u8]) -> &[u8]
    ensures { result.now ≡ stripped bytes.now }
{
    let mut rest = skip_front(bytes);
    while let [others @ .., last] = rest {
        if !is_blank(*last) {
            break;
        }
        rest = others;
    }
    rest
}

fn place_of(bytes: &[u8], c: u8) -> Option<usize>
    ensures place { result ≡ position (λ b. eqb b c) bytes.now }
    ensures within { IfSome result (λ at. at < length bytes.now) }
{
    bytes.iter().position(|b| *b == c)
}

fn place_of_blank(bytes: &[u8]) -> Option<usize>
    ensures place { result ≡ position Spelling.is_blank bytes.now }
    ensures within { IfSome result (λ at. at < length bytes.now) }
{
    bytes.iter().position(|b| is_blank(*b))
}

/// The parts before and after the first such byte.
pub fn cut(bytes: &[u8], c: u8) -> Option<(&[u8], &[u8])>
    ensures { option_map (λ p. (p.0.now, p.1.now)) result ≡ cut_at c bytes.now }
{
    match place_of(bytes, c) {
        Some(at) => {
            let (front, _) = bytes.split_at(at);
            let (_, behind) = bytes.split_at(at + 1);
            Some((front, behind))
        }
        None => None,
    }
}

/// The first word, and what stands after the blank after it.
pub fn cut_word(bytes: &[u8]) -> (&[u8], &[u8])
    ensures word { result.0.now ≡ (word_cut bytes.now).0 }
    ensures rest { result.1.now ≡ (word_cut bytes.now).1 }
{
    match place_of_blank(bytes) {
        Some(at) => {
            let (word, _) = bytes.split_at(at);
            let (_, rest) = bytes.split_at(at + 1);
            (word, rest)
        }
        None => (bytes, "".as_bytes()),
    }
}
