ghost use Rattle.std.specs.Prelude.{◌≡◌, ◌≤◌, ◌&&◌, map, length, MatchOption, None, Some};
ghost use Rattle.txs_words.specs.inner.FileWords.{are_same, front_words, in_words, kept, out_words, file_words_of, placed, taken_apart, word_at};

use txs_values::Bytes;

/// The words that a file may choose.
#[derive(Clone, Copy)]
pub struct FileWords<'a> {
    pub chandef: &'a [u8],
    pub input: &'a [u8],
    pub output: &'a [u8],
    pub name: &'a [u8],
    pub behaviour: &'a [Bytes],
    pub link: &'a [u8],
    /// With its quotes.
    pub host: &'a [u8],
    pub port_out: &'a [u8],
    pub port_in: &'a [u8],
    pub sent: &'a [u8],
    pub heard: &'a [u8],
}

/// How many words stand before a behaviour, and after it.
const FRONT: usize = 19;

const BACK: usize = 40;

const OUT: usize = 22;

fn word_at(words: &[Bytes], place: usize) -> &[u8]
    ensures { result.now ≡ word_at words.now place }
{
    let mut rest = words;
    let mut left = place;
    while let [first, others @ ..] = rest {
        if left == 0 {
            return first.as_slice();
        }
        left -= 1;
        rest = others;
    }
    "".as_bytes()
}

fn placed<'a>(front: &'a [Bytes], behaviour: &'a [Bytes], back: &'a [Bytes]) -> FileWords<'a>
    ensures { file_words_of result ≡ placed front.now behaviour.now back.now }
{
    FileWords {
        chandef: word_at(front, 1),
        input: word_at(front, 3),
        output: word_at(front, 5),
        name: word_at(front, 10),
        behaviour,
        link: word_at(back, 2),
        host: word_at(back, 9),
        port_out: word_at(back, 11),
        port_in: word_at(back, 28),
        sent: word_at(back, 15),
        heard: word_at(back, 34),
    }
}

fn are_words(words: &[Bytes], wanted: &[&[u8]]) -> bool
    ensures { result ≡ are_same words.now (map (λ w. w.now) wanted.now) }
{
    match words {
        [] => wanted.is_empty(),
        [word, words @ ..] => match wanted {
            [] => false,
            [first, wanted @ ..] => word.as_slice() == *first && are_words(words, wanted),
        },
    }
}

fn is_front(words: &[Bytes], file: FileWords<'_>) -> bool
    ensures { result ≡ are_same words.now (front_words (file_words_of file.entry)) }
{
    let wanted: [&[u8]; FRONT] = [
        "CHANDEF".as_bytes(),
        file.chandef,
        "::=".as_bytes(),
        file.input,
        ",".as_bytes(),
        file.output,
        "::".as_bytes(),
        "Int".as_bytes(),
        "ENDDEF".as_bytes(),
        "MODELDEF".as_bytes(),
        file.name,
        "::=".as_bytes(),
        "CHAN".as_bytes(),
        "IN".as_bytes(),
        file.input,
        "CHAN".as_bytes(),
        "OUT".as_bytes(),
        file.output,
        "BEHAVIOUR".as_bytes(),
    ];
    are_words(words, &wanted)
}

fn is_out(words: &[Bytes], file: FileWords<'_>) -> bool
    ensures { result ≡ are_same words.now (out_words (file_words_of file.entry)) }
{
    let wanted: [&[u8]; OUT] = [
        "ENDDEF".as_bytes(),
        "CNECTDEF".as_bytes(),
        file.link,
        "::=".as_bytes(),
        "CLIENTSOCK".as_bytes(),
        "CHAN".as_bytes(),
        "OUT".as_bytes(),
        file.input,
        "HOST".as_bytes(),
        file.host,
        "PORT".as_bytes(),
        file.port_out,
        "ENCODE".as_bytes(),
        file.input,
        "?".as_bytes(),
        file.sent,
        "->".as_bytes(),
        "!".as_bytes(),
        "toString".as_bytes(),
        "(".as_bytes(),
        file.sent,
        ")".as_bytes(),
    ];
    are_words(words, &wanted)
}

fn is_in(words: &[Bytes], file: FileWords<'_>) -> bool
    ensures { result ≡ are_same words.now (in_words (file_words_of file.entry)) }
{
    let wanted: [&[u8]; BACK - OUT] = [
        "CHAN".as_bytes(),
        "IN".as_bytes(),
        file.output,
        "HOST".as_bytes(),
        file.host,
        "PORT".as_bytes(),
        file.port_in,
        "DECODE".as_bytes(),
        file.output,
        "!".as_bytes(),
        "fromString".as_bytes(),
        "(".as_bytes(),
        file.heard,
        ")".as_bytes(),
        "<-".as_bytes(),
        "?".as_bytes(),
        file.heard,
        "ENDDEF".as_bytes(),
    ];
    are_words(words, &wanted)
}

fn is_form(front: &[Bytes], outward: &[Bytes], inward: &[Bytes], file: FileWords<'_>) -> bool
    ensures { result ≡ (are_same front.now (front_words (file_words_of file.entry)) && (are_same outward.now (out_words (file_words_of file.entry)) && are_same inward.now (in_words (file_words_of file.entry)))) }
{
    is_front(front, file) && is_out(outward, file) && is_in(inward, file)
}

fn kept<'a>(front: &'a [Bytes], behaviour: &'a [Bytes], back: &'a [Bytes]) -> Option<FileWords<'a>>
    requires { 22 ≤ length back.now }
    ensures { MatchOption result (kept front.now behaviour.now back.now ≡ None) (λ file. kept front.now behaviour.now back.now ≡ Some (file_words_of file)) }
{
    let file = placed(front, behaviour, back);
    let (outward, inward) = back.split_at(OUT);
    if is_form(front, outward, inward, file) {
        Some(file)
    } else {
        None
    }
}

/// The words that a file may choose, if all others are those of the form.
pub fn take_apart(words: &[Bytes]) -> Option<FileWords<'_>>
    ensures { MatchOption result (taken_apart words.now ≡ None) (λ file. taken_apart words.now ≡ Some (file_words_of file)) }
{
    if words.len() < FRONT + BACK {
        return None;
    }
    let (front, rest) = words.split_at(FRONT);
    let (behaviour, back) = rest.split_at(rest.len() - BACK);
    kept(front, behaviour, back)
}
