ghost use Rattle.std.specs.Prelude.{◌≡◌, ◌++◌, ◌∷◌, List, ℕ, IfOk, OnOk};
ghost use Rattle.txs_words.specs.Form;
ghost use Rattle.txs_words.specs.Form.{words_of};
ghost use Rattle.txs_words.specs.inner.Parsing.{HasNoGap};

use sqlite_items::Items;
use std::alloc::Global;
use std::mem;
use txs_values::{Bytes, NoMemory};

/// A space, a tab, a line feed or a carriage return.
fn is_gap(byte: u8) -> bool
    ensures { result ≡ Form.is_gap byte }
{
    byte == b' ' || byte == b'\t' || byte == b'\n' || byte == b'\r'
}

/// Takes a byte: a gap ends the word under way.
#[tactic(auto, using(crate::proofs::Wording::wording))]
fn add_byte(
    alloc: Global,
    words: &mut Items<Bytes>,
    word: &mut Bytes,
    byte: u8,
) -> Result<(), NoMemory>
    requires { HasNoGap word.old }
    ensures words { OnOk result ((rest : List ℕ) → words.new ++ words_of (word.new ++ rest) ≡ words.old ++ words_of (word.old ++ byte ∷ rest)) }
    ensures word { OnOk result (HasNoGap word.new) }
{
    if !is_gap(byte) {
        word.push(byte)?;
        return Ok(());
    }
    if word.len() == 0 {
        return Ok(());
    }
    let finished = mem::replace(word, Bytes::new(alloc));
    words.push(finished)?;
    Ok(())
}

/// Takes the last word, if there is one.
#[tactic(auto, using(crate::proofs::Wording::wording))]
fn add_last(words: &mut Items<Bytes>, word: Bytes) -> Result<(), NoMemory>
    requires { HasNoGap word }
    ensures { OnOk result (words.new ≡ words.old ++ words_of word) }
{
    if word.len() == 0 {
        return Ok(());
    }
    words.push(word)?;
    Ok(())
}

/// The longest runs of bytes that are no gaps.
pub fn words_of(alloc: Global, bytes: &[u8]) -> Result<Items<Bytes>, NoMemory>
    ensures { IfOk result (λ words. words ≡ words_of bytes.now) }
{
    let mut words = Items::new(alloc);
    let mut word = Bytes::new(alloc);
    for byte in bytes {
        add_byte(alloc, &mut words, &mut word, *byte)?;
    }
    add_last(&mut words, word)?;
    Ok(words)
}
