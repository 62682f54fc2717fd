ghost use Rattle.std.specs.Prelude.{◌≡◌, ℕ, ◌+◌, ◌*◌, ◌≤◌, ◌<◌, ◌^◌, List, ◌∷◌, [], ◌++◌, length, IfOk, OnOk, Some};
ghost use Rattle.txs_words.specs.Form;
ghost use Rattle.txs_words.specs.Form.{offer, tight, loose};
ghost use Rattle.txs_words.specs.inner.Parsing.{Reads, as_given, as_taken, name_read, expr_read, position_read, binder, channel_read, prefixed, prefix_read, closed, front_of, grouped, choice_read, front_read, behaviour_read};
ghost use Rattle.txs_terms.specs.Term.{prefix};
ghost use Rattle.txs_terms.specs.View;
ghost use Rattle.txs_terms.specs.View.{expr_of, offers_of, term_of};

use crate::LoadFault;
use crate::names::{is_name, name_text};
use crate::numbers::{are_digits, number_of};
use sqlite_items::Items;
use std::alloc::Global;
use txs_terms::{Expr, Offer, Offers, Position, Term, term_choice, term_prefix, term_stop};
use txs_values::{Bytes, NoMemory, Value};

/// The place of the last binder of this name.
fn slot_of(bound: &[Bytes], name: &[u8]) -> Option<u32>
    requires { length bound.now < 2 ^ 32 }
    ensures { result ≡ Form.slot_of bound.now name.now }
{
    let mut slot = 0;
    let mut found = None;
    for binder in bound {
        if binder.as_slice() == name {
            found = Some(slot);
        }
        slot += 1;
    }
    found
}

/// A number, or a variable that is bound.
fn expr_of(word: &[u8], bound: &[Bytes]) -> Result<Expr, LoadFault>
    requires { length bound.now < 2 ^ 32 }
    ensures { Reads expr_of result (expr_read bound.now word.now) }
{
    if are_digits(word) {
        return match number_of(word) {
            Some(n) => Ok(Expr::Value(Value::Int(n))),
            None => Err(LoadFault::Later),
        };
    }
    if !is_name(word) {
        return Err(LoadFault::Later);
    }
    match slot_of(bound, word) {
        Some(slot) => Ok(Expr::Slot(slot)),
        None => Err(LoadFault::Later),
    }
}

fn taken(alloc: Global, word: &[u8]) -> Result<Position, LoadFault>
    ensures { Reads View.position_of result (as_taken (name_read word.now)) }
{
    match name_text(alloc, word) {
        Ok(name) => Ok(Position::Take(name)),
        Err(fault) => Err(fault),
    }
}

fn given(word: &[u8], bound: &[Bytes]) -> Result<Position, LoadFault>
    requires { length bound.now < 2 ^ 32 }
    ensures { Reads View.position_of result (as_given (expr_read bound.now word.now)) }
{
    match expr_of(word, bound) {
        Ok(expr) => Ok(Position::Give(expr)),
        Err(fault) => Err(fault),
    }
}

/// `? x` or `! e`, by the sign and the word after it.
fn position_of(
    alloc: Global,
    sign: &[u8],
    word: &[u8],
    bound: &[Bytes],
) -> Result<Position, LoadFault>
    requires { length bound.now < 2 ^ 32 }
    ensures { Reads View.position_of result (position_read bound.now sign.now word.now) }
{
    if sign == "?".as_bytes() {
        taken(alloc, word)
    } else if sign == "!".as_bytes() {
        given(word, bound)
    } else {
        Err(LoadFault::Later)
    }
}

fn channel_of(input: &[u8], output: &[u8], name: &[u8]) -> Option<u32>
    ensures { result ≡ channel_read input.now output.now name.now }
{
    if name == input {
        Some(0)
    } else if name == output {
        Some(1)
    } else {
        None
    }
}

/// Binds the name of a position, or none.
fn bind(alloc: Global, bound: &mut Items<Bytes>, position: &Position) -> Result<(), NoMemory>
    ensures { OnOk result (bound.new ≡ bound.old ++ binder (View.position_of position.now) ∷ []) }
{
    let name = match position {
        Position::Take(name) => Bytes::from_slice(alloc, name.as_bytes())?,
        Position::Give(_) => Bytes::new(alloc),
    };
    bound.push(name)?;
    Ok(())
}

/// One offer of one position.
fn offer_of(alloc: Global, channel: u32, position: Position) -> Result<Offers, NoMemory>
    ensures { IfOk result (λ offers. offers_of offers ≡ offer channel (View.position_of position)) }
{
    let mut positions = Items::new(alloc);
    positions.push(position)?;
    let mut offers = Items::new(alloc);
    offers.push(Offer { channel, positions })?;
    Ok(offers)
}

fn prefix(alloc: Global, channel: u32, position: Position, then: Term) -> Result<Term, NoMemory>
    ensures { IfOk result (λ t. term_of t ≡ prefix (offer channel (View.position_of position)) [] (term_of then)) }
{
    let offers = offer_of(alloc, channel, position)?;
    term_prefix(alloc, offers, Items::new(alloc), then)
}

/// What stood before `)`, and the words after that.
fn closed(group: Term, words: &[Bytes]) -> Result<(Term, &[Bytes]), LoadFault>
    ensures { Reads front_of result (closed (term_of group) words.now) }
{
    match words {
        [] => Err(LoadFault::Later),
        [first, more @ ..] => {
            if first.as_slice() == ")".as_bytes() {
                Ok((group, more))
            } else {
                Err(LoadFault::Later)
            }
        }
    }
}

/// Drops the last name that was bound.
fn unbind(bound: &mut Items<Bytes>)
    ensures { (before : List (List ℕ)) → (name : List ℕ) → bound.old ≡ before ++ name ∷ [] → bound.new ≡ before }
{
    bound.pop();
}

/// A prefix of one offer, before what is read after it, and the words after that.
#[cycle(behaviour)]
fn prefixed<'a>(
    alloc: Global,
    channels: (&[u8], &[u8]),
    channel: u32,
    position: Position,
    more: &'a [Bytes],
    bound: &mut Items<Bytes>,
) -> Result<(Term, &'a [Bytes]), LoadFault>
    requires { length bound.old + length more.now + 1 < 2 ^ 32 }
    ensures read { (k : ℕ) → 2 * length more.now ≤ k → Reads front_of result (prefixed channel (View.position_of position) (front_read k tight channels.entry.0.now channels.entry.1.now (bound.old ++ binder (View.position_of position) ∷ []) more.now)) }
    ensures kept { OnOk result (bound.new ≡ bound.old) }
    ensures shorter { IfOk result (λ found. length found.1.now ≤ length more.now) }
{
    bind(alloc, bound, &position)?;
    match tight_of(alloc, channels, more, bound) {
        Err(fault) => Err(fault),
        Ok((then, rest)) => {
            unbind(bound);
            Ok((prefix(alloc, channel, position, then)?, rest))
        }
    }
}

/// A prefix, whose first word this is, and the words after it.
#[cycle(behaviour)]
fn prefix_of<'a>(
    alloc: Global,
    channels: (&[u8], &[u8]),
    name: &[u8],
    words: &'a [Bytes],
    bound: &mut Items<Bytes>,
) -> Result<(Term, &'a [Bytes]), LoadFault>
    requires { length bound.old + length words.now < 2 ^ 32 }
    ensures read { (k : ℕ) → 2 * length words.now ≤ k → Reads front_of result (prefix_read (front_read k tight channels.entry.0.now channels.entry.1.now) channels.entry.0.now channels.entry.1.now bound.old name.now words.now) }
    ensures kept { OnOk result (bound.new ≡ bound.old) }
    ensures shorter { IfOk result (λ found. length found.1.now ≤ length words.now) }
{
    match words {
        [sign, word, arrow, more @ ..] => {
            if arrow.as_slice() != ">->".as_bytes() {
                return Err(LoadFault::Later);
            }
            match channel_of(channels.0, channels.1, name) {
                None => Err(LoadFault::Later),
                Some(channel) => match position_of(
                    alloc,
                    sign.as_slice(),
                    word.as_slice(),
                    bound.as_slice(),
                ) {
                    Err(fault) => Err(fault),
                    Ok(position) => prefixed(alloc, channels, channel, position, more, bound),
                },
            }
        }
        _ => Err(LoadFault::Later),
    }
}

/// What stands between parentheses, of which the first is gone, and the words after them.
#[cycle(behaviour)]
fn group_of<'a>(
    alloc: Global,
    channels: (&[u8], &[u8]),
    words: &'a [Bytes],
    bound: &mut Items<Bytes>,
) -> Result<(Term, &'a [Bytes]), LoadFault>
    requires { length bound.old + length words.now < 2 ^ 32 }
    ensures read { (k : ℕ) → 2 * length words.now < k → Reads front_of result (grouped (front_read k loose channels.entry.0.now channels.entry.1.now bound.old words.now)) }
    ensures kept { OnOk result (bound.new ≡ bound.old) }
    ensures shorter { IfOk result (λ found. length found.1.now ≤ length words.now) }
{
    match loose_of(alloc, channels, words, bound) {
        Err(fault) => Err(fault),
        Ok((group, rest)) => closed(group, rest),
    }
}

/// A behaviour that may stand after `>->`, and the words after it.
#[cycle(behaviour)]
fn tight_of<'a>(
    alloc: Global,
    channels: (&[u8], &[u8]),
    words: &'a [Bytes],
    bound: &mut Items<Bytes>,
) -> Result<(Term, &'a [Bytes]), LoadFault>
    requires { length bound.old + length words.now < 2 ^ 32 }
    ensures read { (k : ℕ) → 2 * length words.now ≤ k → Reads front_of result (front_read k tight channels.entry.0.now channels.entry.1.now bound.old words.now) }
    ensures kept { OnOk result (bound.new ≡ bound.old) }
    ensures shorter { IfOk result (λ found. length found.1.now ≤ length words.now) }
{
    match words {
        [] => Err(LoadFault::Later),
        [first, more @ ..] => {
            let word = first.as_slice();
            if word == "STOP".as_bytes() {
                Ok((term_stop(alloc)?, more))
            } else if word == "(".as_bytes() {
                group_of(alloc, channels, more, bound)
            } else {
                prefix_of(alloc, channels, word, more, bound)
            }
        }
    }
}

/// A choice, whose left side this is, if `##` comes next, and the left side alone if it does not.
#[cycle(behaviour)]
fn choice_of<'a>(
    alloc: Global,
    channels: (&[u8], &[u8]),
    left: Term,
    words: &'a [Bytes],
    bound: &mut Items<Bytes>,
) -> Result<(Term, &'a [Bytes]), LoadFault>
    requires { length bound.old + length words.now < 2 ^ 32 }
    ensures read { (k : ℕ) → 2 * length words.now ≤ k → Reads front_of result (choice_read (front_read k loose channels.entry.0.now channels.entry.1.now bound.old) (term_of left) words.now) }
    ensures kept { OnOk result (bound.new ≡ bound.old) }
    ensures shorter { IfOk result (λ found. length found.1.now ≤ length words.now) }
{
    match words {
        [] => Ok((left, words)),
        [first, more @ ..] => {
            if first.as_slice() != "##".as_bytes() {
                return Ok((left, words));
            }
            match loose_of(alloc, channels, more, bound) {
                Err(fault) => Err(fault),
                Ok((right, rest)) => Ok((term_choice(alloc, left, right)?, rest)),
            }
        }
    }
}

/// A behaviour that may be a choice, and the words after it.
#[cycle(behaviour)]
fn loose_of<'a>(
    alloc: Global,
    channels: (&[u8], &[u8]),
    words: &'a [Bytes],
    bound: &mut Items<Bytes>,
) -> Result<(Term, &'a [Bytes]), LoadFault>
    requires { length bound.old + length words.now < 2 ^ 32 }
    ensures read { (k : ℕ) → 2 * length words.now < k → Reads front_of result (front_read k loose channels.entry.0.now channels.entry.1.now bound.old words.now) }
    ensures kept { OnOk result (bound.new ≡ bound.old) }
    ensures shorter { IfOk result (λ found. length found.1.now ≤ length words.now) }
{
    match tight_of(alloc, channels, words, bound) {
        Err(fault) => Err(fault),
        Ok((left, rest)) => choice_of(alloc, channels, left, rest, bound),
    }
}

/// The behaviour of a model, over its input and its output channel.
pub fn start_of(
    alloc: Global,
    input: &[u8],
    output: &[u8],
    words: &[Bytes],
) -> Result<Term, LoadFault>
    requires { length words.now ≤ 400 }
    ensures { Reads term_of result (behaviour_read input.now output.now words.now) }
{
    let mut bound = Items::new(alloc);
    match loose_of(alloc, (input, output), words, &mut bound) {
        Err(fault) => Err(fault),
        Ok((start, rest)) => {
            if rest.is_empty() {
                Ok(start)
            } else {
                Err(LoadFault::Later)
            }
        }
    }
}
