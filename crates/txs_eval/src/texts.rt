ghost use Rattle.std.specs.Prelude.{◌≡◌, ◌≢◌, ◌++◌, pos, length, chars, encode_utf8, slice_get};
ghost use Rattle.txs_values.specs.Value.{text};
ghost use Rattle.txs_values.specs.View.{value_of};
ghost use Rattle.txs_terms.specs.Eval as spec;
ghost use Rattle.txs_terms.specs.View.{binary_of};
ghost use Rattle.txs_eval.specs.Answer.{Comes};

use crate::fault::Stop;
use crate::numbers::integer;
use std::alloc::Global;
use txs_terms::Binary;
use txs_values::{Text, VALUE_HEIGHT_LIMIT, VALUE_SIZE_LIMIT, Value, is_within};

/// The value, if it is neither too large nor too high.
pub fn sized(value: Value) -> Result<Value, Stop>
    ensures value { Comes result (spec.sized (value_of value)) }
    ensures memory { result ≢ Err Stop.NoMemory }
{
    if is_within(&value, VALUE_SIZE_LIMIT, VALUE_HEIGHT_LIMIT) {
        Ok(value)
    } else {
        Err(Stop::Size)
    }
}

fn char_count(text: &str) -> usize
    ensures { result ≡ length (chars text.now) }
{
    text.chars().count()
}

fn nth_char(text: &str, at: usize) -> Option<char>
    ensures { result ≡ slice_get (chars text.now) at }
{
    text.chars().nth(at)
}

/// How many characters the text has.
pub fn text_length(text: &Text) -> Result<Value, Stop>
    ensures value { Comes result (spec.in_range (pos (length (chars text.now)))) }
    ensures memory { result ≢ Err Stop.NoMemory }
{
    integer(Some(char_count(text.as_str()) as i128))
}

fn joined(alloc: Global, a: &Text, b: &Text) -> Result<Value, Stop>
    ensures { Comes result (spec.sized (text (a.now ++ b.now))) }
{
    let mut text = String::from_str(alloc, a.as_str())?;
    text.push_str(b.as_str())?;
    sized(Value::Text(Text::from_string(alloc, text)?))
}

/// The character at an index of the text.
pub fn char_at(alloc: Global, text: &Text, at: i128) -> Result<Value, Stop>
    ensures { Comes result (spec.char_from text.now at) }
{
    if at < 0 || at >= char_count(text.as_str()) as i128 {
        return Err(Stop::Selector);
    }
    match nth_char(text.as_str(), at as usize) {
        Some(found) => char_text(alloc, found),
        None => Err(Stop::Selector),
    }
}

fn char_text(alloc: Global, found: char) -> Result<Value, Stop>
    ensures { Comes result (spec.fine (text (encode_utf8 found))) }
{
    let mut text = String::new(alloc);
    text.push(found)?;
    Ok(Value::Text(Text::from_string(alloc, text)?))
}

/// An operator on two texts.
pub fn on_texts(alloc: Global, operator: Binary, a: &Text, b: &Text) -> Result<Value, Stop>
    ensures { Comes result (spec.text_binary (binary_of operator) a.now b.now) }
{
    match operator {
        Binary::Concat => joined(alloc, a, b),
        Binary::Differ => Ok(Value::Bool(!a.is(b))),
        _ => Err(Stop::Wrong),
    }
}
