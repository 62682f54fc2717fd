ghost use Rattle.std.specs.Prelude.{◌≡◌, [], false, map, MatchResult};
ghost use Rattle.txs_values.specs.declared.reading.Kind.TheVariants.{Wrong};
ghost use Rattle.txs_values.specs.declared.reading.Stop.TheVariants.{NoMemory};
ghost use Rattle.txs_values.specs.Reading as spec;
ghost use Rattle.txs_values.specs.Reading.{ok, stop, value_below};
ghost use Rattle.txs_values.specs.ReadingView.{Stopped};
ghost use Rattle.txs_values.specs.Spelling as spelling;
ghost use Rattle.txs_values.specs.TableView.{field_of};
ghost use Rattle.txs_values.specs.View.{value_of, values_of, ty_of};

use crate::byte::is_name_byte;
use crate::ints::{is_number, number_value, skip_blanks, split_number};
use crate::table::FieldDef;
use crate::{Text, Ty, TypeTable, Value, Values, made_of, memory};
use sqlite_items::Items;
use std::alloc::{AllocError, AllocFailed, Global};

/// What is wrong at a place: the form, a number's range, the level of arguments, or a text that is not UTF-8.
#[derive(Clone, Copy, Debug, PartialEq, Eq)]
pub(crate) enum Kind {
    Wrong,
    Past,
    Deep,
    Broken,
}

/// What is wrong, with the number of the bytes that are left there.
#[derive(Clone, Copy, Debug, PartialEq, Eq)]
pub(crate) enum Stop {
    At(Kind, usize),
    NoMemory,
}

impl From<AllocError> for Stop {
    ghost from_gives = { λ _ s. s ≡ NoMemory };

    fn from(_error: AllocError) -> Stop {
        Stop::NoMemory
    }
}

impl From<memory::NoMemory> for Stop {
    ghost from_gives = { λ _ s. s ≡ NoMemory };

    fn from(_error: memory::NoMemory) -> Stop {
        Stop::NoMemory
    }
}

/// What follows this byte, which stands first.
fn symbol_here(byte: u8, bytes: &[u8]) -> Result<&[u8], Stop>
    ensures { MatchResult result (λ r. spec.symbol_here byte bytes.now ≡ ok tt r.now) (λ e. Stopped e (spec.symbol_here byte bytes.now)) }
{
    match bytes {
        [first, rest @ ..] => {
            if *first == byte {
                Ok(rest)
            } else {
                Err(Stop::At(Kind::Wrong, bytes.len()))
            }
        }
        [] => Err(Stop::At(Kind::Wrong, 0)),
    }
}

/// What follows this byte, which stands behind blanks.
fn symbol(byte: u8, bytes: &[u8]) -> Result<&[u8], Stop>
    ensures { MatchResult result (λ r. spec.symbol byte bytes.now ≡ ok tt r.now) (λ e. Stopped e (spec.symbol byte bytes.now)) }
{
    symbol_here(byte, skip_blanks(bytes))
}

fn number(bytes: &[u8]) -> Result<(Value, &[u8]), Stop>
    ensures { MatchResult result (λ p. spec.number_read bytes.now ≡ ok (value_of p.0) p.1.now) (λ e. Stopped e (spec.number_read bytes.now)) }
{
    let (digits, rest) = split_number(bytes);
    if !is_number(digits) {
        return Err(Stop::At(Kind::Wrong, rest.len()));
    }
    match number_value(digits) {
        Ok(n) => Ok((Value::Int(n), rest)),
        Err(_) => Err(Stop::At(Kind::Past, bytes.len())),
    }
}

fn goes_on(bytes: &[u8]) -> bool
    ensures { result ≡ spec.goes_on bytes.now }
{
    match bytes {
        [first, ..] => is_name_byte(*first),
        [] => false,
    }
}

/// What follows this name, or how many bytes follow the longest front that it shares.
fn name<'a>(name: &[u8], bytes: &'a [u8]) -> Result<&'a [u8], usize>
    ensures { MatchResult result (λ r. spec.name_read name.now bytes.now ≡ ok tt r.now) (λ n. spec.name_read name.now bytes.now ≡ stop Wrong n) }
{
    let mut letters = name;
    let mut rest = bytes;
    while let [letter, others @ ..] = letters {
        match rest {
            [byte, behind @ ..] => {
                if *byte != *letter {
                    return Err(rest.len());
                }
                rest = behind;
            }
            [] => return Err(0),
        }
        letters = others;
    }
    if goes_on(rest) {
        Err(rest.len())
    } else {
        Ok(rest)
    }
}

fn truth(bytes: &[u8]) -> Result<(Value, &[u8]), Stop>
    ensures { MatchResult result (λ p. spec.truth_read bytes.now ≡ ok (value_of p.0) p.1.now) (λ e. Stopped e (spec.truth_read bytes.now)) }
{
    match name(b"True", bytes) {
        Ok(rest) => Ok((Value::Bool(true), rest)),
        Err(left) => match name(b"False", bytes) {
            Ok(rest) => Ok((Value::Bool(false), rest)),
            Err(other) => Err(Stop::At(Kind::Wrong, left.min(other))),
        },
    }
}

/// The character of an escape.
fn escape(byte: u8) -> Option<u8>
    ensures { result ≡ spelling.escape_of byte }
{
    match byte {
        b'"' => Some(b'"'),
        b'\\' => Some(b'\\'),
        b'n' => Some(b'\n'),
        b'r' => Some(b'\r'),
        b't' => Some(b'\t'),
        _ => None,
    }
}

fn is_raw(byte: u8) -> bool
    ensures { result ≡ spelling.is_raw byte }
{
    byte == b'\t' || byte == b'\n' || byte == b'\r'
}

/// A text up to its closing quote.
#[tactic(auto, using(crate::proofs::ReadSteps::steps))]
fn quoted(alloc: Global, bytes: &[u8]) -> Result<(Items<u8>, &[u8]), Stop>
    ensures { MatchResult result (λ p. spec.quoted_read false bytes.now ≡ ok p.0 p.1.now) (λ e. Stopped e (spec.quoted_read false bytes.now)) }
{
    let mut text = Items::new(alloc);
    let mut rest = bytes;
    let mut is_escaped = false;
    while let [byte, behind @ ..] = rest {
        if is_escaped {
            match escape(*byte) {
                Some(meant) => text.push(meant)?,
                None => return Err(Stop::At(Kind::Wrong, rest.len())),
            }
            is_escaped = false;
        } else if *byte == b'"' {
            return Ok((text, behind));
        } else if *byte == b'\\' {
            is_escaped = true;
        } else if is_raw(*byte) {
            return Err(Stop::At(Kind::Wrong, rest.len()));
        } else {
            text.push(*byte)?;
        }
        rest = behind;
    }
    Err(Stop::At(Kind::Wrong, 0))
}

fn text(alloc: Global, bytes: &[u8]) -> Result<(Value, &[u8]), Stop>
    ensures { MatchResult result (λ p. spec.text_read bytes.now ≡ ok (value_of p.0) p.1.now) (λ e. Stopped e (spec.text_read bytes.now)) }
{
    let rest = symbol_here(b'"', bytes)?;
    let (written, end) = quoted(alloc, rest)?;
    match std::str::from_utf8(written.as_slice()) {
        Ok(text) => Ok((Value::Text(Text::from_str(alloc, text)?), end)),
        Err(_) => Err(Stop::At(Kind::Broken, bytes.len())),
    }
}

/// The constructor whose name stands first, by its number with its fields.
#[tactic(auto, using(crate::proofs::ReadSteps::steps))]
fn made<'t, 'a>(
    table: &'t TypeTable,
    ty: u32,
    bytes: &'a [u8],
) -> Result<(u32, &'t [FieldDef], &'a [u8]), Stop>
    ensures { MatchResult result (λ p. spec.made_read 0 table.now ty bytes.now ≡ ok (record { number = p.0; fields = map field_of p.1.now }) p.2.now) (λ e. Stopped e (spec.made_read 0 table.now ty bytes.now)) }
{
    let mut left = bytes.len();
    if let Some((first, constructors)) = table.constructors(ty) {
        let mut id = first;
        for constructor in constructors {
            match name(constructor.name.as_bytes(), bytes) {
                Ok(rest) => return Ok((id as u32, constructor.fields.as_slice(), rest)),
                Err(place) => left = left.min(place),
            }
            id += 1;
        }
    }
    Err(Stop::At(Kind::Wrong, left))
}

/// What is wrong where no parenthesis may open any more.
fn full(bytes: &[u8]) -> Stop
    ensures { Stopped result (spec.full_read bytes.now) }
{
    match bytes {
        [first, ..] => {
            if *first == b'(' {
                Stop::At(Kind::Deep, bytes.len())
            } else {
                Stop::At(Kind::Wrong, bytes.len())
            }
        }
        [] => Stop::At(Kind::Wrong, 0),
    }
}

/// A value, with so many levels below its own, and what follows it.
#[cycle(value)]
#[tactic(auto, using(crate::proofs::ReadSteps::steps))]
fn value<'a>(
    alloc: Global,
    table: &TypeTable,
    ty: Ty,
    bytes: &'a [u8],
    left: u32,
) -> Result<(Value, &'a [u8]), Stop>
    ensures { MatchResult result (λ p. spec.value_read table.now left (ty_of ty) bytes.now ≡ ok (value_of p.0) p.1.now) (λ e. Stopped e (spec.value_read table.now left (ty_of ty) bytes.now)) }
{
    let token = skip_blanks(bytes);
    match ty {
        Ty::Int => number(token),
        Ty::Bool => truth(token),
        Ty::Text => text(alloc, token),
        Ty::Named(k) => {
            let (id, fields, rest) = made(table, k, token)?;
            fields_behind(alloc, table, id, fields, rest, left)
        }
    }
}

/// The fields of a constructor, behind its name.
#[cycle(value)]
#[tactic(auto, using(crate::proofs::ReadSteps::steps))]
fn fields_behind<'a>(
    alloc: Global,
    table: &TypeTable,
    id: u32,
    fields: &[FieldDef],
    bytes: &'a [u8],
    left: u32,
) -> Result<(Value, &'a [u8]), Stop>
    ensures { MatchResult result (λ p. spec.fields_read (value_below table.now left) id (map field_of fields.now) bytes.now ≡ ok (value_of p.0) p.1.now)
        (λ e. Stopped e (spec.fields_read (value_below table.now left) id (map field_of fields.now) bytes.now)) }
{
    match fields {
        [] => Ok((made_of(alloc, id, Items::new(alloc))?, bytes)),
        [_, ..] => {
            if left == 0 {
                return Err(full(skip_blanks(bytes)));
            }
            let rest = symbol(b'(', bytes)?;
            let (values, end) = arguments(alloc, table, fields, rest, left - 1)?;
            Ok((made_of(alloc, id, values)?, end))
        }
    }
}

/// The arguments of a constructor, and what follows their closing parenthesis.
#[cycle(value)]
#[tactic(auto, using(crate::proofs::ReadSteps::steps))]
fn arguments<'a>(
    alloc: Global,
    table: &TypeTable,
    fields: &[FieldDef],
    bytes: &'a [u8],
    left: u32,
) -> Result<(Values, &'a [u8]), Stop>
    ensures { MatchResult result (λ p. spec.arguments_read (spec.value_read table.now left) (map field_of fields.now) bytes.now ≡ ok (values_of p.0) p.1.now)
        (λ e. Stopped e (spec.arguments_read (spec.value_read table.now left) (map field_of fields.now) bytes.now)) }
{
    let mut values = Items::new(alloc);
    let mut rest = bytes;
    let mut fields_left = fields;
    while let [field, others @ ..] = fields_left {
        let (argument, behind) = value(alloc, table, field.ty, rest, left)?;
        values.push(argument)?;
        let mark = if others.is_empty() { b')' } else { b',' };
        rest = symbol(mark, behind)?;
        fields_left = others;
    }
    Ok((values, rest))
}

const LEVELS_BELOW: u32 = 999;

/// A value that only blanks follow.
pub(crate) fn lone(alloc: Global, table: &TypeTable, ty: Ty, bytes: &[u8]) -> Result<Value, Stop>
    ensures { MatchResult result (λ v. spec.lone_read table.now (ty_of ty) bytes.now ≡ ok (value_of v) []) (λ e. Stopped e (spec.lone_read table.now (ty_of ty) bytes.now)) }
{
    let (value, behind) = value(alloc, table, ty, bytes, LEVELS_BELOW)?;
    let rest = skip_blanks(behind);
    if !rest.is_empty() {
        return Err(Stop::At(Kind::Wrong, rest.len()));
    }
    Ok(value)
}
