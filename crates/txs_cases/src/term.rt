use sqlite_items::Items;
use std::alloc::Global;
use std::fmt::Write;
use txs_terms::{Expr, Offer, Position, Term, Top};
use txs_values::{NoMemory, Value};
use txs_words::Model;

/// What is still to be written.
#[derive(Drop)]
enum Part {
    Term(Term),
    /// Between the sides of a choice.
    Or,
    Close,
}

/// So many parts of a term are written; a file has fewer.
const PARTS: usize = 10_000;

/// A term with all parentheses: `In ? x >-> (Out ! $0 >-> STOP ## Out ! 7 >-> STOP)`.
pub fn push_term(
    alloc: Global,
    out: &mut String,
    model: &Model,
    term: &Term,
) -> Result<(), NoMemory> {
    let mut parts = Items::new(alloc);
    parts.push(Part::Term(term.copy(alloc)?))?;
    for _ in 0..PARTS {
        match parts.pop() {
            Some(part) => push_part(alloc, out, model, &mut parts, part)?,
            None => break,
        }
    }
    Ok(())
}

/// Writes a part, up to the terms below it.
fn push_part(
    alloc: Global,
    out: &mut String,
    model: &Model,
    parts: &mut Items<Part>,
    part: Part,
) -> Result<(), NoMemory> {
    match part {
        Part::Term(term) => {
            let top = term.top(alloc)?;
            push_top(alloc, out, model, parts, &top)
        }
        Part::Or => Ok(out.push_str(" ## ")?),
        Part::Close => Ok(out.push(')')?),
    }
}

fn push_top(
    alloc: Global,
    out: &mut String,
    model: &Model,
    parts: &mut Items<Part>,
    top: &Top,
) -> Result<(), NoMemory> {
    match top {
        Top::Stop => Ok(out.push_str("STOP")?),
        Top::Prefix(offers, _guards, then) => {
            push_offers(out, model, offers.as_slice())?;
            parts.push(Part::Term(then.copy(alloc)?))?;
            Ok(out.push_str(" >-> ")?)
        }
        Top::Choice(left, right) => {
            put_sides(parts, left.copy(alloc)?, right.copy(alloc)?)?;
            Ok(out.push('(')?)
        }
        _ => Ok(out.push_str("another")?),
    }
}

/// Puts the sides of a choice, and what stands around them, before the other parts.
fn put_sides(parts: &mut Items<Part>, left: Term, right: Term) -> Result<(), NoMemory> {
    parts.push(Part::Close)?;
    parts.push(Part::Term(right))?;
    parts.push(Part::Or)?;
    parts.push(Part::Term(left))?;
    Ok(())
}

fn push_offers(out: &mut String, model: &Model, offers: &[Offer]) -> Result<(), NoMemory> {
    for offer in offers {
        out.push_str(channel_name(model, offer.channel))?;
        for position in offer.positions.as_slice() {
            push_position(out, position)?;
        }
    }
    Ok(())
}

fn channel_name(model: &Model, channel: u32) -> &str {
    if channel == 0 {
        model.input.as_str()
    } else {
        model.output.as_str()
    }
}

fn push_position(out: &mut String, position: &Position) -> Result<(), NoMemory> {
    match position {
        Position::Take(name) => write!(out, " ? {}", name.as_str())?,
        Position::Give(Expr::Slot(slot)) => write!(out, " ! ${slot}")?,
        Position::Give(Expr::Value(Value::Int(number))) => write!(out, " ! {number}")?,
        Position::Give(_) => out.push_str(" ! another")?,
    }
    Ok(())
}
