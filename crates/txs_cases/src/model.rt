ghost use Rattle.std.specs.Prelude.{IfOk};
ghost use Rattle.txs_terms.specs.Sets.{IsPlain, ArePlain};
ghost use Rattle.txs_terms.specs.View.{term_of, terms_of};

use crate::direct::Step;
use crate::refusal::Refusal;
use crate::term::push_term;
use sqlite_items::Items;
use std::alloc::Global;
use std::fmt::Write;
use txs_case::push_quoted;
use txs_terms::{Action, Term, after_action, after_quiescence, first};
use txs_values::read_int;
use txs_words::{Model, run_load};

/// The number of the output channel.
const OUT: u32 = 1;

/// What a file of two channels states.
pub fn model(alloc: Global, text: &[u8]) -> Result<String, Refusal> {
    let model = run_load(alloc, text)?;
    let mut out = String::new(alloc);
    let name = model.name.as_str();
    let input = model.input.as_str();
    let output = model.output.as_str();
    writeln!(out, "model {name}")?;
    writeln!(out, "channels {input} {output}")?;
    push_connection(&mut out, &model)?;
    out.push_str("behaviour ")?;
    push_term(alloc, &mut out, &model, &model.start)?;
    out.push('\n')?;
    Ok(out)
}

fn push_connection(out: &mut String, model: &Model) -> Result<(), Refusal> {
    let link = model.link.as_str();
    write!(out, "connection {link} ")?;
    push_quoted(out, model.host.as_bytes())?;
    writeln!(out, " {}", model.port)?;
    Ok(())
}

/// How many terms the model's behaviour has after a trace.
pub fn members(alloc: Global, text: &[u8], steps: &[Step]) -> Result<String, Refusal> {
    match run_load(alloc, text) {
        Ok(model) => {
            let set = after(alloc, &model, steps)?;
            let mut out = String::new(alloc);
            writeln!(out, "members {}", set.len())?;
            Ok(out)
        }
        Err(fault) => Err(Refusal::Load(fault)),
    }
}

/// The terms after a trace.
fn after(alloc: Global, model: &Model, steps: &[Step]) -> Result<Items<Term>, Refusal>
    requires { IsPlain 0 (term_of model.now.start) }
{
    let mut set = first(alloc, &model.start)?;
    for step in steps {
        set = next(alloc, model, set.as_slice(), step)?;
    }
    Ok(set)
}

/// The terms after one more step.
fn next(alloc: Global, model: &Model, set: &[Term], step: &Step) -> Result<Items<Term>, Refusal>
    requires { ArePlain (terms_of set.now) }
    ensures { IfOk result (λ ts. ArePlain (terms_of ts)) }
{
    match step {
        Step::Act(action) => {
            let (channel, value) = action_of(model, action.as_slice())?;
            let action = Action::on(alloc, channel, value)?;
            let found = after_action(alloc, set, &action)?;
            Ok(found)
        }
        Step::Quiet => {
            let found = after_quiescence(alloc, set, OUT)?;
            Ok(found)
        }
    }
}

/// The channel and the number of an action, as a transcript writes it.
fn action_of(model: &Model, text: &[u8]) -> Result<(u32, i128), Refusal> {
    let Ok(text) = str::from_utf8(text) else {
        return Err(Refusal::Unread);
    };
    let Some((name, value)) = text.split_once('!') else {
        return Err(Refusal::Unread);
    };
    let channel = channel_of(model, name)?;
    match read_int(value.as_bytes()) {
        Ok(value) => Ok((channel, value)),
        Err(_) => Err(Refusal::Unread),
    }
}

fn channel_of(model: &Model, name: &str) -> Result<u32, Refusal> {
    if name == model.input.as_str() {
        Ok(0)
    } else if name == model.output.as_str() {
        Ok(OUT)
    } else {
        Err(Refusal::Unread)
    }
}
