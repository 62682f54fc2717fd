use crate::call::Call;
use crate::direct::Direct;
use crate::refusal::{Refusal, refusal_line};
use crate::{evaluation, model, tokens, tree, value};
use std::alloc::Global;
use std::fmt::Write;
use txs_values::{NoMemory, Text};

/// What comes of a call of one layer.
pub fn result_of(alloc: Global, name: &Text, direct: &Direct) -> Result<String, NoMemory> {
    let mut out = String::new(alloc);
    writeln!(out, "case {}", name.as_str())?;
    let lines = match answer(alloc, direct) {
        Ok(lines) => lines,
        Err(refusal) => refusal_line(alloc, refusal)?,
    };
    out.push_str(lines.as_str())?;
    out.push_str("end\n")?;
    Ok(out)
}

/// The lines that a call answers.
fn answer(alloc: Global, direct: &Direct) -> Result<String, Refusal> {
    let definitions = direct.definitions.as_slice();
    let word = direct.word(0);
    match direct.call {
        Call::Value => value::value(alloc, definitions, word, direct.word(1)),
        Call::Measure => value::measure(alloc, definitions, word, direct.word(1)),
        Call::Default => value::default(alloc, definitions, word),
        Call::Extent => value::extent(alloc, definitions, word),
        Call::Table => value::table(alloc, definitions),
        Call::Tokens => tokens::tokens(alloc, direct.content.as_slice()),
        Call::Tree => tree::tree(alloc, direct.from, direct.depth, word),
        Call::Eval => evaluation::eval(alloc, definitions, word),
        Call::Query => {
            evaluation::query(alloc, definitions, word, direct.word(1), direct.word(2))
        }
        Call::File => evaluation::file(alloc, definitions),
        Call::Model => model::model(alloc, definitions),
        Call::Members => model::members(alloc, definitions, direct.steps.as_slice()),
    }
}
