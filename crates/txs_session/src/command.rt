ghost use Rattle.std.specs.Prelude.{◌≡◌};
ghost use Rattle.txs_session.specs.Parts.{cut_at, word_cut};
ghost use Rattle.txs_session.specs.Commands;
ghost use Rattle.txs_session.specs.Commands.{without_return, action_of, command_of, by_word};

use crate::cuts::{cut, cut_word, strip};
use txs_values::read_int;
use txs_words::Model;

/// What a line of a session says.
#[derive(Clone, Copy)]
pub enum Command {
    /// Nothing, or more than a line may have.
    Pass,
    Quit,
    /// `tester` with the names of the file.
    Tester,
    Observe,
    /// `test` with an action on the input channel.
    Stimulate(i128),
    Refused,
}

/// The longest line, without its line feed.
const LONGEST: usize = 4096;

fn drop_return(line: &[u8]) -> &[u8]
    ensures { result.now ≡ without_return line.now }
{
    match line {
        [front @ .., b'\r'] => front,
        _ => line,
    }
}

/// The Int that the bytes spell.
pub fn spelled(bytes: &[u8]) -> Option<i128>
    ensures { result ≡ Commands.spelled bytes.now }
{
    match read_int(bytes) {
        Ok(number) => Some(number),
        Err(_) => None,
    }
}

fn read_action(model: &Model, text: &[u8]) -> Command
    ensures { result ≡ action_of model.now (cut_at 33 text.now) }
{
    match cut(text, b'!') {
        None => Command::Refused,
        Some((channel, value)) => {
            if strip(channel) != model.input.as_str().as_bytes() {
                return Command::Refused;
            }
            match spelled(value) {
                None => Command::Refused,
                Some(number) => Command::Stimulate(number),
            }
        }
    }
}

fn read_worded(model: &Model, word: &[u8], rest: &[u8]) -> Command
    ensures { result ≡ by_word model.now word.now rest.now }
{
    if word == "quit".as_bytes() {
        if rest.is_empty() {
            Command::Quit
        } else {
            Command::Refused
        }
    } else if word == "test".as_bytes() {
        if rest.is_empty() {
            Command::Observe
        } else {
            read_action(model, rest)
        }
    } else if word == "tester".as_bytes() {
        let (name, link) = cut_word(rest);
        if name == model.name.as_str().as_bytes() && strip(link) == model.link.as_str().as_bytes() {
            Command::Tester
        } else {
            Command::Refused
        }
    } else {
        Command::Refused
    }
}

/// The command of a line, which is given without its line feed.
#[tactic(auto, unfolding(crate::specs::Commands::line_limit))]
pub fn read_command(model: &Model, line: &[u8]) -> Command
    ensures { result ≡ command_of model.now line.now }
{
    if line.len() > LONGEST {
        return Command::Pass;
    }
    let text = strip(drop_return(line));
    if text.is_empty() {
        return Command::Pass;
    }
    let (word, rest) = cut_word(text);
    read_worded(model, word, strip(rest))
}
