ghost use Rattle.std.specs.Prelude.{◌≡◌, ◌≤◌, true, length, IfOk, IsErrOf, IsUtf8, MatchOption, None, Some};
ghost use Rattle.std.specs.List.{AllByRecursion, list_all};
ghost use Rattle.txs_words.specs.File;
ghost use Rattle.txs_words.specs.File.{IsFile, StatesOnly};
ghost use Rattle.txs_words.specs.Form.{words_of};
ghost use Rattle.txs_words.specs.inner.FileWords.{are_named, host_read, is_in_form, model_read, parts_of, file_words_of, same_port, words_read};
ghost use Rattle.txs_words.specs.inner.Parsing.{Reads, port_read};
ghost use Rattle.txs_terms.specs.Sets.{IsPlain};
ghost use Rattle.txs_terms.specs.View.{term_of};

use crate::behaviour::start_of;
use crate::form::{FileWords, take_apart};
use crate::names::{is_name, known_name};
use crate::numbers::port_of;
use crate::words::words_of;
use crate::{LoadFault, Model};
use std::alloc::Global;
use txs_terms::Term;
use txs_values::{Bytes, NoMemory, Text};

const MOST_WORDS: usize = 400;

fn is_host_byte(byte: u8) -> bool
    ensures { result ≡ File.is_host_byte byte }
{
    byte != b'"' && byte != b'\\'
}

fn are_host_bytes(bytes: &[u8]) -> bool
    ensures { result ≡ list_all File.is_host_byte bytes.now }
{
    for byte in bytes {
        if !is_host_byte(*byte) {
            return false;
        }
    }
    true
}

/// What stands between the quotes of a host.
fn host_of(word: &[u8]) -> Option<&[u8]>
    ensures { MatchOption result (host_read word.now ≡ None) (λ host. host_read word.now ≡ Some host.now) }
{
    if word.len() < 2 {
        return None;
    }
    let (front, rest) = word.split_at(1);
    let (host, back) = rest.split_at(rest.len() - 1);
    if front == "\"".as_bytes() && back == "\"".as_bytes() && are_host_bytes(host) {
        Some(host)
    } else {
        None
    }
}

fn host_text(alloc: Global, word: &[u8]) -> Result<Text, LoadFault>
    requires { IsUtf8 word.now }
    ensures { Reads (λ host. host) result (host_read word.now) }
{
    match host_of(word) {
        None => Err(LoadFault::Later),
        Some(host) => match std::str::from_utf8(host) {
            Ok(text) => Ok(Text::from_str(alloc, text)?),
            Err(_) => unreachable!(),
        },
    }
}

/// The port, if both links have the same.
fn shared_port(outward: &[u8], inward: &[u8]) -> Option<u16>
    ensures { result ≡ same_port (port_read outward.now) (port_read inward.now) }
{
    match port_of(outward) {
        None => None,
        Some(port) => match port_of(inward) {
            None => None,
            Some(other) => { if port == other { Some(port) } else { None } }
        },
    }
}

fn are_named(file: FileWords<'_>) -> bool
    ensures { result ≡ are_named (file_words_of file.entry) }
{
    is_name(file.chandef)
        && is_name(file.input)
        && is_name(file.output)
        && is_name(file.name)
        && is_name(file.link)
        && is_name(file.sent)
        && is_name(file.heard)
}

fn is_in_form(file: FileWords<'_>) -> bool
    ensures { result ≡ is_in_form (file_words_of file.entry) }
{
    are_named(file) && file.input != file.output && file.behaviour.len() <= MOST_WORDS
}

fn made(
    alloc: Global,
    file: FileWords<'_>,
    host: Text,
    port: u16,
    start: Term,
) -> Result<Model, NoMemory>
    requires { are_named (file_words_of file) ≡ true }
    ensures { IfOk result (λ m. parts_of m ≡ record { input = file.entry.input.now; output = file.entry.output.now; name = file.entry.name.now; link = file.entry.link.now; host = host; port = port; start = term_of start }) }
{
    Ok(Model {
        input: known_name(alloc, file.input)?,
        output: known_name(alloc, file.output)?,
        name: known_name(alloc, file.name)?,
        link: known_name(alloc, file.link)?,
        host,
        port,
        start,
    })
}

fn model_of(alloc: Global, file: FileWords<'_>) -> Result<Model, LoadFault>
    requires { IsUtf8 file.host.now }
    ensures { Reads parts_of result (model_read (file_words_of file.entry)) }
{
    if !is_in_form(file) {
        return Err(LoadFault::Later);
    }
    match shared_port(file.port_out, file.port_in) {
        None => Err(LoadFault::Later),
        Some(port) => match host_text(alloc, file.host) {
            Err(fault) => Err(fault),
            Ok(host) => {
                match start_of(alloc, file.input, file.output, file.behaviour) {
                    Err(fault) => Err(fault),
                    Ok(start) => Ok(made(alloc, file, host, port, start)?),
                }
            }
        },
    }
}

fn load_words(alloc: Global, words: &[Bytes]) -> Result<Model, LoadFault>
    requires { AllByRecursion IsUtf8 words.now }
    ensures { Reads parts_of result (words_read words.now) }
{
    match take_apart(words) {
        None => Err(LoadFault::Later),
        Some(file) => model_of(alloc, file),
    }
}

fn load_text(alloc: Global, text: &str) -> Result<Model, LoadFault>
    ensures ok { IfOk result (λ m. IsFile text.now m) }
    ensures only { IfOk result (λ m. StatesOnly text.now m) }
    ensures plain { IfOk result (λ m. IsPlain 0 (term_of m.start)) }
    ensures later { IsErrOf result LoadFault.Later → (m : Model) → IsFile text.now m → ⊥ }
{
    let words = words_of(alloc, text.as_bytes())?;
    load_words(alloc, words.as_slice())
}

/// The model of a file, if it is of the form that is read so far.
pub fn run_load(alloc: Global, bytes: &[u8]) -> Result<Model, LoadFault>
    ensures ok { IfOk result (λ m. IsFile bytes.now m) }
    ensures only { IfOk result (λ m. StatesOnly bytes.now m) }
    ensures plain { IfOk result (λ m. IsPlain 0 (term_of m.start)) }
    ensures later { IsErrOf result LoadFault.Later → (m : Model) → IsFile bytes.now m → ⊥ }
{
    match std::str::from_utf8(bytes) {
        Ok(text) => load_text(alloc, text),
        Err(_) => Err(LoadFault::Later),
    }
}
