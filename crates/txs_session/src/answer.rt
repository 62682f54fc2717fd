ghost use Rattle.std.specs.Prelude.{◌≡◌, cond, eqb};
ghost use Rattle.txs_outside.specs.Calls.{heard_of, IsWithin};
ghost use Rattle.txs_session.specs.Parts.{cut_at};
ghost use Rattle.txs_session.specs.Session as reference;
ghost use Rattle.txs_session.specs.Session.{number_in, number_answer};

use crate::command::spelled;
use crate::cuts::cut;
use txs_outside::Told;

/// What an answer of the system says.
#[derive(Clone, Copy)]
pub enum Answer {
    /// An action on the output channel.
    Number(i128),
    Quiet,
    /// The call failed.
    Breaks,
    /// What is not read so far.
    Later,
}

/// The number of one whole line with nothing after it.
fn number_in(bytes: &[u8]) -> Option<i128>
    ensures { result ≡ number_in (cut_at 10 bytes.now) }
{
    match cut(bytes, b'\n') {
        None => None,
        Some((line, behind)) => {
            if behind.is_empty() {
                spelled(line)
            } else {
                None
            }
        }
    }
}

fn answer_of_number(number: Option<i128>) -> Answer
    ensures { result ≡ number_answer number }
{
    match number {
        None => Answer::Later,
        Some(value) => Answer::Number(value),
    }
}

fn answer_of_piece(end: u32, bytes: &[u8]) -> Answer
    ensures { result ≡ cond (eqb end 0) (number_answer (number_in (cut_at 10 bytes.now))) Answer.Later }
{
    if end == 0 {
        answer_of_number(number_in(bytes))
    } else {
        Answer::Later
    }
}

/// What an answer says, with the buffer that it left.
pub fn answer_of(told: Told, buf: &[u8]) -> Answer
    requires { IsWithin told buf.now }
    ensures { result ≡ reference.answer_of (heard_of told buf.now) }
{
    match told {
        Told::Piece { end, len } => {
            let (bytes, _) = buf.split_at(len);
            answer_of_piece(end, bytes)
        }
        Told::Nothing => Answer::Later,
        Told::Quiet => Answer::Quiet,
        Told::Ended { .. } => Answer::Later,
        Told::Failed => Answer::Breaks,
    }
}
