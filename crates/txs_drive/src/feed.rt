ghost use Rattle.std.specs.Prelude.{◌≡◌, ◌≢◌, ◌<◌, ◌≤◌, ℕ, List, ◌+◌, ◌++◌, ◌∷◌, [], true, false, length, IfOk, IfErr, OnOk, OnErr, IsErrOf, IsTrue, Ok, Err};
ghost use Rattle.txs_outside.specs.Causes.{FailsLast};
ghost use Rattle.txs_outside.specs.Known.{Grows, Loses, Tells};
ghost use Rattle.txs_terms.specs.Sets.{IsPlain};
ghost use Rattle.txs_terms.specs.View.{term_of};
ghost use Rattle.txs_session.specs.Session.{at_start};
ghost use Rattle.txs_session.specs.Ready.{state_of, IsTied};
ghost use Rattle.txs_drive.specs.inner.CarriedOut.{LinesCarriedOut, BytesCarriedOut, IsReady, HasNoFeed, CommandsCarriedOut, LastLineCarriedOut, read_bytes, IsRead};
ghost use Rattle.txs_drive.specs.Served.{last_part, end};
ghost use Rattle.txs_drive.specs.inner.Stopped.{Stopped, StoppedInBytes, StoppedInCommands, Tracks, ends_in};

use crate::Stop;
use crate::driver::carry_out;
use std::alloc::Global;
use txs_outside::{Got, Sink, Source, Sut};
use txs_session::Session;
use txs_values::{Bytes, NoMemory};
use txs_words::Model;

/// The most bytes of commands.
const LIMIT: usize = 16_777_216;

/// How the commands came to their end.
#[derive(Clone, Copy)]
pub enum Finish {
    Quit,
    End,
    Failed,
    TooLong,
}

/// What a read gave.
#[derive(Drop)]
pub enum Read {
    Bytes(Bytes),
    End,
    Failed,
}

/// Takes a byte of the commands; answers whether the session ends with it.
fn take_byte<K: Sink, U: Sut>(
    alloc: Global,
    model: &Model,
    session: &mut Session,
    pending: &mut Bytes,
    byte: u8,
    sink: &mut K,
    sut: &mut U,
) -> Result<bool, Stop>
    requires start { IsPlain 0 (term_of model.now.start) }
    requires ready { IsReady model.now session.old (U.dialled sut.old) }
    requires idle { (state_of session.old).todo ≡ [] }
    requires tied { IsTied (state_of session.old).run }
    requires line { HasNoFeed pending.old }
    ensures carried_out { IfOk result (λ q. LinesCarriedOut model.now (state_of session.old) (state_of session.new) (K.taken sink.old) (K.taken sink.new) (U.calls sut.old) (U.calls sut.new)
        (U.hang_ups sut.old) (U.hang_ups sut.new) (U.faults sut.old) (U.faults sut.new)
        (pending.old ++ byte ∷ []) pending.new q) }
    ensures ready { OnOk result (IsReady model.now session.new (U.dialled sut.new)) }
    ensures idle { OnOk result ((state_of session.new).todo ≡ []) }
    ensures tied { IfOk result (λ q. q ≡ false → IsTied (state_of session.new).run) }
    ensures line { OnOk result (HasNoFeed pending.new) }
    ensures stopped { IfErr result (λ stop. StoppedInBytes stop model.now (state_of session.old) (ends_in session.new) (K.taken sink.old) (K.taken sink.new) (U.calls sut.old) (U.calls sut.new)
        (U.hang_ups sut.old) (U.hang_ups sut.new) (U.faults sut.old) (U.faults sut.new) (pending.old ++ byte ∷ [])) }
    ensures tracks { Tracks (U.dialled sut.old) (U.dialled sut.new) (ends_in session.old) (ends_in session.new) }
    ensures sink { FailsLast (K.faults sink.old) (K.faults sink.new) (K.has_failed sink.new) (IsErrOf result Stop.Sink) }
    ensures calm { result ≢ Err Stop.Sink → K.faults sink.new ≡ K.faults sink.old }
{
    if byte == b'\n' {
        let quits = carry_out(alloc, model, session, pending.as_slice(), sink, sut)?;
        pending.clear();
        Ok(quits)
    } else {
        pending.push(byte)?;
        Ok(false)
    }
}

/// Takes some bytes of the commands; answers whether the session ends with it.
fn take_bytes<K: Sink, U: Sut>(
    alloc: Global,
    model: &Model,
    session: &mut Session,
    pending: &mut Bytes,
    bytes: &[u8],
    sink: &mut K,
    sut: &mut U,
) -> Result<bool, Stop>
    requires start { IsPlain 0 (term_of model.now.start) }
    requires ready { IsReady model.now session.old (U.dialled sut.old) }
    requires idle { (state_of session.old).todo ≡ [] }
    requires tied { IsTied (state_of session.old).run }
    requires line { HasNoFeed pending.old }
    ensures carried_out { IfOk result (λ q. BytesCarriedOut model.now (state_of session.old) (state_of session.new) (K.taken sink.old) (K.taken sink.new) (U.calls sut.old) (U.calls sut.new)
        (U.hang_ups sut.old) (U.hang_ups sut.new) (U.faults sut.old) (U.faults sut.new)
        (pending.old ++ bytes.now) pending.new q) }
    ensures ready { OnOk result (IsReady model.now session.new (U.dialled sut.new)) }
    ensures idle { OnOk result ((state_of session.new).todo ≡ []) }
    ensures tied { IfOk result (λ q. q ≡ false → IsTied (state_of session.new).run) }
    ensures line { OnOk result (HasNoFeed pending.new) }
    ensures stopped { IfErr result (λ stop. StoppedInBytes stop model.now (state_of session.old) (ends_in session.new) (K.taken sink.old) (K.taken sink.new) (U.calls sut.old) (U.calls sut.new)
        (U.hang_ups sut.old) (U.hang_ups sut.new) (U.faults sut.old) (U.faults sut.new) (pending.old ++ bytes.now)) }
    ensures tracks { Tracks (U.dialled sut.old) (U.dialled sut.new) (ends_in session.old) (ends_in session.new) }
    ensures sink { FailsLast (K.faults sink.old) (K.faults sink.new) (K.has_failed sink.new) (IsErrOf result Stop.Sink) }
    ensures calm { result ≢ Err Stop.Sink → K.faults sink.new ≡ K.faults sink.old }
{
    for b in bytes {
        if take_byte(alloc, model, session, pending, *b, sink, sut)? {
            return Ok(true);
        }
    }
    Ok(false)
}

fn read_some<S: Source>(alloc: Global, source: &mut S, room: usize) -> Result<Read, NoMemory>
    requires some { 0 < room }
    requires most { room ≤ 4096 }
    ensures given { IfOk result (λ r. Grows (S.given source.old) (S.given source.new) (read_bytes r)) }
    ensures lost { IfOk result (λ r. Loses (S.left source.old) (S.left source.new) (read_bytes r)) }
    ensures unread { OnErr result ((bytes : List ℕ) × (length bytes ≤ room) × Grows (S.given source.old) (S.given source.new) bytes × Loses (S.left source.old) (S.left source.new) bytes) }
    ensures size { IfOk result (λ r. IsRead room r) }
    ensures end { IfOk result (λ r. r ≡ Read.End → (S.at_end source.new ≡ true) × Tells (S.left source.old) []) }
    ensures cause { FailsLast (S.faults source.old) (S.faults source.new) (S.has_failed source.new) (result ≡ Ok Read.Failed) }
    ensures calm { result ≢ Ok Read.Failed → S.faults source.new ≡ S.faults source.old }
{
    let mut buf = [0u8; 4096];
    match source.read(&mut buf[..room]) {
        Got::Bytes { len } => Ok(Read::Bytes(Bytes::from_slice(alloc, &buf[..len])?)),
        Got::End => Ok(Read::End),
        Got::Failed => Ok(Read::Failed),
    }
}

/// How much is read next.
fn room_left(taken: usize) -> usize
    requires { taken ≤ 16777216 }
    ensures some { 0 < result }
    ensures most { result ≤ 4096 }
    ensures within { taken < 16777216 → result + taken ≤ 16777216 }
    ensures one { taken ≡ 16777216 → result ≡ 1 }
    ensures past { result + taken ≤ 16777217 }
{
    if taken == LIMIT {
        1
    } else {
        (LIMIT - taken).min(4096)
    }
}

/// Takes the last line, which lacks its line feed.
fn take_last<K: Sink, U: Sut>(
    alloc: Global,
    model: &Model,
    session: &mut Session,
    line: &[u8],
    sink: &mut K,
    sut: &mut U,
) -> Result<Finish, Stop>
    requires start { IsPlain 0 (term_of model.now.start) }
    requires ready { IsReady model.now session.old (U.dialled sut.old) }
    requires idle { (state_of session.old).todo ≡ [] }
    requires tied { IsTied (state_of session.old).run }
    ensures carried_out { IfOk result (λ f. LastLineCarriedOut model.now (state_of session.old) (state_of session.new) (K.taken sink.old) (K.taken sink.new) (U.calls sut.old) (U.calls sut.new)
        (U.hang_ups sut.old) (U.hang_ups sut.new) (U.faults sut.old) (U.faults sut.new)
        line.now f) }
    ensures ready { OnOk result (IsReady model.now session.new (U.dialled sut.new)) }
    ensures idle { OnOk result ((state_of session.new).todo ≡ []) }
    ensures stopped { IfErr result (λ stop. Stopped stop model.now (state_of session.old) (ends_in session.new) (K.taken sink.old) (K.taken sink.new) (U.calls sut.old) (U.calls sut.new)
        (U.hang_ups sut.old) (U.hang_ups sut.new) (U.faults sut.old) (U.faults sut.new) (last_part end line.now)) }
    ensures tracks { Tracks (U.dialled sut.old) (U.dialled sut.new) (ends_in session.old) (ends_in session.new) }
    ensures sink { FailsLast (K.faults sink.old) (K.faults sink.new) (K.has_failed sink.new) (IsErrOf result Stop.Sink) }
    ensures calm { result ≢ Err Stop.Sink → K.faults sink.new ≡ K.faults sink.old }
{
    if line.is_empty() {
        return Ok(Finish::End);
    }
    if carry_out(alloc, model, session, line, sink, sut)? {
        return Ok(Finish::Quit);
    }
    Ok(Finish::End)
}

/// Carries out the commands of the source.
pub(crate) fn converse<S: Source, K: Sink, U: Sut>(
    alloc: Global,
    model: &Model,
    session: &mut Session,
    source: &mut S,
    sink: &mut K,
    sut: &mut U,
) -> Result<Finish, Stop>
    requires start { IsPlain 0 (term_of model.now.start) }
    requires ready { IsReady model.now session.old (U.dialled sut.old) }
    requires new { state_of session.old ≡ at_start }
    ensures carried_out { IfOk result (λ f. CommandsCarriedOut model.now f (state_of session.new) (S.given source.old) (S.given source.new) (S.left source.old) (S.left source.new) (S.at_end source.new) (K.taken sink.old) (K.taken sink.new) (U.calls sut.old) (U.calls sut.new)
        (U.hang_ups sut.old) (U.hang_ups sut.new) (U.faults sut.old) (U.faults sut.new)) }
    ensures ready { OnOk result (IsReady model.now session.new (U.dialled sut.new)) }
    ensures stopped { IfErr result (λ stop. StoppedInCommands stop model.now (ends_in session.new) (S.given source.old) (S.given source.new) (S.left source.old) (S.left source.new) (S.at_end source.new) (K.taken sink.old) (K.taken sink.new) (U.calls sut.old) (U.calls sut.new)
        (U.hang_ups sut.old) (U.hang_ups sut.new) (U.faults sut.old) (U.faults sut.new)) }
    ensures tracks { Tracks (U.dialled sut.old) (U.dialled sut.new) (ends_in session.old) (ends_in session.new) }
    ensures source { FailsLast (S.faults source.old) (S.faults source.new) (S.has_failed source.new) (result ≡ Ok Finish.Failed) }
    ensures calm_source { result ≢ Ok Finish.Failed → S.faults source.new ≡ S.faults source.old }
    ensures sink { FailsLast (K.faults sink.old) (K.faults sink.new) (K.has_failed sink.new) (IsErrOf result Stop.Sink) }
    ensures calm { result ≢ Err Stop.Sink → K.faults sink.new ≡ K.faults sink.old }
{
    let mut pending = Bytes::new(alloc);
    let mut taken: usize = 0;
    'reads: loop {
        match read_some(alloc, source, room_left(taken))? {
            Read::Failed => return Ok(Finish::Failed),
            Read::End => {
                let finish = take_last(alloc, model, session, pending.as_slice(), sink, sut)?;
                return Ok(finish);
            }
            Read::Bytes(bytes) => {
                if taken == LIMIT {
                    return Ok(Finish::TooLong);
                }
                taken += bytes.len();
                let bytes = bytes.as_slice();
                if take_bytes(alloc, model, session, &mut pending, bytes, sink, sut)? {
                    return Ok(Finish::Quit);
                }
            }
        }
    }
}
