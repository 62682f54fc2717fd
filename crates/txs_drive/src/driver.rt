ghost use Rattle.std.specs.Prelude.{◌≡◌, ◌≢◌, ◌<◌, ℕ, List, Option, false, [], ◌∷◌, IfOk, IfErr, OnOk, OnErr, IsErr, IsErrOf, Ok, Err, if◌then◌else◌};
ghost use Rattle.txs_outside.specs.Causes.{FailsLast};
ghost use Rattle.txs_outside.specs.Known.{Grows};
ghost use Rattle.txs_terms.specs.Sets.{IsPlain};
ghost use Rattle.txs_terms.specs.View.{term_of};
ghost use Rattle.txs_session.specs.Session.{dialled_of, send_told};
ghost use Rattle.txs_session.specs.Ready.{state_of, next_number, IsBusy, IsGoing, IsFresh, IsTied, HasPlainSet, IsPrepared, Keeps, ToldBy};
ghost use Rattle.txs_session.specs.Lines;
ghost use Rattle.txs_drive.specs.Course.{ends_of, due_in};
ghost use Rattle.txs_drive.specs.Cut.{Torn};
ghost use Rattle.txs_drive.specs.inner.CarriedOut.{CarriedOut, CallAnswered, WaitAnswered, IsAhead, IsReady, has_left};
ghost use Rattle.txs_drive.specs.inner.Stopped.{Stopped, Tracks, ends_in};

use sqlite_items::Items;
use std::alloc::Global;
use txs_outside::{End, Ends, Failed, Sink, Sut};
use txs_session::{Answer, Doing, Note, Prepared, Session, answer_of, line_of, sent_line};
use txs_values::{NoMemory, Text};
use txs_words::Model;

/// Why a session stops before its commands are carried out.
#[derive(Clone, Copy)]
pub enum Stop {
    NoMemory,
    Sink,
}

/// How a session goes on after a step.
#[derive(Clone, Copy)]
pub enum Next {
    GoesOn,
    Idle,
    Quit,
}

impl From<NoMemory> for Stop {
    ghost use Rattle.txs_drive.specs.declared.driver.Stop.TheVariants.{NoMemory};

    ghost from_gives = { λ _ e. e ≡ NoMemory };

    fn from(_e: NoMemory) -> Stop {
        Stop::NoMemory
    }
}

impl From<Failed> for Stop {
    ghost use Rattle.txs_drive.specs.declared.driver.Stop.TheVariants.{Sink};

    ghost from_gives = { λ _ e. e ≡ Sink };

    fn from(_e: Failed) -> Stop {
        Stop::Sink
    }
}

/// Writes the whole text.
pub(crate) fn say<K: Sink>(sink: &mut K, text: &str) -> Result<(), Failed>
    ensures ok { OnOk result (Grows (K.taken sink.old) (K.taken sink.new) text.now) }
    ensures torn { OnErr result (Torn (K.taken sink.old) (K.taken sink.new) text.now) }
    ensures cause { FailsLast (K.faults sink.old) (K.faults sink.new) (K.has_failed sink.new) (IsErr result) }
    ensures calm { OnOk result (K.faults sink.new ≡ K.faults sink.old) }
{
    let mut rest = text.as_bytes();
    while !rest.is_empty() {
        let count = sink.write(rest)?;
        let (_, behind) = rest.split_at(count);
        rest = behind;
    }
    Ok(())
}

/// The one end of the model's connection.
fn ends_of(alloc: Global, model: &Model) -> Result<Ends, NoMemory>
    ensures { IfOk result (λ ends. ends ≡ ends_of model.now) }
{
    let mut list = Items::new(alloc);
    list.push(End {
        host: model.host.copy(alloc)?,
        port: model.port,
    })?;
    Ok(Ends {
        listen: false,
        list,
    })
}

/// Dials the ends.
fn dial<U: Sut>(
    alloc: Global,
    model: &Model,
    session: &mut Session,
    sut: &mut U,
) -> Result<(), NoMemory>
    requires ready { IsReady model.now session.old (U.dialled sut.old) }
    requires due { (state_of session.old).todo ≡ Doing.Dial ∷ [] }
    requires fresh { IsFresh (state_of session.old).run }
    ensures called { OnOk result (CallAnswered model.now (state_of session.old) (state_of session.new) (U.calls sut.old) (U.calls sut.new)
        (U.hang_ups sut.old) (U.hang_ups sut.new) (U.faults sut.old) (U.faults sut.new)) }
    ensures ready { OnOk result (IsReady model.now session.new (U.dialled sut.new)) }
    ensures busy { OnOk result (IsAhead Next.GoesOn (state_of session.old) (state_of session.new)) }
    ensures stopped { (k : Option (List ℕ)) → OnErr result (Stopped Stop.NoMemory model.now (state_of session.old) (ends_in session.new) k k (U.calls sut.old) (U.calls sut.new)
        (U.hang_ups sut.old) (U.hang_ups sut.new) (U.faults sut.old) (U.faults sut.new) []) }
    ensures tracks { Tracks (U.dialled sut.old) (U.dialled sut.new) (ends_in session.old) (ends_in session.new) }
    ensures undue { OnOk result (due_in (state_of session.new).todo ≡ []) }
{
    let ends = ends_of(alloc, model)?;
    let ok = sut.dial(&ends).is_ok();
    session.after_dial(alloc, ok)?;
    Ok(())
}

/// Waits once, and says what the answer says.
fn wait_once<U: Sut>(sut: &mut U) -> Answer
    requires { 0 < U.dialled sut.old }
    ensures called { WaitAnswered (U.calls sut.old) (U.calls sut.new) (U.hang_ups sut.old) (U.faults sut.old) (U.faults sut.new) result }
    ensures hang_ups { U.hang_ups sut.new ≡ U.hang_ups sut.old }
    ensures dialled { U.dialled sut.new ≡ U.dialled sut.old }
{
    let mut buf = [0u8; 4096];
    let told = sut.wait(&mut buf);
    answer_of(told, &buf)
}

/// Waits for what the system tells next.
fn wait<U: Sut>(
    alloc: Global,
    model: &Model,
    session: &mut Session,
    sut: &mut U,
) -> Result<(), NoMemory>
    requires ready { IsReady model.now session.old (U.dialled sut.old) }
    requires due { (state_of session.old).todo ≡ Doing.Wait ∷ [] }
    requires going { IsGoing (state_of session.old).run }
    ensures called { OnOk result (CallAnswered model.now (state_of session.old) (state_of session.new) (U.calls sut.old) (U.calls sut.new)
        (U.hang_ups sut.old) (U.hang_ups sut.new) (U.faults sut.old) (U.faults sut.new)) }
    ensures ready { OnOk result (IsReady model.now session.new (U.dialled sut.new)) }
    ensures busy { OnOk result (IsAhead Next.GoesOn (state_of session.old) (state_of session.new)) }
    ensures stopped { (k : Option (List ℕ)) → OnErr result (Stopped Stop.NoMemory model.now (state_of session.old) (ends_in session.new) k k (U.calls sut.old) (U.calls sut.new)
        (U.hang_ups sut.old) (U.hang_ups sut.new) (U.faults sut.old) (U.faults sut.new) []) }
    ensures tracks { Tracks (U.dialled sut.old) (U.dialled sut.new) (ends_in session.old) (ends_in session.new) }
    ensures undue { OnOk result (due_in (state_of session.new).todo ≡ []) }
{
    let answer = wait_once(sut);
    session.after_wait(alloc, answer)?;
    Ok(())
}

/// Sends the line of an action, after which all is prepared; answers whether it was sent.
fn transmit<U: Sut>(
    session: &mut Session,
    value: i128,
    line: &str,
    prepared: Prepared,
    sut: &mut U,
) -> bool
    requires dialled { 0 < U.dialled sut.old }
    requires due { (state_of session.old).todo ≡ Doing.Send value ∷ [] }
    requires going { IsGoing (state_of session.old).run }
    requires plain { HasPlainSet session.old }
    requires line { line.now ≡ Lines.sent_line value }
    requires prepared { IsPrepared value session.old prepared }
    ensures called { (m : Model) → CallAnswered m (state_of session.old) (state_of session.new) (U.calls sut.old) (U.calls sut.new)
        (U.hang_ups sut.old) (U.hang_ups sut.new) (U.faults sut.old) (U.faults sut.new) }
    ensures told { ToldBy (state_of session.old).run (λ r. send_told value result r (state_of session.old)) (state_of session.new) }
    ensures kept { (m : Model) → Keeps m session.old → Keeps m session.new }
    ensures plain { HasPlainSet session.new }
    ensures busy { IsBusy (state_of session.new).run (state_of session.new).todo }
    ensures ends { ends_in session.new ≡ ends_in session.old }
    ensures dialled { U.dialled sut.new ≡ U.dialled sut.old }
{
    let ok = sut.send(0, line.as_bytes()).is_ok();
    session.after_send(value, prepared, ok);
    ok
}

/// What is needed to send an action, found before it is sent.
#[derive(Drop)]
struct Outgoing {
    /// The line that is sent.
    line: Text,
    /// The line that says that it was sent.
    said: Text,
    prepared: Prepared,
}

/// Finds all memory that an action needs.
fn find_memory(
    alloc: Global,
    model: &Model,
    session: &mut Session,
    value: i128,
) -> Result<Outgoing, NoMemory>
    requires going { IsGoing (state_of session.old).run }
    requires plain { HasPlainSet session.old }
    ensures line { IfOk result (λ o. o.line ≡ Lines.sent_line value) }
    ensures said { IfOk result (λ o. o.said ≡ Lines.line_of model.now (Note.In (next_number (state_of session.old).run) value)) }
    ensures prepared { IfOk result (λ o. IsPrepared value session.new o.prepared) }
    ensures same { state_of session.new ≡ state_of session.old }
    ensures kept { (m : Model) → Keeps m session.old → Keeps m session.new }
    ensures plain { HasPlainSet session.new }
{
    let line = sent_line(alloc, value)?;
    let number = session.number();
    let said = line_of(alloc, model, Note::In { number, value })?;
    let prepared = session.prepare(alloc, value)?;
    Ok(Outgoing {
        line,
        said,
        prepared,
    })
}

/// Sends the line of an action and, if it was sent, writes the line that says so. All memory is found before
/// it is sent.
fn send<K: Sink, U: Sut>(
    alloc: Global,
    model: &Model,
    session: &mut Session,
    value: i128,
    sink: &mut K,
    sut: &mut U,
) -> Result<(), Stop>
    requires ready { IsReady model.now session.old (U.dialled sut.old) }
    requires due { (state_of session.old).todo ≡ Doing.Send value ∷ [] }
    requires going { IsGoing (state_of session.old).run }
    ensures carried_out { OnOk result (CarriedOut model.now (state_of session.old) (state_of session.new) (K.taken sink.old) (K.taken sink.new) (U.calls sut.old) (U.calls sut.new)
        (U.hang_ups sut.old) (U.hang_ups sut.new) (U.faults sut.old) (U.faults sut.new) [] false) }
    ensures ready { OnOk result (IsReady model.now session.new (U.dialled sut.new)) }
    ensures busy { OnOk result (IsAhead Next.GoesOn (state_of session.old) (state_of session.new)) }
    ensures stopped { IfErr result (λ stop. Stopped stop model.now (state_of session.old) (ends_in session.new) (K.taken sink.old) (K.taken sink.new) (U.calls sut.old) (U.calls sut.new)
        (U.hang_ups sut.old) (U.hang_ups sut.new) (U.faults sut.old) (U.faults sut.new) []) }
    ensures tracks { Tracks (U.dialled sut.old) (U.dialled sut.new) (ends_in session.old) (ends_in session.new) }
    ensures undue { OnOk result (due_in (state_of session.new).todo ≡ []) }
    ensures sink { FailsLast (K.faults sink.old) (K.faults sink.new) (K.has_failed sink.new) (IsErrOf result Stop.Sink) }
    ensures calm { result ≢ Err Stop.Sink → K.faults sink.new ≡ K.faults sink.old }
{
    let Outgoing {
        line,
        said,
        prepared,
    } = find_memory(alloc, model, session, value)?;
    let is_sent = transmit(session, value, line.as_str(), prepared, sut);
    if !is_sent {
        return Ok(());
    }
    session.next();
    say(sink, said.as_str())?;
    Ok(())
}

/// Does what is to be done next.
fn step<K: Sink, U: Sut>(
    alloc: Global,
    model: &Model,
    session: &mut Session,
    sink: &mut K,
    sut: &mut U,
) -> Result<Next, Stop>
    requires ready { IsReady model.now session.old (U.dialled sut.old) }
    requires busy { IsBusy (state_of session.old).run (state_of session.old).todo }
    requires undue { due_in (state_of session.old).todo ≡ [] }
    ensures carried_out { IfOk result (λ n. CarriedOut model.now (state_of session.old) (state_of session.new) (K.taken sink.old) (K.taken sink.new) (U.calls sut.old) (U.calls sut.new)
        (U.hang_ups sut.old) (U.hang_ups sut.new) (U.faults sut.old) (U.faults sut.new) [] (has_left n)) }
    ensures ready { OnOk result (IsReady model.now session.new (U.dialled sut.new)) }
    ensures ahead { IfOk result (λ n. IsAhead n (state_of session.old) (state_of session.new)) }
    ensures stopped { IfErr result (λ stop. Stopped stop model.now (state_of session.old) (ends_in session.new) (K.taken sink.old) (K.taken sink.new) (U.calls sut.old) (U.calls sut.new)
        (U.hang_ups sut.old) (U.hang_ups sut.new) (U.faults sut.old) (U.faults sut.new) []) }
    ensures tracks { Tracks (U.dialled sut.old) (U.dialled sut.new) (ends_in session.old) (ends_in session.new) }
    ensures undue { OnOk result (due_in (state_of session.new).todo ≡ []) }
    ensures sink { FailsLast (K.faults sink.old) (K.faults sink.new) (K.has_failed sink.new) (IsErrOf result Stop.Sink) }
    ensures calm { result ≢ Err Stop.Sink → K.faults sink.new ≡ K.faults sink.old }
{
    match session.next() {
        Doing::Say(note) => {
            let line = line_of(alloc, model, note)?;
            say(sink, line.as_str())?;
            Ok(Next::GoesOn)
        }
        Doing::HangUp => {
            sut.hang_up();
            Ok(Next::GoesOn)
        }
        Doing::Idle => Ok(Next::Idle),
        Doing::Quit => Ok(Next::Quit),
        Doing::Dial => {
            dial(alloc, model, session, sut)?;
            Ok(Next::GoesOn)
        }
        Doing::Wait => {
            wait(alloc, model, session, sut)?;
            Ok(Next::GoesOn)
        }
        Doing::Send(value) => {
            send(alloc, model, session, value, sink, sut)?;
            Ok(Next::GoesOn)
        }
    }
}

/// Carries out a command line, which is given without its line feed; answers whether the session ends with it.
pub(crate) fn carry_out<K: Sink, U: Sut>(
    alloc: Global,
    model: &Model,
    session: &mut Session,
    line: &[u8],
    sink: &mut K,
    sut: &mut U,
) -> Result<bool, Stop>
    requires start { IsPlain 0 (term_of model.now.start) }
    requires ready { IsReady model.now session.old (U.dialled sut.old) }
    requires idle { (state_of session.old).todo ≡ [] }
    requires tied { IsTied (state_of session.old).run }
    ensures carried_out { IfOk result (λ q. CarriedOut model.now (state_of session.old) (state_of session.new) (K.taken sink.old) (K.taken sink.new) (U.calls sut.old) (U.calls sut.new)
        (U.hang_ups sut.old) (U.hang_ups sut.new) (U.faults sut.old) (U.faults sut.new) (line.now ∷ []) q) }
    ensures ready { OnOk result (IsReady model.now session.new (U.dialled sut.new)) }
    ensures idle { OnOk result ((state_of session.new).todo ≡ []) }
    ensures tied { IfOk result (λ q. q ≡ false → IsTied (state_of session.new).run) }
    ensures stopped { IfErr result (λ stop. Stopped stop model.now (state_of session.old) (ends_in session.new) (K.taken sink.old) (K.taken sink.new) (U.calls sut.old) (U.calls sut.new)
        (U.hang_ups sut.old) (U.hang_ups sut.new) (U.faults sut.old) (U.faults sut.new) (line.now ∷ [])) }
    ensures tracks { Tracks (U.dialled sut.old) (U.dialled sut.new) (ends_in session.old) (ends_in session.new) }
    ensures sink { FailsLast (K.faults sink.old) (K.faults sink.new) (K.has_failed sink.new) (IsErrOf result Stop.Sink) }
    ensures calm { result ≢ Err Stop.Sink → K.faults sink.new ≡ K.faults sink.old }
{
    session.line(alloc, model, line)?;
    'steps: loop {
        match step(alloc, model, session, sink, sut)? {
            Next::GoesOn => {}
            Next::Idle => return Ok(false),
            Next::Quit => return Ok(true),
        }
    }
}
