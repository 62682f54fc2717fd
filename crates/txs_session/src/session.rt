ghost use Rattle.std.specs.Prelude.{◌≡◌, ◌<◌, ◌↔◌, length, ◌∷◌, ◌++◌, [], List, IfOk, OnOk, OnErr, Some, true, false};
ghost use Rattle.txs_terms.specs.Sets.{IsPlain, ArePlain};
ghost use Rattle.txs_terms.specs.View.{term_of, terms_of};
ghost use Rattle.txs_session.specs.Session as reference;
ghost use Rattle.txs_session.specs.Session.{seen_note};

use crate::run::set_after;
use crate::{Answer, Command, Doing, Ending, Note, Run, Seen, read_command};
use sqlite_items::Items;
use std::alloc::Global;
use txs_terms::Term;
use txs_values::NoMemory;
use txs_words::Model;

/// One session: its run, and what it is to do next.
#[derive(Drop)]
pub struct Session {
    run: Option<Run>,
    has_failed: bool,
    todo: Vec<Doing>,
}

/// What a run goes on with after an action, made before it is sent. `Session::after_send` takes it.
#[derive(Drop)]
pub struct Prepared {
    /// The terms after the action.
    set: Items<Term>,
    /// What is to be done if it was sent.
    sent: Vec<Doing>,
    /// What is to be done if it could not be sent.
    unsent: Vec<Doing>,
}

/// What is to be done, in order.
fn plan(alloc: Global, doings: &[Doing]) -> Result<Vec<Doing>, NoMemory>
    ensures { IfOk result (λ v. v.items ≡ doings.now) }
{
    Ok(Vec::from_slice(alloc, doings)?)
}

/// An observation with which a run fails.
fn plan_fail(alloc: Global, note: Note) -> Result<Vec<Doing>, NoMemory>
    ensures { IfOk result (λ v. v.items ≡ Doing.Say note ∷ Doing.Say (Note.Ended Ending.Fail) ∷ Doing.HangUp ∷ Doing.Idle ∷ []) }
{
    let fail = Doing::Say(Note::Ended(Ending::Fail));
    Ok(plan(alloc, &[Doing::Say(note), fail, Doing::HangUp, Doing::Idle])?)
}

/// A failed send, with which a run ends.
fn plan_link(alloc: Global) -> Result<Vec<Doing>, NoMemory>
    ensures { IfOk result (λ v. v.items ≡ Doing.Say (Note.Ended Ending.Link) ∷ Doing.HangUp ∷ Doing.Idle ∷ []) }
{
    let link = Doing::Say(Note::Ended(Ending::Link));
    Ok(plan(alloc, &[link, Doing::HangUp, Doing::Idle])?)
}

/// The line of what was seen.
fn note_of(number: usize, seen: Seen) -> Note
    ensures { result ≡ seen_note number seen }
{
    match seen {
        Seen::In(value) => Note::In { number, value },
        Seen::Out(value) => Note::Out { number, value },
        Seen::Quiet => Note::Quiet { number },
    }
}

fn is_fail(note: Note) -> bool
    ensures { result ≡ reference.is_fail note }
{
    match note {
        Note::Ended(Ending::Fail) => true,
        _ => false,
    }
}

impl Session {
    ghost use Rattle.std.specs.Option.{option_map};
    ghost use Rattle.std.specs.Prelude.{if◌then◌else◌};
    ghost use Rattle.txs_session.specs.Commands.{command_of};
    ghost use Rattle.txs_session.specs.Session.{at_start, started, is_going, dialled_of, hanging, Carries, IfGoing, Stimulates, refused, does, dial_told, send_told, Judges, Heeds, goes_on, seen_run, over_run, ends_with, done, asks_nothing};
    ghost use Rattle.txs_session.specs.Ready.{state_of, run_of, Keeps, IsBusy, IsGoing, IsFresh, IsTied, IsNext, ToldBy, Judged, HeedsBy, HasPlainSet, IsMoved, IsOver, HasRoomNow, IsPrepared, AllowedNow, IsObserved, next_number, ends_after};

    /// A session before its first line.
    pub fn new(alloc: Global) -> Session
        ensures { state_of result ≡ at_start }
    {
        Session {
            run: None,
            has_failed: false,
            todo: Vec::new(alloc),
        }
    }

    /// Whether a run goes on.
    fn is_going(&self) -> bool
        ensures { result ≡ is_going (state_of self.now).run }
    {
        match &self.run {
            Some(run) => !run.is_over,
            None => false,
        }
    }

    /// Whether FAIL was written.
    pub fn has_failed(&self) -> bool
        ensures { result ≡ (state_of self.now).has_failed }
    {
        self.has_failed
    }

    /// How many ends are dialled.
    pub fn dialled(&self) -> usize
        ensures { result ≡ dialled_of (state_of self.now).run }
    {
        match &self.run {
            Some(run) => run.dialled,
            None => 0,
        }
    }

    fn refuse(&mut self, alloc: Global) -> Result<(), NoMemory>
        ensures refused { OnOk result (state_of self.new ≡ refused (state_of self.old)) }
        ensures run { self.new.run ≡ self.old.run }
    {
        self.todo = plan(alloc, &[Doing::Say(Note::NotCommand), Doing::Idle])?;
        Ok(())
    }

    /// Begins a run, if there is none.
    fn start(&mut self, alloc: Global, model: &Model) -> Result<(), NoMemory>
        requires plain { IsPlain 0 (term_of model.now.start) }
        requires tied { IsTied (state_of self.old).run }
        ensures started { OnOk result (state_of self.new ≡ started (state_of self.old).run (state_of self.old)) }
        ensures kept { Keeps model.now self.old → Keeps model.now self.new }
        ensures plain { HasPlainSet self.old → HasPlainSet self.new }
        ensures busy { OnOk result (IsBusy (state_of self.new).run (state_of self.new).todo) }
        ensures ends { dialled_of (state_of self.new).run ≡ dialled_of (state_of self.old).run }
    {
        if self.run.is_some() {
            return self.refuse(alloc);
        }
        let todo = plan(alloc, &[Doing::Say(Note::Tester), Doing::Dial])?;
        self.run = Some(Run::begin(alloc, model)?);
        self.todo = todo;
        Ok(())
    }

    /// Waits for what the system tells, if a run goes on.
    fn observe(&mut self, alloc: Global) -> Result<(), NoMemory>
        requires { IsTied (state_of self.old).run }
        ensures observes { OnOk result (IfGoing (state_of self.old).run (state_of self.old) (λ r t. t ≡ does (Doing.Wait ∷ []) (state_of self.old)) (state_of self.new)) }
        ensures busy { OnOk result (IsBusy (state_of self.new).run (state_of self.new).todo) }
        ensures run { self.new.run ≡ self.old.run }
    {
        if !self.is_going() {
            return Ok(self.refuse(alloc)?);
        }
        self.todo = plan(alloc, &[Doing::Wait])?;
        Ok(())
    }

    /// The terms after one more action or quiescence; there are some exactly if the rules allow it.
    fn moved(&self, alloc: Global, seen: Seen) -> Result<Items<Term>, NoMemory>
        requires going { IsGoing (state_of self.now).run }
        requires plain { HasPlainSet self.now }
        ensures plain { IfOk result (λ ts. ArePlain (terms_of ts)) }
        ensures after { IfOk result (λ ts. (m : Model) → Keeps m self.now → IsMoved m seen self.now.run ts) }
        ensures allowed { IfOk result (λ ts. (m : Model) → Keeps m self.now → (0 < length ts) ↔ AllowedNow m seen self.now.run) }
    {
        let Some(run) = &self.run else { unreachable!() };
        Ok(set_after(alloc, run.set.as_slice(), seen)?)
    }

    /// The number of the next element of the trace.
    pub fn number(&self) -> usize
        requires { IsGoing (state_of self.now).run }
        ensures { result ≡ next_number (state_of self.now).run }
    {
        let Some(run) = &self.run else { unreachable!() };
        run.trace.len() + 1
    }

    /// Makes room for one more element of the trace.
    fn make_room(&mut self) -> Result<(), NoMemory>
        requires { IsGoing (state_of self.old).run }
        ensures same { state_of self.new ≡ state_of self.old }
        ensures kept { (m : Model) → Keeps m self.old → Keeps m self.new }
        ensures moved { (m : Model) → (x : Seen) → (set : List Term) → IsMoved m x self.old.run set → IsMoved m x self.new.run set }
        ensures plain { HasPlainSet self.old → HasPlainSet self.new }
        ensures room { OnOk result (HasRoomNow self.new.run) }
    {
        let Some(mut run) = self.run.take() else {
            unreachable!()
        };
        let result = run.make_room();
        self.run = Some(run);
        result?;
        Ok(())
    }

    /// Numbers what was seen, and goes on with the terms after it.
    fn see(&mut self, seen: Seen, set: Items<Term>, todo: Vec<Doing>)
        requires going { IsGoing (state_of self.old).run }
        requires room { HasRoomNow self.old.run }
        requires plain { ArePlain (terms_of set) }
        ensures seen { ToldBy (state_of self.old).run (λ r. goes_on (seen_run seen r) todo.items (state_of self.old)) (state_of self.new) }
        ensures going { IsGoing (state_of self.new).run }
        ensures plain { HasPlainSet self.new }
        ensures kept { (m : Model) → IsMoved m seen self.old.run set → Keeps m self.new }
        ensures ends { dialled_of (state_of self.new).run ≡ dialled_of (state_of self.old).run }
    {
        let Some(mut run) = self.run.take() else {
            unreachable!()
        };
        run.go_on(seen, set);
        self.run = Some(run);
        self.todo = todo;
    }

    /// Numbers what was seen, with which the run ends.
    fn see_last(&mut self, seen: Seen, todo: Vec<Doing>) -> Result<(), NoMemory>
        requires going { IsGoing (state_of self.old).run }
        requires plain { HasPlainSet self.old }
        ensures seen { OnOk result (ToldBy (state_of self.old).run (λ r. goes_on (over_run (seen_run seen r)) todo.items (state_of self.old)) (state_of self.new)) }
        ensures plain { OnOk result (HasPlainSet self.new) }
        ensures kept { OnOk result ((m : Model) → Keeps m self.new) }
        ensures ends { dialled_of (state_of self.new).run ≡ dialled_of (state_of self.old).run }
    {
        let Some(mut run) = self.run.take() else {
            unreachable!()
        };
        let result = run.end_at(seen);
        self.run = Some(run);
        result?;
        self.todo = todo;
        Ok(())
    }

    /// Sends an action exactly if the rules allow it.
    fn try_send(&mut self, alloc: Global, value: i128) -> Result<(), NoMemory>
        requires going { IsGoing (state_of self.old).run }
        requires plain { HasPlainSet self.old }
        ensures stimulates { OnOk result ((m : Model) → Keeps m self.old → IfGoing (state_of self.old).run (state_of self.old) (Stimulates m value (state_of self.old)) (state_of self.new)) }
        ensures busy { OnOk result (IsBusy (state_of self.new).run (state_of self.new).todo) }
        ensures run { self.new.run ≡ self.old.run }
    {
        let set = self.moved(alloc, Seen::In(value))?;
        if set.as_slice().is_empty() {
            self.todo = plan(alloc, &[Doing::Say(Note::NotAllowed), Doing::Idle])?;
            return Ok(());
        }
        self.todo = plan(alloc, &[Doing::Send(value)])?;
        Ok(())
    }

    /// Hangs up if the ends are dialled, and ends the session.
    fn leave(&mut self, alloc: Global) -> Result<(), NoMemory>
        ensures left { OnOk result (state_of self.new ≡ does (hanging (dialled_of (state_of self.old).run) ++ Doing.Quit ∷ []) (state_of self.old)) }
        ensures busy { OnOk result (IsBusy (state_of self.new).run (state_of self.new).todo) }
        ensures run { self.new.run ≡ self.old.run }
    {
        if self.dialled() > 0 {
            self.todo = plan(alloc, &[Doing::HangUp, Doing::Quit])?;
            return Ok(());
        }
        self.todo = plan(alloc, &[Doing::Quit])?;
        Ok(())
    }

    /// Takes a command line, which is given without its line feed.
    pub fn line(&mut self, alloc: Global, model: &Model, line: &[u8]) -> Result<(), NoMemory>
        requires start { IsPlain 0 (term_of model.now.start) }
        requires plain { HasPlainSet self.old }
        requires kept { Keeps model.now self.old }
        requires tied { IsTied (state_of self.old).run }
        ensures carries { OnOk result (Carries model.now (command_of model.now line.now) (state_of self.old) (state_of self.new)) }
        ensures kept { Keeps model.now self.new }
        ensures plain { HasPlainSet self.new }
        ensures busy { OnOk result (IsBusy (state_of self.new).run (state_of self.new).todo) }
        ensures ends { dialled_of (state_of self.new).run ≡ dialled_of (state_of self.old).run }
    {
        match read_command(model, line) {
            Command::Pass => {
                self.todo = plan(alloc, &[Doing::Idle])?;
                Ok(())
            }
            Command::Quit => Ok(self.leave(alloc)?),
            Command::Refused => Ok(self.refuse(alloc)?),
            Command::Tester => Ok(self.start(alloc, model)?),
            Command::Observe => Ok(self.observe(alloc)?),
            Command::Stimulate(value) => {
                if !self.is_going() {
                    return Ok(self.refuse(alloc)?);
                }
                Ok(self.try_send(alloc, value)?)
            }
        }
    }

    /// What is to be done next. It is done with this call, but for a call on the system, which waits for its answer.
    pub fn next(&mut self) -> Doing
        requires { IsBusy (state_of self.old).run (state_of self.old).todo }
        ensures next { IsNext result (state_of self.old) (state_of self.new) }
        ensures ends { dialled_of (state_of self.new).run ≡ ends_after result (dialled_of (state_of self.old).run) }
        ensures kept { (m : Model) → Keeps m self.old → Keeps m self.new }
        ensures plain { HasPlainSet self.old → HasPlainSet self.new }
    {
        let doing = self.todo[0];
        match doing {
            Doing::Say(note) => {
                self.todo.remove(0);
                if is_fail(note) {
                    self.has_failed = true;
                }
            }
            Doing::HangUp => {
                self.todo.remove(0);
                if let Some(run) = &mut self.run {
                    run.dialled = 0;
                }
            }
            Doing::Idle | Doing::Quit => {
                self.todo.remove(0);
            }
            Doing::Dial | Doing::Wait | Doing::Send(_) => {}
        }
        doing
    }

    /// The answer to `Dial`: whether the ends are dialled.
    pub fn after_dial(&mut self, alloc: Global, ok: bool) -> Result<(), NoMemory>
        requires due { (state_of self.old).todo ≡ Doing.Dial ∷ [] }
        requires fresh { IsFresh (state_of self.old).run }
        ensures told { OnOk result (ToldBy (state_of self.old).run (λ r. dial_told ok r (state_of self.old)) (state_of self.new)) }
        ensures kept { (m : Model) → Keeps m self.old → Keeps m self.new }
        ensures plain { HasPlainSet self.old → HasPlainSet self.new }
        ensures busy { OnOk result (IsBusy (state_of self.new).run (state_of self.new).todo) }
        ensures ends { dialled_of (state_of self.new).run ≡ (if ok then 1 else 0) }
    {
        let Some(run) = &mut self.run else {
            unreachable!()
        };
        if ok {
            run.dialled = 1;
            self.todo = plan(alloc, &[Doing::Idle])?;
            return Ok(());
        }
        run.is_over = true;
        self.todo = plan(alloc, &[Doing::Say(Note::Ended(Ending::Link)), Doing::Idle])?;
        Ok(())
    }

    /// Ends the run, whose ends are dialled.
    fn end(&mut self, alloc: Global, ending: Ending) -> Result<(), NoMemory>
        requires { IsGoing (state_of self.old).run }
        ensures ended { OnOk result (ToldBy (state_of self.old).run (λ r. goes_on (over_run r) (ends_with ending r) (state_of self.old)) (state_of self.new)) }
        ensures kept { (m : Model) → Keeps m self.old → Keeps m self.new }
        ensures plain { HasPlainSet self.old → HasPlainSet self.new }
        ensures busy { OnOk result (IsBusy (state_of self.new).run (state_of self.new).todo) }
        ensures ends { dialled_of (state_of self.new).run ≡ dialled_of (state_of self.old).run }
    {
        let Some(run) = &mut self.run else {
            unreachable!()
        };
        run.is_over = true;
        self.todo = plan(
            alloc,
            &[Doing::Say(Note::Ended(ending)), Doing::HangUp, Doing::Idle],
        )?;
        Ok(())
    }

    /// Makes all that goes on after an action before it is sent, so that nothing is wanting once it is.
    pub fn prepare(&mut self, alloc: Global, value: i128) -> Result<Prepared, NoMemory>
        requires going { IsGoing (state_of self.old).run }
        requires plain { HasPlainSet self.old }
        ensures prepared { IfOk result (λ p. IsPrepared value self.new p) }
        ensures same { state_of self.new ≡ state_of self.old }
        ensures kept { (m : Model) → Keeps m self.old → Keeps m self.new }
        ensures plain { HasPlainSet self.new }
    {
        self.make_room()?;
        let number = self.number();
        let sent = plan(
            alloc,
            &[Doing::Say(Note::In { number, value }), Doing::Idle],
        )?;
        let unsent = plan_link(alloc)?;
        let set = self.moved(alloc, Seen::In(value))?;
        Ok(Prepared { set, sent, unsent })
    }

    /// The run ends, with what is still to be done.
    fn end_with(&mut self, todo: Vec<Doing>)
        requires { IsGoing (state_of self.old).run }
        ensures ended { ToldBy (state_of self.old).run (λ r. goes_on (over_run r) todo.items (state_of self.old)) (state_of self.new) }
        ensures kept { (m : Model) → Keeps m self.old → Keeps m self.new }
        ensures plain { HasPlainSet self.old → HasPlainSet self.new }
        ensures over { IsOver (state_of self.new).run }
        ensures ends { dialled_of (state_of self.new).run ≡ dialled_of (state_of self.old).run }
    {
        let Some(run) = &mut self.run else {
            unreachable!()
        };
        run.is_over = true;
        self.todo = todo;
    }

    /// The answer to `Send`: whether the line was sent.
    pub fn after_send(&mut self, value: i128, prepared: Prepared, ok: bool)
        requires due { (state_of self.old).todo ≡ Doing.Send value ∷ [] }
        requires going { IsGoing (state_of self.old).run }
        requires plain { HasPlainSet self.old }
        requires prepared { IsPrepared value self.old prepared }
        ensures told { ToldBy (state_of self.old).run (λ r. send_told value ok r (state_of self.old)) (state_of self.new) }
        ensures kept { (m : Model) → Keeps m self.old → Keeps m self.new }
        ensures plain { HasPlainSet self.new }
        ensures busy { IsBusy (state_of self.new).run (state_of self.new).todo }
        ensures ends { dialled_of (state_of self.new).run ≡ dialled_of (state_of self.old).run }
    {
        let Prepared { set, sent, unsent } = prepared;
        if ok {
            self.see(Seen::In(value), set, sent);
        } else {
            self.end_with(unsent);
        }
    }

    /// Numbers an observation; FAIL follows exactly if the rules do not allow it.
    fn judge(&mut self, alloc: Global, seen: Seen) -> Result<(), NoMemory>
        requires observed { IsObserved seen }
        requires going { IsGoing (state_of self.old).run }
        requires plain { HasPlainSet self.old }
        ensures judges { OnOk result ((m : Model) → Keeps m self.old → Judged m seen (state_of self.old).run (state_of self.old) (state_of self.new)) }
        ensures kept { OnOk result ((m : Model) → Keeps m self.old → Keeps m self.new) }
        ensures plain { OnOk result (HasPlainSet self.new) }
        ensures busy { OnOk result (IsBusy (state_of self.new).run (state_of self.new).todo) }
        ensures ends { dialled_of (state_of self.new).run ≡ dialled_of (state_of self.old).run }
    {
        let note = note_of(self.number(), seen);
        let set = self.moved(alloc, seen)?;
        if set.as_slice().is_empty() {
            let todo = plan_fail(alloc, note)?;
            return Ok(self.see_last(seen, todo)?);
        }
        let todo = plan(alloc, &[Doing::Say(note), Doing::Idle])?;
        self.make_room()?;
        self.see(seen, set, todo);
        Ok(())
    }

    /// The answer to `Wait`, by what it says.
    pub fn after_wait(&mut self, alloc: Global, answer: Answer) -> Result<(), NoMemory>
        requires due { (state_of self.old).todo ≡ Doing.Wait ∷ [] }
        requires going { IsGoing (state_of self.old).run }
        requires plain { HasPlainSet self.old }
        ensures heeds { OnOk result ((m : Model) → Keeps m self.old → HeedsBy m answer (state_of self.old).run (state_of self.old) (state_of self.new)) }
        ensures kept { OnOk result ((m : Model) → Keeps m self.old → Keeps m self.new) }
        ensures plain { OnOk result (HasPlainSet self.new) }
        ensures busy { OnOk result (IsBusy (state_of self.new).run (state_of self.new).todo) }
        ensures ends { dialled_of (state_of self.new).run ≡ dialled_of (state_of self.old).run }
    {
        match answer {
            Answer::Number(value) => Ok(self.judge(alloc, Seen::Out(value))?),
            Answer::Quiet => Ok(self.judge(alloc, Seen::Quiet)?),
            Answer::Breaks => Ok(self.end(alloc, Ending::Link)?),
            Answer::Later => Ok(self.end(alloc, Ending::Later)?),
        }
    }
}
