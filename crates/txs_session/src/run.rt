ghost use Rattle.std.specs.Prelude.{◌≡◌, ◌<◌, ◌↔◌, ◌∷◌, ◌++◌, [], List, length, IfOk, OnOk, OnErr, false};
ghost use Rattle.txs_terms.specs.Term.{Term as Behaviour};
ghost use Rattle.txs_terms.specs.After.{Observable, acted, quiescence, CanDo, Out};
ghost use Rattle.txs_terms.specs.Sets.{IsAfter, IsPlain, ArePlain};
ghost use Rattle.txs_terms.specs.View.{term_of, terms_of};
ghost use Rattle.txs_session.specs.Allowed.{definitions, scope, sync, observable_of, on, IsAllowed};

use crate::Seen;
use sqlite_items::Items;
use std::alloc::Global;
use txs_terms::{Action, Term, after_action, after_quiescence, first};
use txs_values::NoMemory;
use txs_words::Model;

/// A run of a tester.
#[derive(Drop)]
pub struct Run {
    /// What was numbered, from the first on.
    pub trace: Vec<Seen>,
    pub is_over: bool,
    /// How many ends are dialled.
    pub dialled: usize,
    /// The terms after the trace.
    pub set: Items<Term>,
}

impl Run {
    ghost use Rattle.txs_session.specs.Session.{new_run, seen_run, over_run};
    ghost use Rattle.txs_session.specs.Ready.{run_of, IsKept, HasRoom};

    /// A run whose ends are not dialled yet.
    pub fn begin(alloc: Global, model: &Model) -> Result<Run, NoMemory>
        requires { IsPlain 0 (term_of model.now.start) }
        ensures fresh { IfOk result (λ r. run_of r ≡ new_run) }
        ensures kept { IfOk result (λ r. IsKept model.now r) }
        ensures plain { IfOk result (λ r. ArePlain (terms_of r.set)) }
    {
        let set = first(alloc, &model.start)?;
        Ok(Run {
            trace: Vec::new(alloc),
            is_over: false,
            dialled: 0,
            set,
        })
    }

    /// Makes room for one more element of the trace.
    pub fn make_room(&mut self) -> Result<(), NoMemory>
        ensures same { run_of self.new ≡ run_of self.old }
        ensures set { self.new.set ≡ self.old.set }
        ensures room { OnOk result (HasRoom self.new) }
    {
        self.trace.reserve(1)?;
        Ok(())
    }

    /// Numbers what was seen, and goes on with the terms after it.
    pub fn go_on(&mut self, seen: Seen, set: Items<Term>)
        requires { HasRoom self.old }
        ensures seen { run_of self.new ≡ seen_run seen (run_of self.old) }
        ensures set { self.new.set ≡ set }
    {
        self.trace.push_reserved(seen);
        self.set = set;
    }

    /// Numbers what was seen, with which the run ends.
    pub fn end_at(&mut self, seen: Seen) -> Result<(), NoMemory>
        ensures seen { OnOk result (run_of self.new ≡ over_run (seen_run seen (run_of self.old))) }
        ensures same { OnErr result (run_of self.new ≡ run_of self.old) }
        ensures set { self.new.set ≡ self.old.set }
    {
        self.trace.push(seen)?;
        self.is_over = true;
        Ok(())
    }
}

/// The terms after one more action of a channel.
fn set_after_action(
    alloc: Global,
    set: &[Term],
    channel: u32,
    value: i128,
) -> Result<Items<Term>, NoMemory>
    requires known { channel < 2 }
    requires plain { ArePlain (terms_of set.now) }
    ensures plain { IfOk result (λ ts. ArePlain (terms_of ts)) }
    ensures after { IfOk result (λ ts. (b : Behaviour) (trace : List Observable) → IsAfter definitions scope sync b trace (terms_of set.now)
        → IsAfter definitions scope sync b (acted (on channel value) ∷ trace) (terms_of ts)) }
    ensures moves { IfOk result (λ ts. (b : Behaviour) (trace : List Observable) → IsAfter definitions scope sync b trace (terms_of set.now)
        → (0 < length ts) ↔ CanDo definitions scope sync b trace (on channel value)) }
{
    let action = Action::on(alloc, channel, value)?;
    let found = after_action(alloc, set, &action)?;
    Ok(found)
}

/// The terms after one more action or quiescence; there are some exactly if the rules allow it.
pub fn set_after(alloc: Global, set: &[Term], seen: Seen) -> Result<Items<Term>, NoMemory>
    requires { ArePlain (terms_of set.now) }
    ensures plain { IfOk result (λ ts. ArePlain (terms_of ts)) }
    ensures after { IfOk result (λ ts. (b : Behaviour) (trace : List Observable) → IsAfter definitions scope sync b trace (terms_of set.now)
        → IsAfter definitions scope sync b (observable_of seen ∷ trace) (terms_of ts)) }
    ensures allowed { IfOk result (λ ts. (b : Behaviour) (trace : List Observable) → IsAfter definitions scope sync b trace (terms_of set.now)
        → (0 < length ts) ↔ IsAllowed b trace seen) }
{
    match seen {
        Seen::In(value) => Ok(set_after_action(alloc, set, 0, value)?),
        Seen::Out(value) => Ok(set_after_action(alloc, set, 1, value)?),
        Seen::Quiet => Ok(after_quiescence(alloc, set, 1)?),
    }
}
