ghost use Rattle.std.specs.Prelude.{◌≡◌, ◌≢◌, ◌⊎◌, ◌<◌, []};
ghost use Rattle.txs_outside.specs.Causes.{FailsLast};
ghost use Rattle.txs_outside.specs.Known.{Grows, Adds};
ghost use Rattle.txs_terms.specs.Sets.{IsPlain};
ghost use Rattle.txs_terms.specs.View.{term_of};
ghost use Rattle.txs_drive.specs.Course.{hung_after};
ghost use Rattle.txs_drive.specs.Served.{Served, last_of};
ghost use Rattle.txs_drive.specs.Cut.{Torn, CutShort, by_sink, by_memory};
ghost use Rattle.txs_drive.specs.inner.CarriedOut.{code_of};

use crate::driver::say;
use crate::feed::converse;
use crate::{Finish, Stop};
use std::alloc::Global;
use txs_outside::{Sink, Source, Status, Sut};
use txs_session::Session;
use txs_words::Model;

const NOMEM: &str = "NOMEM\n";

/// Writes a line, and answers the status after it.
pub fn close<K: Sink>(sink: &mut K, line: &str, code: u8) -> Status
    requires { code ≢ 4 }
    ensures written { result.code ≡ code → Grows (K.taken sink.old) (K.taken sink.new) line.now }
    ensures code { (result.code ≡ code) ⊎ (result.code ≡ 4) }
    ensures fault { FailsLast (K.faults sink.old) (K.faults sink.new) (K.has_failed sink.new) (result.code ≡ 4) }
    ensures torn { result.code ≡ 4 → Torn (K.taken sink.old) (K.taken sink.new) line.now }
    ensures calm { result.code ≢ 4 → K.faults sink.new ≡ K.faults sink.old }
{
    match say(sink, line) {
        Ok(()) => Status { code },
        Err(_) => Status { code: 4 },
    }
}

/// The status of a session.
fn code_of(finish: Finish, failed: bool) -> u8
    ensures { result ≡ code_of finish failed }
{
    match finish {
        Finish::Quit | Finish::End => { if failed { 10 } else { 0 } }
        Finish::Failed => 3,
        Finish::TooLong => 6,
    }
}

/// Hangs up if so many ends are dialled.
fn hang_up_last<U: Sut>(dialled: usize, sut: &mut U)
    ensures calls { Adds (U.calls sut.old) (U.calls sut.new) [] }
    ensures hang_ups { U.hang_ups sut.new ≡ hung_after (last_of dialled) (U.hang_ups sut.old) }
    ensures faults { U.faults sut.new ≡ U.faults sut.old }
    ensures none { U.dialled sut.old ≡ dialled → U.dialled sut.new ≡ 0 }
{
    if dialled > 0 {
        sut.hang_up();
    }
}

/// One session of a model, from the source's commands to the status; the ends that are dialled last are hung up.
pub fn run_plain<S: Source, K: Sink, U: Sut>(
    alloc: Global,
    model: &Model,
    source: &mut S,
    sink: &mut K,
    sut: &mut U,
) -> Status
    requires { IsPlain 0 (term_of model.now.start) }

    // What was read, written and called, and the status, are those of the reference run.
    ensures served { result.code ≢ 4 → result.code ≢ 5
        → Served model.now (S.given source.old) (S.given source.new) (S.left source.old) (S.left source.new) (S.at_end source.new) (K.taken sink.old) (K.taken sink.new) (U.calls sut.old) (U.calls sut.new)
        (U.hang_ups sut.old) (U.hang_ups sut.new) (U.faults sut.old) (U.faults sut.new) result.code }

    // If the sink failed or memory ran out, so far as it came.
    ensures cut_by_sink { result.code ≡ 4 → CutShort by_sink model.now (S.given source.old) (S.given source.new) (S.left source.old) (S.left source.new) (S.at_end source.new) (K.taken sink.old) (K.taken sink.new) (U.calls sut.old) (U.calls sut.new)
        (U.hang_ups sut.old) (U.hang_ups sut.new) (U.faults sut.old) (U.faults sut.new) }
    ensures cut_by_memory { result.code ≡ 5 → CutShort by_memory model.now (S.given source.old) (S.given source.new) (S.left source.old) (S.left source.new) (S.at_end source.new) (K.taken sink.old) (K.taken sink.new) (U.calls sut.old) (U.calls sut.new)
        (U.hang_ups sut.old) (U.hang_ups sut.new) (U.faults sut.old) (U.faults sut.new) }

    // In the end nothing is dialled.
    ensures hung { U.dialled sut.old ≡ 0 → U.dialled sut.new ≡ 0 }

    // After a failed read or write nothing is read or written any more, and no other status is given.
    ensures read { FailsLast (S.faults source.old) (S.faults source.new) (S.has_failed source.new) (result.code ≡ 3) }
    ensures write { FailsLast (K.faults sink.old) (K.faults sink.new) (K.has_failed sink.new) (result.code ≡ 4) }
    ensures all_read { result.code ≢ 3 → S.faults source.new ≡ S.faults source.old }
    ensures all_written { result.code ≢ 4 → K.faults sink.new ≡ K.faults sink.old }
    ensures known { (result.code ≡ 0) ⊎ (result.code ≡ 10) ⊎ (result.code ≡ 3) ⊎ (result.code ≡ 4) ⊎ (result.code ≡ 5) ⊎ (result.code ≡ 6) }
{
    let mut session = Session::new(alloc);
    let outcome = converse(alloc, model, &mut session, source, sink, sut);
    hang_up_last(session.dialled(), sut);
    match outcome {
        Ok(finish) => Status {
            code: code_of(finish, session.has_failed()),
        },
        Err(Stop::Sink) => Status { code: 4 },
        Err(Stop::NoMemory) => close(sink, NOMEM, 5),
    }
}
