ghost use Rattle.std.specs.Prelude.{◌≡◌, [], Some, IfOk};

use crate::call_list::CallList;
use crate::failing::Failing;
use crate::playing::{Playing, heard};
use crate::{Ends, Failed, Heard, Numbers, Script, Sut, SutCall, SutEntry, Told};
use std::alloc::Global;
use std::marker::Model;
use txs_values::{Bytes, NoMemory};

/// A system in memory that answers from a script and lists its calls, and whose listed calls fail.
#[derive(Debug, Drop)]
pub struct MemSut {
    alloc: Global,
    playing: Playing,
    list: CallList,
    dialled: usize,
    hang_ups: u64,
    failing: Failing,
}

impl Model for MemSut {
    ghost use Rattle.txs_outside.specs.Memory.{MemSutState};

    ghost Value = { MemSutState };

    ghost view = { λ s. record {
      script = s.playing;
      dialled = s.dialled;
      calls = s.list;
      hang_ups = s.hang_ups;
      made = s.failing.calls;
      fails = s.failing.fails;
      faults = s.failing.faults;
    } };
}

impl MemSut {
    ghost use Rattle.txs_outside.specs.Known.{Tells};

    /// Reserves room for so many entries. Its calls of `dial`, `poll`, `wait` and `send` are numbered
    /// from 1; one that finds no memory for its entry fails too, and the list is told no more.
    pub fn new(
        alloc: Global,
        script: Script,
        room: usize,
        fails: Numbers,
    ) -> Result<MemSut, NoMemory>
        ensures { IfOk result (λ s. s ≡ record {
          script = script;
          dialled = 0;
          calls = Some [];
          hang_ups = 0;
          made = 0;
          fails = fails;
          faults = 0;
        }) }
    {
        let list = CallList::with_room(alloc, room)?;
        Ok(MemSut {
            alloc,
            playing: Playing::new(script),
            list,
            dialled: 0,
            hang_ups: 0,
            failing: Failing::new(fails),
        })
    }

    /// Its calls so far, or up to the one from which on they are not told.
    pub fn entries(&self) -> &[SutEntry]
        ensures { Tells self.now.calls result.now }
    {
        self.list.entries()
    }

    /// How often `hang_up` was called, up to the type's end.
    pub fn hang_ups(&self) -> u64
        ensures { result ≡ self.now.hang_ups }
    {
        self.hang_ups
    }
}

impl Sut for MemSut {
    ghost use Rattle.std.specs.Prelude.{Some};

    ghost calls = { λ s. s.calls };

    ghost hang_ups = { λ s. Some s.hang_ups };

    ghost dialled = { λ s. s.dialled };

    ghost faults = { λ s. s.faults };

    fn dial(&mut self, ends: &Ends) -> Result<(), Failed> {
        let answer = self.failing.call();
        let ok = answer.is_ok();
        let call = ends.copy(self.alloc).map(|ends| SutCall::Dial { ends, ok });
        if self.list.enter(call, self.hang_ups).is_err() {
            return Err(self.failing.fault());
        }
        answer?;
        self.dialled = ends.list.len();
        Ok(())
    }

    fn poll(&mut self, buf: &mut [u8]) -> Told {
        let dialled = self.dialled;
        let place = self.playing.place;
        let told = match self.failing.call() {
            Ok(()) => self.playing.poll(dialled, buf),
            Err(Failed) => Told::Failed,
        };
        let room = buf.len();
        let heard = heard(self.alloc, dialled, told, buf);
        let call = heard.map(|heard| SutCall::Poll { room, heard });
        if self.list.enter(call, self.hang_ups).is_err() {
            self.playing.place = place;
            self.failing.fault();
            return Told::Failed;
        }
        told
    }

    fn wait(&mut self, buf: &mut [u8]) -> Told {
        let dialled = self.dialled;
        let place = self.playing.place;
        let told = match self.failing.call() {
            Ok(()) => self.playing.wait(dialled, buf),
            Err(Failed) => Told::Failed,
        };
        let room = buf.len();
        let heard = heard(self.alloc, dialled, told, buf);
        let call = heard.map(|heard| SutCall::Wait { room, heard });
        if self.list.enter(call, self.hang_ups).is_err() {
            self.playing.place = place;
            self.failing.fault();
            return Told::Failed;
        }
        told
    }

    fn send(&mut self, end: u32, bytes: &[u8]) -> Result<(), Failed> {
        let answer = self.failing.call();
        let ok = answer.is_ok();
        let call = Bytes::from_slice(self.alloc, bytes).map(|bytes| SutCall::Send {
            end,
            bytes,
            ok,
        });
        if self.list.enter(call, self.hang_ups).is_err() {
            return Err(self.failing.fault());
        }
        answer
    }

    fn hang_up(&mut self) {
        self.dialled = 0;
        self.hang_ups = self.hang_ups.saturating_add(1);
    }
}
