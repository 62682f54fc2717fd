ghost use Rattle.std.specs.Prelude.{◌≡◌, ◌<◌, ◌≢◌, ◌∷◌, [], ℕ, List, Option, length, IsErr, is_ok, OnOk, OnErr};
ghost use Rattle.txs_outside.specs.Causes.{HasCause};

use crate::{Ends, Failed};
use txs_values::Bytes;

/// What `poll` and `wait` answer: `Nothing` comes from `poll` alone, `Quiet` from `wait` alone.
#[derive(Clone, Copy, Debug, PartialEq, Eq)]
pub enum Told {
    Piece { end: u32, len: usize },
    Nothing,
    Quiet,
    Ended { end: u32 },
    Failed,
}

/// An answer with the bytes of its piece.
#[derive(Debug, Drop)]
pub enum Heard {
    Piece { end: u32, bytes: Bytes },
    Nothing,
    Quiet,
    Ended { end: u32 },
    Failed,
}

/// A call of a system under test with its answer. A buffer is entered by its length.
#[derive(Debug, Drop)]
pub enum SutCall {
    Dial { ends: Ends, ok: bool },
    Poll { room: usize, heard: Heard },
    Wait { room: usize, heard: Heard },
    Send { end: u32, bytes: Bytes, ok: bool },
}

/// A call, and how many calls of `hang_up` came before it.
#[derive(Debug, Drop)]
pub struct SutEntry {
    pub call: SutCall,
    pub hang_ups: u64,
}

/// A system under test.
pub trait Sut {
    ghost use Rattle.std.specs.Prelude.{option_map};
    ghost use Rattle.txs_outside.specs.Known.{Adds};
    ghost use Rattle.txs_outside.specs.Hanging.{more, number_of};
    ghost use Rattle.txs_outside.specs.Calls.{heard_of, IsTold};
    ghost use Rattle.txs_outside.specs.declared.sut.SutEntry.{SutEntry};

    /// Its calls of `dial`, `poll`, `wait` and `send` so far, where they are told.
    ghost calls: { Self → Option (List SutEntry) };

    /// How often `hang_up` was called, up to the type's end, where it is told.
    ghost hang_ups: { Self → Option ℕ };

    /// The number of dialled ends.
    ghost dialled: { Self → ℕ };

    /// How often it failed, up to the type's end. Only a call that failed moves it.
    ghost faults: { Self → ℕ };

    /// Connects to each end or, where it is to listen, waits for one connection at each.
    fn dial(&mut self, ends: &Ends) -> Result<(), Failed>
        ensures calls { Adds (calls self.old) (calls self.new) (record { call = SutCall.Dial ends.now (is_ok result); hang_ups = number_of (hang_ups self.old) } ∷ []) }
        ensures hang_ups { hang_ups self.new ≡ hang_ups self.old }
        ensures dialled { OnOk result (dialled self.new ≡ length ends.now.list) }
        ensures same { OnErr result (dialled self.new ≡ dialled self.old) }
        ensures cause { HasCause (faults self.old) (faults self.new) (IsErr result) }
        ensures calm { OnOk result (faults self.new ≡ faults self.old) };

    /// What has come, without waiting.
    fn poll(&mut self, buf: &mut [u8]) -> Told
        requires room { 0 < length buf.old }
        requires dialled { 0 < dialled self.old }
        ensures told { IsTold (dialled self.old) result buf.new }
        ensures polls { result ≢ Told.Quiet }
        ensures calls { Adds (calls self.old) (calls self.new) (record { call = SutCall.Poll (length buf.old) (heard_of result buf.new); hang_ups = number_of (hang_ups self.old) } ∷ []) }
        ensures hang_ups { hang_ups self.new ≡ hang_ups self.old }
        ensures dialled { dialled self.new ≡ dialled self.old }
        ensures cause { HasCause (faults self.old) (faults self.new) (result ≡ Told.Failed) }
        ensures calm { result ≢ Told.Failed → faults self.new ≡ faults self.old };

    /// What comes next, or that nothing comes.
    fn wait(&mut self, buf: &mut [u8]) -> Told
        requires room { 0 < length buf.old }
        requires dialled { 0 < dialled self.old }
        ensures told { IsTold (dialled self.old) result buf.new }
        ensures waits { result ≢ Told.Nothing }
        ensures calls { Adds (calls self.old) (calls self.new) (record { call = SutCall.Wait (length buf.old) (heard_of result buf.new); hang_ups = number_of (hang_ups self.old) } ∷ []) }
        ensures hang_ups { hang_ups self.new ≡ hang_ups self.old }
        ensures dialled { dialled self.new ≡ dialled self.old }
        ensures cause { HasCause (faults self.old) (faults self.new) (result ≡ Told.Failed) }
        ensures calm { result ≢ Told.Failed → faults self.new ≡ faults self.old };

    /// Sends all the bytes.
    fn send(&mut self, end: u32, bytes: &[u8]) -> Result<(), Failed>
        requires bytes { 0 < length bytes.now }
        requires dialled { end < dialled self.old }
        ensures calls { Adds (calls self.old) (calls self.new) (record { call = SutCall.Send end bytes.now (is_ok result); hang_ups = number_of (hang_ups self.old) } ∷ []) }
        ensures hang_ups { hang_ups self.new ≡ hang_ups self.old }
        ensures dialled { dialled self.new ≡ dialled self.old }
        ensures cause { HasCause (faults self.old) (faults self.new) (IsErr result) }
        ensures calm { OnOk result (faults self.new ≡ faults self.old) };

    /// Ends the connections. It is no entry of the list of calls.
    fn hang_up(&mut self)
        ensures calls { Adds (calls self.old) (calls self.new) [] }
        ensures hang_ups { hang_ups self.new ≡ option_map more (hang_ups self.old) }
        ensures dialled { dialled self.new ≡ 0 }
        ensures faults { faults self.new ≡ faults self.old };
}
