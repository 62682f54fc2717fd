ghost use Rattle.std.specs.Prelude.{◌≡◌, ◌≢◌, length, vec_len, IfOk};
ghost use Rattle.txs_outside.specs.Calls.{IsTold};

use crate::retrying;
use std::alloc::Global;
use std::io::{ErrorKind, Read, Write};
use std::marker::Model;
use std::net::{Net, OpenListener, OpenStream, Shutdown, TcpListener, TcpStream};
use std::rt::Clock;
use std::time::{Duration, Instant};
use std::{io, thread};
use txs_outside::{End, Ends, Failed, Sut, Told};

/// How long `wait` listens before it answers `Quiet`.
const LISTEN_MILLIS: u64 = 2_000;

/// How long `send` waits for room that does not come.
const SEND_MILLIS: u64 = 60_000;

/// How long to sleep between two looks.
const NAP_MILLIS: u64 = 1;

/// A system behind TCP connections, which tells none of its calls.
#[derive(Drop)]
pub struct TcpSut<R: Net + Clock + Drop> {
    alloc: Global,
    rt: R,
    ends: Vec<R::Stream>,
    faults: u64,
}

impl<R: Net + Clock + Drop> Model for TcpSut<R> {
    ghost use Rattle.std.specs.Prelude.{length};
    ghost use Rattle.txs_adapters.specs.Edge.{TcpState};

    ghost Value = { TcpState };

    ghost view = { λ s. record { dialled = length s.ends.items; faults = s.faults } };
}

impl<R: Net + Clock + Drop> TcpSut<R> {
    pub fn new(alloc: Global, rt: R) -> TcpSut<R>
        ensures { result ≡ record { dialled = 0; faults = 0 } }
    {
        TcpSut {
            alloc,
            rt,
            ends: Vec::new(alloc),
            faults: 0,
        }
    }
}

impl<R: Net + Clock + Drop> Sut for TcpSut<R> {
    ghost use Rattle.std.specs.Prelude.{None};

    ghost calls = { λ _. None };

    ghost hang_ups = { λ _. None };

    ghost dialled = { λ s. s.dialled };

    ghost faults = { λ s. s.faults };

    fn dial(&mut self, ends: &Ends) -> Result<(), Failed> {
        match dialled(self.alloc, &self.rt, ends) {
            Ok(streams) => {
                self.ends = streams;
                Ok(())
            }
            Err(_) => {
                self.faults = self.faults.saturating_add(1);
                Err(Failed)
            }
        }
    }

    fn poll(&mut self, buf: &mut [u8]) -> Told {
        match look(&mut self.ends, buf) {
            Ok(told) => told,
            Err(_) => {
                self.faults = self.faults.saturating_add(1);
                Told::Failed
            }
        }
    }

    /// Answers `Quiet` after 2,000 milliseconds without a byte on any end.
    fn wait(&mut self, buf: &mut [u8]) -> Told {
        match look_on(&self.rt, &mut self.ends, buf) {
            Ok(told) => told,
            Err(_) => {
                self.faults = self.faults.saturating_add(1);
                Told::Failed
            }
        }
    }

    fn send(&mut self, end: u32, bytes: &[u8]) -> Result<(), Failed> {
        if send_all(&self.rt, &mut self.ends[end as usize], bytes).is_err() {
            self.faults = self.faults.saturating_add(1);
            return Err(Failed);
        }
        Ok(())
    }

    fn hang_up(&mut self) {
        for end in &self.ends {
            let _ = end.shutdown(Shutdown::Both);
        }
        self.ends = Vec::new(self.alloc);
    }
}

/// One connection for each end.
fn dialled<R: Net>(alloc: Global, rt: &R, ends: &Ends) -> io::Result<Vec<R::Stream>>
    ensures { IfOk result (λ v. vec_len v ≡ length ends.now.list) }
{
    let list = ends.list.as_slice();
    if ends.listen {
        let listeners = bound(alloc, rt, list)?;
        accepted(alloc, &listeners)
    } else {
        connected(alloc, rt, list)
    }
}

/// A connection to each end.
fn connected<R: Net>(alloc: Global, rt: &R, list: &[End]) -> io::Result<Vec<R::Stream>>
    ensures { IfOk result (λ v. vec_len v ≡ length list.now) }
{
    let mut streams = Vec::new(alloc);
    for end in list {
        let stream = TcpStream::connect(rt, (end.host.as_str(), end.port))?;
        streams.push(ready(stream)?)?;
    }
    Ok(streams)
}

/// A listener at each end, all of them before the first connection is waited for.
fn bound<R: Net>(alloc: Global, rt: &R, list: &[End]) -> io::Result<Vec<R::Listener>>
    ensures { IfOk result (λ v. vec_len v ≡ length list.now) }
{
    let mut listeners = Vec::new(alloc);
    for end in list {
        listeners.push(TcpListener::bind(rt, (end.host.as_str(), end.port))?)?;
    }
    Ok(listeners)
}

/// A connection from each listener.
fn accepted<L: OpenListener>(alloc: Global, listeners: &[L]) -> io::Result<Vec<L::Stream>>
where
    L::Stream: OpenStream,
    ensures { IfOk result (λ v. vec_len v ≡ length listeners.now) }
{
    let mut streams = Vec::new(alloc);
    for listener in listeners {
        streams.push(ready(accept(listener)?)?)?;
    }
    Ok(streams)
}

/// The next connection, and again where a signal came in between.
fn accept<L: OpenListener>(listener: &L) -> io::Result<L::Stream> {
    for _ in 0..u64::MAX {
        match listener.accept() {
            Ok((stream, _)) => return Ok(stream),
            Err(e) if e.kind() == ErrorKind::Interrupted => {}
            Err(e) => return Err(e),
        }
    }
    Err(io::Error::from(ErrorKind::Interrupted))
}

/// A connection that does not wait, and does not hold back what is sent.
fn ready<S: OpenStream + Drop>(stream: S) -> io::Result<S> {
    stream.set_nonblocking(true)?;
    let _ = stream.set_nodelay(true);
    Ok(stream)
}

/// What has come: bytes before an end that ended.
fn look<S: Read>(ends: &mut [S], buf: &mut [u8]) -> io::Result<Told>
    ensures told { IfOk result (λ told. IsTold (length ends.old) told buf.new) }
    ensures polls { IfOk result (λ told. told ≢ Told.Quiet) }
    ensures sure { IfOk result (λ told. told ≢ Told.Failed) }
{
    let mut ended = Told::Nothing;
    'ends: for i in 0..ends.len() {
        let Ok(end) = u32::try_from(i) else {
            break;
        };
        match retrying::read(&mut ends[i], buf) {
            Ok(0) => ended = Told::Ended { end },
            Ok(len) => return Ok(Told::Piece { end, len }),
            Err(e) if e.kind() == ErrorKind::WouldBlock => {}
            Err(e) => return Err(e),
        }
    }
    Ok(ended)
}

/// What comes, or that nothing came for too long. The last look is begun when the time is over.
fn look_on<R: Clock, S: Read>(rt: &R, ends: &mut [S], buf: &mut [u8]) -> io::Result<Told>
    ensures told { IfOk result (λ told. IsTold (length ends.old) told buf.new) }
    ensures waits { IfOk result (λ told. told ≢ Told.Nothing) }
    ensures sure { IfOk result (λ told. told ≢ Told.Failed) }
{
    let start = Instant::now(rt)?;
    for _ in 0..u64::MAX {
        let is_late = start.elapsed(rt)? >= Duration::from_millis(LISTEN_MILLIS);
        match look(ends, buf)? {
            Told::Nothing if is_late => break,
            Told::Nothing => nap(rt),
            told => return Ok(told),
        }
    }
    Ok(Told::Quiet)
}

/// Sends all the bytes over a connection that does not wait.
fn send_all<R: Clock, S: Write>(rt: &R, stream: &mut S, bytes: &[u8]) -> io::Result<()> {
    let mut rest = bytes;
    let mut start = Instant::now(rt)?;
    for _ in 0..u64::MAX {
        if rest.is_empty() {
            return Ok(());
        }
        match retrying::write(stream, rest) {
            Ok(0) => return Err(io::Error::from(ErrorKind::WriteZero)),
            Ok(count) => {
                rest = &rest[count..];
                start = Instant::now(rt)?;
            }
            Err(e) => {
                let is_late = start.elapsed(rt)? >= Duration::from_millis(SEND_MILLIS);
                if is_late || e.kind() != ErrorKind::WouldBlock {
                    return Err(e);
                }
                nap(rt);
            }
        }
    }
    Err(io::Error::from(ErrorKind::TimedOut))
}

fn nap<R: Clock>(rt: &R) {
    thread::sleep(rt, Duration::from_millis(NAP_MILLIS));
}

#[cfg(test)]
mod tests;
