ghost use Rattle.std.specs.Prelude.{◌≡◌, length, IfOk};

use super::*;
use sqlite_items::Items;
use std::net::SocketAddr;
use std::test::Fail;
use txs_outside::EndList;
use txs_values::{NoMemory, Text};

/// One end at a port of this machine.
fn at_port(alloc: Global, listen: bool, port: u16) -> Result<Ends, NoMemory>
    ensures { IfOk result (λ ends. length ends.list ≡ 1) }
{
    let host = Text::from_str(alloc, "127.0.0.1")?;
    let mut list: EndList = Items::new(alloc);
    list.push(End { host, port })?;
    Ok(Ends { listen, list })
}

#[test]
fn talks_to_a_system(rt: HostRuntime) -> Result<(), Fail> {
    let listener = TcpListener::bind(&rt, ("127.0.0.1", 0))?;
    let ends = at_port(rt.alloc(), false, listener.local_addr()?.port())?;
    let mut sut = TcpSut::new(rt.alloc(), &rt);
    let mut buf = [0u8; 4];
    sut.dial(&ends)?;
    let (mut peer, _) = listener.accept()?;

    assert_eq!(rt; sut.poll(&mut buf), Told::Nothing);
    peer.write_all(b"hell")?;
    assert_eq!(rt; sut.wait(&mut buf), Told::Piece { end: 0, len: 4 });
    assert_eq!(rt; buf.as_slice(), b"hell".as_slice());
    peer.shutdown(Shutdown::Write)?;
    assert_eq!(rt; sut.wait(&mut buf), Told::Ended { end: 0 });
    sut.hang_up();
    assert_eq!(rt; peer.read(&mut buf)?, 0);
    Ok(())
}

#[test]
fn accepts_a_connection_at_each_end(rt: HostRuntime) -> Result<(), Fail> {
    let ends = at_port(rt.alloc(), true, 0)?;
    let listeners = bound(rt.alloc(), &rt, ends.list.as_slice())?;
    let address: SocketAddr = listeners[0].local_addr()?;
    let mut peer = TcpStream::connect(&rt, address)?;
    let mut streams = accepted(rt.alloc(), &listeners)?;
    let mut buf = [0u8; 4];
    peer.write_all(b"hi")?;
    assert_eq!(rt;
        look_on(&rt, &mut streams, &mut buf)?,
        Told::Piece { end: 0, len: 2 }
    );
    Ok(())
}

/// A writer that holds back and is interrupted again and again, and takes two bytes at a time.
#[derive(Drop)]
struct Slow {
    taken: Vec<u8>,
    turn: u8,
}

impl Write for Slow {
    fn write(&mut self, buf: &[u8]) -> io::Result<usize> {
        self.turn = self.turn.wrapping_add(1) % 3;
        match self.turn {
            0 => Err(io::Error::from(ErrorKind::WouldBlock)),
            1 => Err(io::Error::from(ErrorKind::Interrupted)),
            _ => {
                let len = buf.len().min(2);
                self.taken.extend_from_slice(&buf[..len])?;
                Ok(len)
            }
        }
    }

    fn flush(&mut self) -> io::Result<()> {
        Ok(())
    }
}

#[test]
fn sends_each_byte_once(rt: HostRuntime) -> Result<(), Fail> {
    let mut slow = Slow {
        taken: Vec::new(rt.alloc()),
        turn: 0,
    };
    send_all(&rt, &mut slow, b"to the end")?;
    assert_eq!(rt; slow.taken.as_slice(), b"to the end".as_slice());
    Ok(())
}
