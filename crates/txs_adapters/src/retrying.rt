ghost use Rattle.std.specs.Io.{ReadsAtMost, WritesAtMost};

use std::io;
use std::io::{ErrorKind, Read, Write};

/// Reads, and again where a signal came in between.
pub(crate) fn read<R: Read>(reader: &mut R, buf: &mut [u8]) -> io::Result<usize>
    ensures { ReadsAtMost result buf.new }
{
    for _ in 0..u64::MAX {
        match reader.read(buf) {
            Err(e) if e.kind() == ErrorKind::Interrupted => {}
            answer => return answer,
        }
    }
    Err(io::Error::from(ErrorKind::Interrupted))
}

/// Writes, and again where a signal came in between.
pub(crate) fn write<W: Write>(writer: &mut W, bytes: &[u8]) -> io::Result<usize>
    ensures { WritesAtMost result bytes.now }
{
    for _ in 0..u64::MAX {
        match writer.write(bytes) {
            Err(e) if e.kind() == ErrorKind::Interrupted => {}
            answer => return answer,
        }
    }
    Err(io::Error::from(ErrorKind::Interrupted))
}

/// Flushes, and again where a signal came in between.
pub(crate) fn flush<W: Write>(writer: &mut W) -> io::Result<()> {
    for _ in 0..u64::MAX {
        match writer.flush() {
            Err(e) if e.kind() == ErrorKind::Interrupted => {}
            answer => return answer,
        }
    }
    Err(io::Error::from(ErrorKind::Interrupted))
}

#[cfg(test)]
mod tests {
    use super::*;
    use crate::{ReaderSource, WriterSink};
    use std::test::Fail;
    use txs_outside::{Failed, Got, Sink, Source};

    /// Is interrupted, then gives or takes one byte, then fails.
    #[derive(Drop)]
    struct Flaky {
        turn: u8,
        flushed: u8,
    }

    impl Flaky {
        fn new() -> Flaky {
            Flaky {
                turn: 0,
                flushed: 0,
            }
        }

        fn next(&mut self) -> io::Result<()> {
            self.turn = self.turn.wrapping_add(1) % 3;
            match self.turn {
                1 => Err(io::Error::from(ErrorKind::Interrupted)),
                2 => Ok(()),
                _ => Err(io::Error::from(ErrorKind::Other)),
            }
        }
    }

    impl Read for Flaky {
        fn read(&mut self, buf: &mut [u8]) -> io::Result<usize> {
            self.next()?;
            Ok(buf.len().min(1))
        }
    }

    impl Write for Flaky {
        fn write(&mut self, buf: &[u8]) -> io::Result<usize> {
            self.next()?;
            Ok(buf.len().min(1))
        }

        fn flush(&mut self) -> io::Result<()> {
            self.flushed = 1;
            Ok(())
        }
    }

    #[test]
    fn tries_again_and_fails(rt: HostRuntime) -> Result<(), Fail> {
        let mut buf = [0u8; 4];
        let mut source = ReaderSource::new(Flaky::new());
        assert_eq!(rt; source.read(&mut buf), Got::Bytes { len: 1 });
        assert_eq!(rt; source.read(&mut buf), Got::Failed);
        assert_eq!(rt; source.read(&mut buf), Got::Bytes { len: 1 });
        let mut flaky = Flaky::new();
        let mut sink = WriterSink::new(&mut flaky);
        assert_eq!(rt; sink.write(b"ab"), Ok(1));
        assert_eq!(rt; sink.write(b"b"), Err(Failed));
        assert_eq!(rt; flaky.flushed, 1);
        Ok(())
    }
}
