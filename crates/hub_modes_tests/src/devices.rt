use std::alloc::{AllocError, Global};
use std::io;
use std::io::{Error, ErrorKind, Read, Write};

/// How many bytes of a write a failing writer takes at most, as a pipe does.
const AT_ONCE: usize = 65_536;

/// Takes what is written while there is room for it, and then fails.
#[derive(Drop)]
pub struct FailingWriter {
    pub room: usize,
    /// How often it took something.
    pub writes: usize,
}

impl FailingWriter {
    pub fn with_room(room: usize) -> FailingWriter {
        FailingWriter { room, writes: 0 }
    }
}

impl Write for FailingWriter {
    fn write(&mut self, bytes: &[u8]) -> io::Result<usize> {
        let count = bytes.len().min(AT_ONCE);
        if self.room < count {
            return Err(Error::from(ErrorKind::BrokenPipe));
        }
        self.room -= count;
        self.writes = self.writes.saturating_add(1);
        Ok(count)
    }

    fn flush(&mut self) -> io::Result<()> {
        Ok(())
    }
}

/// Takes all, and fails to see that it has gone out.
#[derive(Drop)]
pub struct UnflushedWriter;

impl Write for UnflushedWriter {
    fn write(&mut self, bytes: &[u8]) -> io::Result<usize> {
        Ok(bytes.len())
    }

    fn flush(&mut self) -> io::Result<()> {
        Err(Error::from(ErrorKind::BrokenPipe))
    }
}

/// Takes one byte at a time.
#[derive(Drop)]
pub struct SlowWriter {
    pub taken: Vec<u8>,
}

impl Write for SlowWriter {
    fn write(&mut self, bytes: &[u8]) -> io::Result<usize> {
        if bytes.is_empty() {
            return Ok(0);
        }
        match self.taken.push(bytes[0]) {
            Ok(()) => Ok(1),
            Err(_) => Err(Error::from(ErrorKind::OutOfMemory)),
        }
    }

    fn flush(&mut self) -> io::Result<()> {
        Ok(())
    }
}

/// Takes no byte, or is interrupted.
#[derive(Drop)]
pub struct StuckWriter {
    pub is_interrupted: bool,
}

impl Write for StuckWriter {
    fn write(&mut self, _bytes: &[u8]) -> io::Result<usize> {
        if self.is_interrupted {
            Err(Error::from(ErrorKind::Interrupted))
        } else {
            Ok(0)
        }
    }

    fn flush(&mut self) -> io::Result<()> {
        Ok(())
    }
}

/// Gives one byte at a time, and fails at a place.
#[derive(Drop)]
pub struct SlowReader {
    input: Vec<u8>,
    at: usize,
    fails_at: usize,
}

impl SlowReader {
    pub fn new(alloc: Global, input: &[u8]) -> Result<SlowReader, AllocError> {
        SlowReader::failing_at(alloc, input, usize::MAX)
    }

    pub fn failing_at(
        alloc: Global,
        input: &[u8],
        fails_at: usize,
    ) -> Result<SlowReader, AllocError> {
        Ok(SlowReader {
            input: Vec::from_slice(alloc, input)?,
            at: 0,
            fails_at,
        })
    }
}

impl Read for SlowReader {
    fn read(&mut self, piece: &mut [u8]) -> io::Result<usize> {
        if self.at == self.fails_at {
            return Err(Error::from(ErrorKind::BrokenPipe));
        }
        if piece.is_empty() || self.at >= self.input.len() {
            return Ok(0);
        }
        piece[0] = self.input[self.at];
        self.at += 1;
        Ok(1)
    }
}

/// Gives a byte at each read and never ends, or is interrupted at each.
#[derive(Drop)]
pub struct EndlessReader {
    pub is_interrupted: bool,
}

impl Read for EndlessReader {
    fn read(&mut self, piece: &mut [u8]) -> io::Result<usize> {
        if self.is_interrupted || piece.is_empty() {
            return Err(Error::from(ErrorKind::Interrupted));
        }
        piece[0] = b'\n';
        Ok(1)
    }
}

/// Gives so many bytes, one at each read.
#[derive(Drop)]
pub struct ByteReader {
    pub left: usize,
}

impl Read for ByteReader {
    fn read(&mut self, piece: &mut [u8]) -> io::Result<usize> {
        if piece.is_empty() || self.left == 0 {
            return Ok(0);
        }
        self.left -= 1;
        piece[0] = b'a';
        Ok(1)
    }
}

/// Takes all, and counts what it was asked for.
#[derive(Drop)]
pub struct CountingWriter {
    pub writes: usize,
    pub flushes: usize,
    pub bytes: usize,
}

impl CountingWriter {
    pub fn new() -> CountingWriter {
        CountingWriter {
            writes: 0,
            flushes: 0,
            bytes: 0,
        }
    }
}

impl Write for CountingWriter {
    fn write(&mut self, bytes: &[u8]) -> io::Result<usize> {
        self.writes = self.writes.saturating_add(1);
        self.bytes = self.bytes.saturating_add(bytes.len());
        Ok(bytes.len())
    }

    fn flush(&mut self) -> io::Result<()> {
        self.flushes = self.flushes.saturating_add(1);
        Ok(())
    }
}
