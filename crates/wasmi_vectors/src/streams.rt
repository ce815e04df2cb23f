//! Readers and writers for tests that go byte by byte or fail.
use std::alloc::Global;
use std::io::{self, ErrorKind, Read, Write};

/// Gives one byte a read, and fails at the read of this number, from 1.
#[derive(Drop)]
pub struct Source<'a> {
    bytes: &'a [u8],
    fails_at: u64,
    pub error: ErrorKind,
    /// The number of reads, and of bytes that the shortest buffer had room for.
    pub reads: u64,
    pub least_room: usize,
}

impl<'a> Source<'a> {
    pub fn new(bytes: &'a [u8], fails_at: u64) -> Source<'a> {
        Source {
            bytes,
            fails_at,
            error: ErrorKind::Other,
            reads: 0,
            least_room: usize::MAX,
        }
    }
}

impl Read for Source<'_> {
    fn read(&mut self, buffer: &mut [u8]) -> io::Result<usize> {
        self.reads = self.reads.wrapping_add(1);
        self.least_room = self.least_room.min(buffer.len());
        if self.reads == self.fails_at {
            return Err(self.error.into());
        }
        let Some((first, rest)) = self.bytes.split_first() else {
            return Ok(0);
        };
        let Some(place) = buffer.first_mut() else {
            return Ok(0);
        };
        *place = *first;
        self.bytes = rest;
        Ok(1)
    }
}

/// How a writer takes no more.
#[derive(Clone, Copy, Debug, PartialEq, Eq)]
pub enum Fault {
    Fails,
    TakesNothing,
}

/// Takes one byte a write, but for the write of this number, from 1.
#[derive(Drop)]
pub struct Sink {
    /// What was written.
    pub bytes: Vec<u8>,
    writes: u64,
    fails_at: u64,
    pub fault: Fault,
    pub flush_fails: bool,
}

impl Sink {
    pub fn new(alloc: Global, fails_at: u64) -> Sink {
        Sink {
            bytes: Vec::new(alloc),
            writes: 0,
            fails_at,
            fault: Fault::Fails,
            flush_fails: false,
        }
    }
}

impl Write for Sink {
    fn write(&mut self, buffer: &[u8]) -> io::Result<usize> {
        self.writes = self.writes.wrapping_add(1);
        if self.writes == self.fails_at {
            return match self.fault {
                Fault::Fails => Err(ErrorKind::Other.into()),
                Fault::TakesNothing => Ok(0),
            };
        }
        match buffer.first() {
            Some(byte) => {
                self.bytes.push(*byte)?;
                Ok(1)
            }
            None => Ok(0),
        }
    }

    fn flush(&mut self) -> io::Result<()> {
        if self.flush_fails {
            Err(ErrorKind::Other.into())
        } else {
            Ok(())
        }
    }
}

/// Gives so many bytes, one a read.
#[derive(Drop)]
pub struct Trickle {
    pub left: u64,
}

impl Read for Trickle {
    fn read(&mut self, buffer: &mut [u8]) -> io::Result<usize> {
        match buffer.first_mut() {
            Some(place) if self.left != 0 => {
                *place = b'x';
                self.left = self.left.wrapping_sub(1);
                Ok(1)
            }
            _ => Ok(0),
        }
    }
}
