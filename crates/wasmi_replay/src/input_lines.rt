//! The lines of the input.

use std::alloc::Global;
use std::io;
use std::io::{BufRead, BufReader, Read};

/// A reader, and the line that it came to.
#[derive(Drop)]
pub struct InputLines<R: Read + Drop> {
    reader: BufReader<R>,
    line: Vec<u8>,
}

impl<R: Read + Drop> InputLines<R> {
    /// The lines of a reader, before the first one.
    pub fn new(alloc: Global, reader: R) -> io::Result<Self> {
        Ok(InputLines {
            reader: BufReader::new(alloc, reader)?,
            line: Vec::new(alloc),
        })
    }

    /// Goes on to the next line. False if there is none. The memory of the longest line is kept.
    pub fn advance(&mut self) -> io::Result<bool> {
        self.line.clear();
        let count = self.reader.read_until(b'\n', &mut self.line)?;
        Ok(count > 0)
    }

    /// The line without its line feed. Empty if it isn't UTF-8.
    pub fn text(&self) -> &str {
        let bytes = self.line.as_slice();
        let bytes = bytes.strip_suffix(b"\n").unwrap_or(bytes);
        str::from_utf8(bytes).unwrap_or("")
    }
}
