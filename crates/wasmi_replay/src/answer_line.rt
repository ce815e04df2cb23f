//! The line of an answer.

use std::alloc::Global;
use std::fmt::Display;
use std::io;
use std::io::{ErrorKind, Write};

/// What was written of a line. That memory ran out shows where the line is taken out.
#[derive(Drop)]
pub struct AnswerLine {
    text: String,
    is_cut: bool,
}

impl AnswerLine {
    pub fn new(alloc: Global) -> Self {
        AnswerLine {
            text: String::new(alloc),
            is_cut: false,
        }
    }

    /// What `write!` and `writeln!` call.
    pub fn write_fmt<V: Display + Drop>(&mut self, text: V) {
        if write!(self.text, "{text}").is_err() {
            self.cut();
        }
    }

    /// Notes that memory ran out.
    pub fn cut(&mut self) {
        self.is_cut = true;
    }

    /// Writes the line, which is empty afterwards. Fails where the write fails, or memory ran out.
    pub fn flush<W: Write>(&mut self, out: &mut W) -> io::Result<()> {
        if self.is_cut {
            return Err(ErrorKind::OutOfMemory.into());
        }
        out.write_all(self.text.as_bytes())?;
        self.text.clear();
        Ok(())
    }
}
