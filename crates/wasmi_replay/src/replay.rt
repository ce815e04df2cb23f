//! The loop over the input.

use crate::answer_line::AnswerLine;
use crate::answers::{Answer, Reply, write};
use crate::input_lines::InputLines;
use crate::named::{Keyed, Keys, Named};
use crate::pair_key::PairKey;
use std::alloc::Global;
use std::fmt::Debug;
use std::io::{BufWriter, Read, Write};
use std::num::NonZero;
use std::{io, mem};
use wasmi_arena::{StableArena, StableVec};
use wasmi_collections::{DedupArena, HeadVec, StringInterner};
use wasmi_dense::{Arena, ComponentVec};
use wasmi_hashed as hashed;
use wasmi_ordered as ordered;
use wasmi_vectors::few_keys::FewKeys;

/// A container that calls are made on.
pub trait Container: Sized {
    fn empty(alloc: Global) -> Self;

    /// Makes the call that the words of a line name: a method's name and its arguments. The other container lies beside
    /// this one. An iteration writes what it comes to.
    fn answer(
        &mut self,
        other: &mut Self,
        alloc: Global,
        words: &[&str],
        out: &mut AnswerLine,
    ) -> Reply;
}

/// Makes the calls of the input on the containers that it names, and writes one line for each of its
/// lines.
///
/// Fails where a read or a write fails, or memory runs out. It holds two containers, the longest line with its words, and
/// the longest answer.
pub fn run<R: Read + Drop, W: Write + Drop>(alloc: Global, reader: R, writer: W) -> io::Result<()> {
    let mut replay = Replay {
        alloc,
        lines: InputLines::new(alloc, reader)?,
        answer: AnswerLine::new(alloc),
        out: BufWriter::new(alloc, writer)?,
    };
    let mut more = replay.lines.advance()?;
    for _ in 0..u64::MAX {
        if !more {
            break;
        }
        more = replay.serve_named()?;
    }
    replay.out.flush()
}

// A run over the input. It came to a line.
#[derive(Drop)]
struct Replay<R: Read + Drop, W: Write + Drop> {
    alloc: Global,
    lines: InputLines<R>,
    answer: AnswerLine,
    out: BufWriter<W>,
}

impl<R: Read + Drop, W: Write + Drop> Replay<R, W> {
    // What the line names.
    fn named(&self) -> io::Result<Option<Named>> {
        let words: Vec<&str> = self.lines.text().split(' ').collect(self.alloc)?;
        Ok(Named::parse(&words))
    }

    // Answers the line that names a container, and the lines after it up to the next that begins with `on`. False if
    // there is none.
    fn serve_named(&mut self) -> io::Result<bool> {
        match self.named()? {
            Some(Named::StableVec) => self.serve::<StableVec<i64>>(),
            Some(Named::HeadVec) => self.serve::<HeadVec<i64>>(),
            Some(Named::OrderedMap) => self.serve::<ordered::Map<i64, i64>>(),
            Some(Named::OrderedSet) => self.serve::<ordered::Set<i64>>(),
            Some(Named::HashedMap) => self.serve::<hashed::Map<i64, i64>>(),
            Some(Named::HashedSet) => self.serve::<hashed::Set<i64>>(),
            Some(Named::StringInterner) => self.serve::<StringInterner>(),
            Some(Named::Keyed(keyed, Keys::U32)) => self.serve_keyed::<u32>(keyed),
            Some(Named::Keyed(keyed, Keys::Usize)) => self.serve_keyed::<usize>(keyed),
            Some(Named::Keyed(keyed, Keys::NonZeroU32)) => self.serve_keyed::<NonZero<u32>>(keyed),
            Some(Named::Keyed(keyed, Keys::NonZeroUsize)) => {
                self.serve_keyed::<NonZero<usize>>(keyed)
            }
            Some(Named::Keyed(keyed, Keys::Few)) => self.serve_keyed::<FewKeys<100>>(keyed),
            None => {
                writeln!(self.out, "bad line")?;
                self.lines.advance()
            }
        }
    }

    // The same with keys of a type.
    fn serve_keyed<Key: PairKey + Debug>(&mut self, keyed: Keyed) -> io::Result<bool> {
        match keyed {
            Keyed::StableArena => self.serve::<StableArena<Key, i64>>(),
            Keyed::Arena => self.serve::<Arena<Key, i64>>(),
            Keyed::DedupArena => self.serve::<DedupArena<Key, i64>>(),
            Keyed::ComponentVec => self.serve::<ComponentVec<Key, i64>>(),
        }
    }

    // The same on a container.
    fn serve<C: Container + PartialEq + Debug + Drop>(&mut self) -> io::Result<bool> {
        let mut container = C::empty(self.alloc);
        let mut other = C::empty(self.alloc);
        writeln!(self.out, "new")?;
        for _ in 0..u64::MAX {
            if !self.lines.advance()? {
                break;
            }
            let line = self.lines.text();
            if line.starts_with("on ") {
                return Ok(true);
            }
            let words: Vec<&str> = line.split(' ').collect(self.alloc)?;
            answer(
                &mut container,
                &mut other,
                self.alloc,
                &words,
                &mut self.answer,
            );
            self.answer.flush(&mut self.out)?;
        }
        Ok(false)
    }
}

// Makes a call that each container has, or one of its own, and writes the answer.
fn answer<C: Container + PartialEq + Debug>(
    container: &mut C,
    other: &mut C,
    alloc: Global,
    words: &[&str],
    out: &mut AnswerLine,
) {
    match *words {
        ["exchange"] => {
            mem::swap(container, other);
            write(out, Answer::DONE)
        }
        ["eq"] => write(out, Answer::Truth(*container == *other)),
        ["debug"] => writeln!(out, "{container:?}"),
        _ => match container.answer(other, alloc, words, out) {
            Ok(answer) => write(out, answer),
            Err(answer) => write(out, answer),
        },
    }
}
