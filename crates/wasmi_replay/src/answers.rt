//! What calls return, and the lines of the output.

use crate::answer_line::AnswerLine;
use std::cmp::Ordering;
use std::mem;
use wasmi_arena::ArenaError;

/// What a call returned.
#[derive(Drop)]
pub enum Answer {
    /// A word in place of a value.
    Word(&'static str),
    Truth(bool),
    Number(usize),
    Numbers(usize, usize),
    /// The number of a key, or `none`.
    Key(Option<usize>),
    /// An item, or `none`.
    Item(Option<i64>),
    Items(i64, i64),
    /// A key with its item, or `none`.
    Pair(Option<(i64, i64)>),
    /// The key of an entry, with its item if it is occupied.
    Entry(i64, Option<i64>),
    Order(Ordering),
    PartialOrder(Option<Ordering>),
    Hash(u64),
    Error(ArenaError),
    /// The line is written already.
    Written,
}

impl Answer {
    /// A call that returns nothing.
    pub const DONE: Answer = Answer::Word("done");

    /// A line that names no call of the container, or not with its arguments.
    pub const BAD: Answer = Answer::Word("bad line");

    /// An index or a key that has no item.
    pub const NO_ITEM: Answer = Answer::Word("no item");
}

/// An error where no call was made.
pub type Reply = Result<Answer, Answer>;

/// The answer of a call that returns nothing.
pub fn done(outcome: Result<(), ArenaError>) -> Answer {
    match outcome {
        Ok(()) => Answer::DONE,
        Err(error) => Answer::Error(error),
    }
}

/// The answer of a call that returns an item.
pub fn item(outcome: Result<i64, ArenaError>) -> Answer {
    match outcome {
        Ok(item) => Answer::Item(Some(item)),
        Err(error) => Answer::Error(error),
    }
}

/// The answer of a call that lends an item.
pub fn lent(outcome: Result<&i64, ArenaError>) -> Answer {
    match outcome {
        Ok(item) => Answer::Item(Some(*item)),
        Err(error) => Answer::Error(error),
    }
}

/// The answer of a call that may return an item.
pub fn found(outcome: Result<Option<i64>, ArenaError>) -> Answer {
    match outcome {
        Ok(found) => Answer::Item(found),
        Err(error) => Answer::Error(error),
    }
}

/// An item, or `none`.
pub fn shown(found: Option<&i64>) -> Answer {
    match found {
        Some(item) => Answer::Item(Some(*item)),
        None => Answer::Item(None),
    }
}

/// What an item was. It becomes the number.
pub fn written(found: Option<&mut i64>, new: i64) -> Answer {
    match found {
        Some(item) => Answer::Item(Some(mem::replace(item, new))),
        None => Answer::Item(None),
    }
}

/// The same of a call that may fail.
pub fn overwritten(outcome: Result<&mut i64, ArenaError>, new: i64) -> Answer {
    match outcome {
        Ok(item) => Answer::Item(Some(mem::replace(item, new))),
        Err(error) => Answer::Error(error),
    }
}

/// Puts a container that was made in the place of another one.
pub fn keep<C: Drop>(made: Result<C, ArenaError>, place: &mut C) -> Answer {
    match made {
        Ok(made) => {
            *place = made;
            Answer::DONE
        }
        Err(error) => Answer::Error(error),
    }
}

/// Writes the line of an answer. Running out of memory ends the replay.
pub fn write(out: &mut AnswerLine, answer: Answer) {
    match answer {
        Answer::Word(word) => writeln!(out, "{word}"),
        Answer::Truth(truth) => writeln!(out, "{truth}"),
        Answer::Number(number) | Answer::Key(Some(number)) => writeln!(out, "{number}"),
        Answer::Numbers(one, other) => writeln!(out, "{one} {other}"),
        Answer::Item(Some(item)) => writeln!(out, "{item}"),
        Answer::Items(one, other) => writeln!(out, "{one} {other}"),
        Answer::Pair(Some((key, item))) => writeln!(out, "{key}={item}"),
        Answer::Key(None) | Answer::Item(None) | Answer::Pair(None) => writeln!(out, "none"),
        Answer::Entry(key, Some(item)) => writeln!(out, "occupied {key}={item}"),
        Answer::Entry(key, None) => writeln!(out, "vacant {key}"),
        Answer::Order(order) => writeln!(out, "{order:?}"),
        Answer::PartialOrder(order) => writeln!(out, "{order:?}"),
        Answer::Hash(hash) => writeln!(out, "{hash}"),
        Answer::Error(ArenaError::OutOfSystemMemory) => out.cut(),
        Answer::Error(error) => writeln!(out, "error {error}"),
        Answer::Written => (),
    }
}
