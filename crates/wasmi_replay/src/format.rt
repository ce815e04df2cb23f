//! How iterations write the items that they come to.

use crate::answer_line::AnswerLine;
use std::fmt::Display;
use std::mem;
use wasmi_arena::ArenaKey;
use wasmi_collections::string_interner::Sym;

/// Writes items. One that is lent may change.
pub trait Format<T>: Drop {
    fn write(&mut self, item: T, out: &mut AnswerLine);
}

/// An item alone.
#[derive(Drop)]
pub struct Plain;

/// A key of a map with its item.
#[derive(Drop)]
pub struct Pair;

/// The number of a key.
#[derive(Drop)]
pub struct Number;

/// The number of a key with its item.
#[derive(Drop)]
pub struct Numbered;

/// The items of a bucket.
#[derive(Drop)]
pub struct Bucket;

/// A symbol with its text.
#[derive(Drop)]
pub struct Text;

/// Items as they were. To each a number is added.
#[derive(Drop)]
pub struct Raised(pub i64);

/// Items as they were. They become a number and the ones after it.
#[derive(Drop)]
pub struct Renewed(pub i64);

impl<T: Display + Drop> Format<T> for Plain {
    fn write(&mut self, item: T, out: &mut AnswerLine) {
        write!(out, "{item}")
    }
}

impl<K: Display + Drop, T: Display + Drop> Format<(K, T)> for Pair {
    fn write(&mut self, (key, item): (K, T), out: &mut AnswerLine) {
        write!(out, "{key}={item}")
    }
}

impl<Key: ArenaKey> Format<Key> for Number {
    fn write(&mut self, key: Key, out: &mut AnswerLine) {
        Plain.write(key.into_usize(), out)
    }
}

impl<Key: ArenaKey, T: Display + Drop> Format<(Key, T)> for Numbered {
    fn write(&mut self, (key, item): (Key, T), out: &mut AnswerLine) {
        Pair.write((key.into_usize(), item), out)
    }
}

impl<'a> Format<&'a [i64]> for Bucket {
    fn write(&mut self, items: &'a [i64], out: &mut AnswerLine) {
        write!(out, "{items:?}")
    }
}

impl<'a> Format<(Sym, &'a str)> for Text {
    fn write(&mut self, (symbol, text): (Sym, &'a str), out: &mut AnswerLine) {
        write!(out, "{symbol}=\"{text}\"")
    }
}

impl Raised {
    // Returns what the item was.
    fn raise(&self, item: &mut i64) -> i64 {
        mem::replace(item, item.wrapping_add(self.0))
    }
}

impl<'a> Format<&'a mut i64> for Raised {
    fn write(&mut self, item: &'a mut i64, out: &mut AnswerLine) {
        Plain.write(self.raise(item), out)
    }
}

impl<'a> Format<(&'a i64, &'a mut i64)> for Raised {
    fn write(&mut self, (key, item): (&'a i64, &'a mut i64), out: &mut AnswerLine) {
        Pair.write((*key, self.raise(item)), out)
    }
}

impl Renewed {
    // Returns what the item was.
    fn renew(&mut self, item: &mut i64) -> i64 {
        let next = self.0.wrapping_add(1);
        mem::replace(item, mem::replace(&mut self.0, next))
    }
}

impl<'a> Format<&'a mut i64> for Renewed {
    fn write(&mut self, item: &'a mut i64, out: &mut AnswerLine) {
        Plain.write(self.renew(item), out)
    }
}

impl<'a, Key: ArenaKey> Format<(Key, &'a mut i64)> for Renewed {
    fn write(&mut self, (key, item): (Key, &'a mut i64), out: &mut AnswerLine) {
        Numbered.write((key, self.renew(item)), out)
    }
}

impl<'a> Format<&'a mut [i64]> for Renewed {
    fn write(&mut self, items: &'a mut [i64], out: &mut AnswerLine) {
        Bucket.write(&*items, out);
        for item in items {
            self.renew(item);
        }
    }
}
