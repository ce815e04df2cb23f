//! The items of a call that takes several.
ghost use Rattle.std.specs.Iterator.{at_most};

use crate::answers::Answer;
use crate::words::read;

/// So many numbers, each one more than the one before, and `i64::MIN` after `i64::MAX`.
#[derive(Clone, Copy)]
pub struct Consecutive {
    pub next: i64,
    pub left: u16,
}

impl Consecutive {
    /// Of two words: the first number, and how many there are.
    pub fn read(first: &str, count: &str) -> Result<Consecutive, Answer> {
        Ok(Consecutive {
            next: read(first)?,
            left: read(count)?,
        })
    }
}

impl Iterator for Consecutive {
    type Item = i64;

    ghost remaining = { λ items. at_most items.left };

    fn next(&mut self) -> Option<i64> {
        if self.left == 0 {
            return None;
        }
        let item = self.next;
        self.next = item.wrapping_add(1);
        self.left -= 1;
        Some(item)
    }
}

/// So many numbers, each a step from the one before, past the ends of `i64` too.
#[derive(Drop)]
pub struct Stepped {
    pub next: i64,
    pub step: i64,
    pub left: u16,
}

impl Iterator for Stepped {
    type Item = i64;

    ghost remaining = { λ items. at_most items.left };

    fn next(&mut self) -> Option<i64> {
        if self.left == 0 {
            return None;
        }
        let item = self.next;
        self.next = item.wrapping_add(self.step);
        self.left -= 1;
        Some(item)
    }
}

/// Such numbers as keys, each with an item: these are a number and the ones after it.
#[derive(Clone, Copy)]
pub struct Pairs {
    pub key: i64,
    pub step: i64,
    pub item: i64,
    pub left: u16,
}

impl Iterator for Pairs {
    type Item = (i64, i64);

    ghost remaining = { λ items. at_most items.left };

    fn next(&mut self) -> Option<(i64, i64)> {
        if self.left == 0 {
            return None;
        }
        let pair = (self.key, self.item);
        self.key = pair.0.wrapping_add(self.step);
        self.item = pair.1.wrapping_add(1);
        self.left -= 1;
        Some(pair)
    }
}

impl Pairs {
    /// Of four words: the first key, the step to the next one, the first item, and how many there are.
    pub fn read(key: &str, step: &str, item: &str, count: &str) -> Result<Pairs, Answer> {
        Ok(Pairs {
            key: read(key)?,
            step: read(step)?,
            item: read(item)?,
            left: read(count)?,
        })
    }

    /// The keys alone.
    pub fn keys(self) -> Stepped {
        Stepped {
            next: self.key,
            step: self.step,
            left: self.left,
        }
    }
}
