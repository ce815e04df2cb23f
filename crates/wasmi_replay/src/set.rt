//! Calls on a `Set` of either backing.

use crate::answer_line::AnswerLine;
use crate::answers::{Answer, Reply, done, found, keep, shown};
use crate::format::Plain;
use crate::items::Pairs;
use crate::replay::Container;
use crate::table::answer_table;
use crate::walk::{walk, walk_all, walk_ends, write_all};
use crate::words::read;
use std::alloc::Global;
use std::mem;
use wasmi_hashed::set as hashed;
use wasmi_ordered::set as ordered;

/// A set of numbers. The types of its iterators are those of its backing, so a call on them is a method, and the
/// macro that is its body stands below. Each is asked where the one before knows no such call.
trait AnySet: Sized {
    /// Makes a call that maps or sets of the other backing don't have, or an iteration over the whole.
    fn own(
        &mut self,
        other: &mut Self,
        alloc: Global,
        words: &[&str],
        out: &mut AnswerLine,
    ) -> Reply;

    /// Makes a call of which all words behind its name are numbers. They are read here, once for all such calls.
    fn answer_numbers(
        &mut self,
        other: &mut Self,
        alloc: Global,
        words: &[&str],
        out: &mut AnswerLine,
    ) -> Reply {
        match *words {
            [name] => self.answer_both(name, other),
            [name, key] => {
                let key = read(key)?;
                self.answer_key(name, key, other, alloc, out)
            }
            // The number to add is a map's.
            ["retain", mask, add] => {
                let (mask, _add): (i64, i64) = (read(mask)?, read(add)?);
                Ok(Answer::Number(self.thin(mask)))
            }
            _ => Err(Answer::BAD),
        }
    }

    /// Makes a call on both sets. The set that an operator makes takes the place of the other one.
    fn answer_both(&mut self, name: &str, other: &mut Self) -> Reply;

    /// Makes a call on an element.
    fn answer_key(
        &mut self,
        name: &str,
        key: i64,
        other: &mut Self,
        alloc: Global,
        out: &mut AnswerLine,
    ) -> Reply;

    /// Makes an iteration of so many steps.
    fn answer_walk(
        &mut self,
        name: &str,
        steps: u16,
        other: &mut Self,
        alloc: Global,
        out: &mut AnswerLine,
    ) -> Reply;

    /// Keeps the elements that have a bit of the mask. Counts the calls.
    fn thin(&mut self, mask: i64) -> usize;
}

macro_rules! answer_both {
    ($set:ident, $name:ident, $other:ident) => {
        Ok(match $name {
            "is_subset" => Answer::Truth($set.is_subset($other)),
            "is_superset" => Answer::Truth($set.is_superset($other)),
            "is_disjoint" => Answer::Truth($set.is_disjoint($other)),
            "bitand" => keep($set.bitand($other), $other),
            "bitor" => keep($set.bitor($other), $other),
            "bitxor" => keep($set.bitxor($other), $other),
            "sub" => keep($set.sub($other), $other),
            _ => return Err(Answer::BAD),
        })
    };
}

macro_rules! answer_key {
    ($set:ident, $name:ident, $key:ident, $other:ident, $alloc:ident, $out:ident) => {
        Ok(match ($name, u16::try_from($key)) {
            ("insert", _) => match $set.insert($key) {
                Ok(is_new) => Answer::Truth(is_new),
                Err(error) => Answer::Error(error),
            },
            ("get", _) => shown($set.get(&$key)),
            ("contains", _) => Answer::Truth($set.contains(&$key)),
            ("replace", _) => found($set.replace($key)),
            ("remove", _) => Answer::Truth($set.remove(&$key)),
            ("take", _) => Answer::Item($set.take(&$key)),
            (_, Ok(steps)) => return $set.answer_walk($name, steps, $other, $alloc, $out),
            _ => return Err(Answer::BAD),
        })
    };
}

macro_rules! answer_walk {
    ($set:ident, $name:ident, $steps:ident, $other:ident, $alloc:ident, $out:ident) => {
        match $name {
            "iter" => walk($set.iter(), $steps, Plain, $out),
            "into_iter" => {
                let set = mem::replace($set, Self::new($alloc));
                walk(set.into_iter(), $steps, Plain, $out)
            }
            "union" => walk_all($set.union($other), $steps, Plain, $out),
            "intersection" => walk_all($set.intersection($other), $steps, Plain, $out),
            "difference" => walk_all($set.difference($other), $steps, Plain, $out),
            "symmetric_difference" => {
                walk_all($set.symmetric_difference($other), $steps, Plain, $out)
            }
            _ => return Err(Answer::BAD),
        }
    };
}

macro_rules! thin {
    ($set:ident, $mask:ident) => {{
        let mut calls: usize = 0;
        $set.retain(|element| {
            calls = calls.wrapping_add(1);
            *element & $mask != 0
        });
        calls
    }};
}

impl Container for ordered::Set<i64> {
    fn empty(alloc: Global) -> Self {
        ordered::Set::new(alloc)
    }

    fn answer(
        &mut self,
        other: &mut Self,
        alloc: Global,
        words: &[&str],
        out: &mut AnswerLine,
    ) -> Reply {
        answer_table!(self, other, alloc, words, out, pairs => pairs.keys())
    }
}

impl AnySet for ordered::Set<i64> {
    fn own(
        &mut self,
        other: &mut Self,
        alloc: Global,
        words: &[&str],
        out: &mut AnswerLine,
    ) -> Reply {
        Ok(match *words {
            ["first"] => shown(self.first()),
            ["last"] => shown(self.last()),
            ["pop_first"] => Answer::Item(self.pop_first()),
            ["pop_last"] => Answer::Item(self.pop_last()),
            ["append"] => done(self.append(other)),
            ["for"] => {
                write_all(self.len(), &*self, Plain, out);
                Answer::Written
            }
            ["split_off", from] => keep(self.split_off(&read(from)?), other),
            ["range", from, to, steps] => return range(self, [from, to, steps], out),
            _ => return self.answer_numbers(other, alloc, words, out),
        })
    }

    fn answer_both(&mut self, name: &str, other: &mut Self) -> Reply {
        answer_both!(self, name, other)
    }

    fn answer_key(
        &mut self,
        name: &str,
        key: i64,
        other: &mut Self,
        alloc: Global,
        out: &mut AnswerLine,
    ) -> Reply {
        answer_key!(self, name, key, other, alloc, out)
    }

    fn answer_walk(
        &mut self,
        name: &str,
        steps: u16,
        other: &mut Self,
        alloc: Global,
        out: &mut AnswerLine,
    ) -> Reply {
        answer_walk!(self, name, steps, other, alloc, out);
        Ok(Answer::Written)
    }

    fn thin(&mut self, mask: i64) -> usize {
        thin!(self, mask)
    }
}

fn range(set: &ordered::Set<i64>, [from, to, steps]: [&str; 3], out: &mut AnswerLine) -> Reply {
    let (from, to, steps): (i64, i64, u16) = (read(from)?, read(to)?, read(steps)?);
    if from > to {
        return Ok(Answer::Word("no range"));
    }
    walk_ends(set.range(from..to), steps, Plain, out);
    Ok(Answer::Written)
}

impl Container for hashed::Set<i64> {
    fn empty(alloc: Global) -> Self {
        hashed::Set::new(alloc)
    }

    fn answer(
        &mut self,
        other: &mut Self,
        alloc: Global,
        words: &[&str],
        out: &mut AnswerLine,
    ) -> Reply {
        answer_table!(self, other, alloc, words, out, pairs => pairs.keys())
    }
}

impl AnySet for hashed::Set<i64> {
    fn own(
        &mut self,
        other: &mut Self,
        alloc: Global,
        words: &[&str],
        out: &mut AnswerLine,
    ) -> Reply {
        Ok(match *words {
            ["capacity"] => Answer::Truth(self.capacity() >= self.len()),
            ["shrink_to_fit"] => {
                self.shrink_to_fit();
                Answer::DONE
            }
            ["for"] => {
                write_all(self.len(), &*self, Plain, out);
                Answer::Written
            }
            _ => return self.answer_numbers(other, alloc, words, out),
        })
    }

    fn answer_both(&mut self, name: &str, other: &mut Self) -> Reply {
        answer_both!(self, name, other)
    }

    fn answer_key(
        &mut self,
        name: &str,
        key: i64,
        other: &mut Self,
        alloc: Global,
        out: &mut AnswerLine,
    ) -> Reply {
        answer_key!(self, name, key, other, alloc, out)
    }

    fn answer_walk(
        &mut self,
        name: &str,
        steps: u16,
        other: &mut Self,
        alloc: Global,
        out: &mut AnswerLine,
    ) -> Reply {
        answer_walk!(self, name, steps, other, alloc, out);
        Ok(Answer::Written)
    }

    fn thin(&mut self, mask: i64) -> usize {
        thin!(self, mask)
    }
}
