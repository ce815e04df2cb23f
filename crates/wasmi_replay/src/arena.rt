//! Calls on an `Arena`, a `StableArena` and a `DedupArena`. A line names a key by its number.

use crate::answer_line::AnswerLine;
use crate::answers::{Answer, Reply, done, item, keep, lent, overwritten, shown};
use crate::format::{Number, Numbered, Plain, Renewed};
use crate::items::Consecutive;
use crate::pair_key::PairKey;
use crate::replay::Container;
use crate::stable_vec::answer_place;
use crate::walk::{Left, walk_steps, write_all};
use crate::words::{key_of, read, steps_of};
use std::alloc::Global;
use std::mem;
use std::ops::Range;
use wasmi_arena::{
    ArenaError, ArenaKey, ArenaKeys, StableArena, StableArenaIter, StableArenaIterMut,
};
use wasmi_collections::DedupArena;
use wasmi_dense::{Arena, arena};

impl<'a, Key: ArenaKey> Left for StableArenaIter<'a, Key, i64> {
    fn left(&self) -> Option<usize> {
        Some(self.len())
    }
}

impl<'a, Key: ArenaKey> Left for StableArenaIterMut<'a, Key, i64> {
    fn left(&self) -> Option<usize> {
        Some(self.len())
    }
}

impl<Key: ArenaKey> Left for ArenaKeys<Key> {
    fn left(&self) -> Option<usize> {
        Some(self.len())
    }
}

impl<'a, Key: ArenaKey> Left for arena::Iter<'a, Key, i64> {
    fn left(&self) -> Option<usize> {
        Some(self.len())
    }
}

impl<'a, Key: ArenaKey> Left for arena::IterMut<'a, Key, i64> {
    fn left(&self) -> Option<usize> {
        Some(self.len())
    }
}

impl<Key: ArenaKey> Left for arena::IntoIter<Key, i64> {
    fn left(&self) -> Option<usize> {
        Some(self.len())
    }
}

/// An arena of numbers. The types of its iterators are its own, so a call on them is a method, and the macro that is
/// its body stands below. Each is asked where the one before knows no such call.
trait AnyArena<Key: ArenaKey>: Sized {
    /// Makes a call that not all arenas have, or an iteration.
    fn answer_own(&mut self, words: &[&str], out: &mut AnswerLine) -> Reply;

    /// Makes an iteration. Where it writes, each item is shown as it was, and they become the numbers from one on.
    fn answer_walk(&mut self, words: &[&str], out: &mut AnswerLine) -> Reply;

    /// Makes a call on the item under a key. The number of the key is read here, once for all such calls.
    fn answer_item(&mut self, words: &[&str], out: &mut AnswerLine) -> Reply {
        let answer = match *words {
            [name, number] => match key_of(number) {
                Ok(key) => self.answer_key(name, key),
                Err(answer) => Err(answer),
            },
            [name, number, new] => match key_of(number) {
                Ok(key) => self.answer_new(name, key, read(new)?),
                Err(answer) => Err(answer),
            },
            _ => Err(Answer::BAD),
        };
        match answer {
            Ok(answer) => Ok(answer),
            Err(answer) => self.answer_place(words, answer, out),
        }
    }

    /// Makes a call on the item under a key that takes no other one.
    fn answer_key(&mut self, name: &str, key: Key) -> Reply;

    /// Makes a call on the item under a key that takes a new one.
    fn answer_new(&mut self, name: &str, key: Key, new: i64) -> Reply;

    /// Makes a call on where the items lie, or else returns the answer so far.
    fn answer_place(&self, _words: &[&str], answer: Answer, _out: &mut AnswerLine) -> Reply {
        Err(answer)
    }
}

macro_rules! answer {
    ($arena:ident, $alloc:ident, $words:ident, $out:ident) => {
        Ok(match *$words {
            ["len"] => Answer::Number($arena.len()),
            ["is_empty"] => Answer::Truth($arena.is_empty()),
            ["clear"] => {
                $arena.clear();
                Answer::DONE
            }
            ["next_key"] => number($arena.next_key()),
            ["alloc", item] => number($arena.alloc(read(item)?)),
            ["from_iter", first, count] => {
                let items = Consecutive::read(first, count)?;
                keep(Self::from_iter($alloc, items), $arena)
            }
            _ => return $arena.answer_own($words, $out),
        })
    };
}

macro_rules! answer_walk {
    ($arena:ident, $words:ident, $out:ident) => {
        match *$words {
            ["iter", steps] => walk_steps($arena.iter(), steps_of(steps)?, Numbered, $out),
            ["for"] => write_all($arena.len(), &*$arena, Numbered, $out),
            ["iter_mut", steps, first] => {
                let first = Renewed(read(first)?);
                walk_steps($arena.iter_mut(), steps_of(steps)?, first, $out)
            }
            ["for_mut", first] => write_all($arena.len(), $arena, Renewed(read(first)?), $out),
            _ => return $arena.answer_item($words, $out),
        }
    };
}

macro_rules! answer_key {
    ($arena:ident, $name:ident, $key:ident) => {
        Ok(match $name {
            "get" => lent($arena.get($key)),
            "has" => Answer::Truth($arena.has($key)),
            "index" => {
                if $arena.has($key) {
                    Answer::Item(Some($arena[$key]))
                } else {
                    Answer::NO_ITEM
                }
            }
            _ => return Err(Answer::BAD),
        })
    };
}

macro_rules! answer_new {
    ($arena:ident, $name:ident, $key:ident, $new:ident) => {
        Ok(match $name {
            "get_mut" => overwritten($arena.get_mut($key), $new),
            "put" => item($arena.put($key, $new)),
            "index_mut" => {
                if $arena.has($key) {
                    $arena[$key] = $new;
                    Answer::Word("written")
                } else {
                    Answer::NO_ITEM
                }
            }
            _ => return Err(Answer::BAD),
        })
    };
}

// The number of a key.
fn number<Key: ArenaKey>(key: Result<Key, ArenaError>) -> Answer {
    match key {
        Ok(key) => Answer::Number(key.into_usize()),
        Err(error) => Answer::Error(error),
    }
}

// The numbers of two keys.
fn numbers<Key: ArenaKey>(keys: Result<Range<Key>, ArenaError>) -> Answer {
    match keys {
        Ok(keys) => Answer::Numbers(keys.start.into_usize(), keys.end.into_usize()),
        Err(error) => Answer::Error(error),
    }
}

// The number of a key, if there is one.
fn found<Key: ArenaKey>(key: Option<Key>) -> Answer {
    Answer::Key(key.map(Key::into_usize))
}

impl<Key: ArenaKey> Container for StableArena<Key, i64> {
    fn empty(alloc: Global) -> Self {
        StableArena::new(alloc)
    }

    fn answer(
        &mut self,
        other: &mut Self,
        alloc: Global,
        words: &[&str],
        out: &mut AnswerLine,
    ) -> Reply {
        match *words {
            ["clone"] => Ok(keep(self.clone(), other)),
            ["clone_in"] => Ok(keep(self.clone_in(alloc), other)),
            _ => answer!(self, alloc, words, out),
        }
    }
}

impl<Key: ArenaKey> AnyArena<Key> for StableArena<Key, i64> {
    fn answer_own(&mut self, words: &[&str], out: &mut AnswerLine) -> Reply {
        Ok(match *words {
            ["last"] => shown(self.last()),
            ["alloc_many", count] => numbers(self.alloc_many(usize::from(read::<u16>(count)?))),
            ["swap", first, second] => done(self.swap(key_of(first)?, key_of(second)?)),
            _ => return self.answer_walk(words, out),
        })
    }

    fn answer_walk(&mut self, words: &[&str], out: &mut AnswerLine) -> Reply {
        match *words {
            ["keys", steps] => walk_steps(self.keys(), steps_of(steps)?, Number, out),
            ["values", steps] => walk_steps(self.values(), steps_of(steps)?, Plain, out),
            ["rev_mut", first] => {
                let (len, first) = (self.len(), Renewed(read(first)?));
                write_all(len, self.iter_mut().rev(), first, out)
            }
            _ => answer_walk!(self, words, out),
        }
        Ok(Answer::Written)
    }

    fn answer_key(&mut self, name: &str, key: Key) -> Reply {
        answer_key!(self, name, key)
    }

    fn answer_new(&mut self, name: &str, key: Key, new: i64) -> Reply {
        answer_new!(self, name, key, new)
    }

    fn answer_place(&self, words: &[&str], answer: Answer, out: &mut AnswerLine) -> Reply {
        answer_place(self.items(), words, out).map_err(|_| answer)
    }
}

impl<Key: PairKey> Container for Arena<Key, i64> {
    fn empty(alloc: Global) -> Self {
        Arena::new(alloc)
    }

    fn answer(
        &mut self,
        _: &mut Self,
        alloc: Global,
        words: &[&str],
        out: &mut AnswerLine,
    ) -> Reply {
        match *words {
            ["into_iter", steps] => {
                let steps = steps_of(steps)?;
                let arena = mem::replace(self, Arena::new(alloc));
                walk_steps(arena.into_iter(), steps, Numbered, out);
                Ok(Answer::Written)
            }
            _ => answer!(self, alloc, words, out),
        }
    }
}

impl<Key: PairKey> AnyArena<Key> for Arena<Key, i64> {
    fn answer_own(&mut self, words: &[&str], out: &mut AnswerLine) -> Reply {
        Ok(match *words {
            ["reserve", additional] => {
                let additional = usize::from(read::<u16>(additional)?);
                match self.reserve(additional) {
                    Ok(()) => Answer::Truth(additional <= self.room()),
                    Err(error) => Answer::Error(error),
                }
            }
            ["alloc_many", count] => numbers(self.alloc_many(usize::from(read::<u16>(count)?))),
            ["swap", first, second] => done(self.swap(key_of(first)?, key_of(second)?)),
            ["get_disjoint_mut", first, second, new] => {
                Key::write_both(self, key_of(first)?, key_of(second)?, read(new)?)
            }
            _ => return self.answer_walk(words, out),
        })
    }

    fn answer_walk(&mut self, words: &[&str], out: &mut AnswerLine) -> Reply {
        match *words {
            ["rev_mut", first] => {
                let (len, first) = (self.len(), Renewed(read(first)?));
                write_all(len, self.iter_mut().rev(), first, out)
            }
            _ => answer_walk!(self, words, out),
        }
        Ok(Answer::Written)
    }

    fn answer_key(&mut self, name: &str, key: Key) -> Reply {
        answer_key!(self, name, key)
    }

    fn answer_new(&mut self, name: &str, key: Key, new: i64) -> Reply {
        answer_new!(self, name, key, new)
    }
}

impl<Key: ArenaKey> Container for DedupArena<Key, i64> {
    fn empty(alloc: Global) -> Self {
        DedupArena::new(alloc)
    }

    fn answer(
        &mut self,
        _: &mut Self,
        alloc: Global,
        words: &[&str],
        out: &mut AnswerLine,
    ) -> Reply {
        answer!(self, alloc, words, out)
    }
}

impl<Key: ArenaKey> AnyArena<Key> for DedupArena<Key, i64> {
    fn answer_own(&mut self, words: &[&str], out: &mut AnswerLine) -> Reply {
        Ok(match *words {
            ["key_of", item] => found(self.key_of(&read(item)?)),
            ["index_of", item] => found(self.index().get(&read(item)?).copied()),
            ["replace", number, new] => item(self.replace(key_of(number)?, read(new)?)),
            _ => return self.answer_walk(words, out),
        })
    }

    fn answer_walk(&mut self, words: &[&str], out: &mut AnswerLine) -> Reply {
        answer_walk!(self, words, out);
        Ok(Answer::Written)
    }

    fn answer_key(&mut self, name: &str, key: Key) -> Reply {
        answer_key!(self, name, key)
    }

    fn answer_new(&mut self, name: &str, key: Key, new: i64) -> Reply {
        answer_new!(self, name, key, new)
    }
}
