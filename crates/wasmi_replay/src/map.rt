//! Calls on a `Map` of either backing.

use crate::answer_line::AnswerLine;
use crate::answers::{Answer, Reply, done, found, item, keep, overwritten, shown, written};
use crate::format::{Pair, Plain, Raised};
use crate::items::Pairs;
use crate::replay::Container;
use crate::table::answer_table;
use crate::walk::{walk, walk_ends, write_all};
use crate::words::read;
use std::alloc::Global;
use std::mem;
use wasmi_hashed::map as hashed;
use wasmi_ordered::map as ordered;

/// A map of numbers. The types of its iterators and entries are those of its backing, so a call on them is a method,
/// and the macro that is its body stands below. Each is asked where the one before knows no such call.
trait AnyMap: Sized {
    /// Makes a call that sets or maps of the other backing don't have, or an iteration over the whole.
    fn own(
        &mut self,
        other: &mut Self,
        alloc: Global,
        words: &[&str],
        out: &mut AnswerLine,
    ) -> Reply;

    /// Makes a call of which all words behind its name are numbers. They are read here, once for all such calls.
    fn answer_numbers(&mut self, alloc: Global, words: &[&str], out: &mut AnswerLine) -> Reply {
        match *words {
            [name, number] => {
                let number = read(number)?;
                self.answer_key(name, number, alloc, out)
            }
            [name, key, item] => {
                let (key, item) = (read(key)?, read(item)?);
                self.answer_item(name, key, item, out)
            }
            [name, key, item, new] => {
                let (key, item, new) = (read(key)?, read(item)?, read(new)?);
                self.answer_new(name, key, item, new)
            }
            _ => Err(Answer::BAD),
        }
    }

    /// Makes a call on a key.
    fn answer_key(&mut self, name: &str, key: i64, alloc: Global, out: &mut AnswerLine) -> Reply;

    /// Makes a call on the entry of a key.
    fn answer_entry(&mut self, name: &str, key: i64, alloc: Global, out: &mut AnswerLine) -> Reply;

    /// Makes an iteration of so many steps, or one that makes each item more by the number and shows it as it was.
    fn answer_walk(
        &mut self,
        name: &str,
        number: i64,
        alloc: Global,
        out: &mut AnswerLine,
    ) -> Reply;

    /// Makes a call on a key and an item, or an iteration of so many steps that makes each item more by a number.
    fn answer_item(&mut self, name: &str, key: i64, item: i64, out: &mut AnswerLine) -> Reply;

    /// Makes a call on the entry of a key and an item, which is written where a reference comes back.
    fn answer_entry_item(&mut self, name: &str, key: i64, item: i64) -> Reply;

    /// Makes a call on the entry of a key and an item or a number to add. The last number is written where a reference
    /// comes back.
    fn answer_new(&mut self, name: &str, key: i64, item: i64, new: i64) -> Reply;

    /// Adds a number to each item, and keeps those that differ from their keys in a bit of the mask. Counts the calls.
    fn thin(&mut self, mask: i64, add: i64) -> usize;
}

// What the entry of a key answers.
macro_rules! entry {
    ($map:ident, $key:ident, $entry:pat => $answer:expr) => {
        match $map.entry($key) {
            Ok($entry) => $answer,
            Err(error) => Answer::Error(error),
        }
    };
}

// What the entry of a key that is there answers.
macro_rules! occupied {
    ($map:ident, $backing:ident, $key:ident, $entry:pat => $answer:expr) => {
        match $map.entry($key) {
            Ok($backing::Entry::Occupied($entry)) => $answer,
            Ok($backing::Entry::Vacant(_)) => Answer::Word("vacant"),
            Err(error) => Answer::Error(error),
        }
    };
}

// What the entry of a key that isn't there answers.
macro_rules! vacant {
    ($map:ident, $backing:ident, $key:ident, $entry:pat => $answer:expr) => {
        match $map.entry($key) {
            Ok($backing::Entry::Vacant($entry)) => $answer,
            Ok($backing::Entry::Occupied(_)) => Answer::Word("occupied"),
            Err(error) => Answer::Error(error),
        }
    };
}

// A key with its item, or `none`.
fn pair(found: Option<(&i64, &i64)>) -> Answer {
    match found {
        Some((key, item)) => Answer::Pair(Some((*key, *item))),
        None => Answer::Pair(None),
    }
}

macro_rules! answer_key {
    ($map:ident, $name:ident, $key:ident, $alloc:ident, $out:ident) => {
        Ok(match $name {
            "get" => shown($map.get(&$key)),
            "contains_key" => Answer::Truth($map.contains_key(&$key)),
            "get_key_value" => pair($map.get_key_value(&$key)),
            "index" => {
                if $map.contains_key(&$key) {
                    Answer::Item(Some($map[&$key]))
                } else {
                    Answer::NO_ITEM
                }
            }
            "remove" => Answer::Item($map.remove(&$key)),
            "remove_entry" => Answer::Pair($map.remove_entry(&$key)),
            _ => return $map.answer_entry($name, $key, $alloc, $out),
        })
    };
}

macro_rules! answer_entry {
    ($map:ident, $backing:ident, $name:ident, $key:ident, $alloc:ident, $out:ident) => {
        Ok(match $name {
            "entry" => match $map.entry($key) {
                Ok($backing::Entry::Occupied(entry)) => {
                    Answer::Entry(*entry.key(), Some(*entry.get()))
                }
                Ok($backing::Entry::Vacant(entry)) => Answer::Entry(*entry.key(), None),
                Err(error) => Answer::Error(error),
            },
            "entry_key" => entry!($map, $key, entry => Answer::Item(Some(*entry.key()))),
            "occupied_remove" => {
                occupied!($map, $backing, $key, entry => Answer::Item(Some(entry.remove())))
            }
            "occupied_remove_entry" => {
                occupied!($map, $backing, $key, entry => Answer::Pair(Some(entry.remove_entry())))
            }
            "vacant_into_key" => {
                vacant!($map, $backing, $key, entry => Answer::Item(Some(entry.into_key())))
            }
            _ => return $map.answer_walk($name, $key, $alloc, $out),
        })
    };
}

macro_rules! answer_walk {
    ($map:ident, $name:ident, $number:ident, $alloc:ident, $out:ident) => {
        match ($name, u16::try_from($number)) {
            ("iter", Ok(steps)) => walk($map.iter(), steps, Pair, $out),
            ("keys", Ok(steps)) => walk($map.keys(), steps, Plain, $out),
            ("values", Ok(steps)) => walk($map.values(), steps, Plain, $out),
            ("into_iter", Ok(steps)) => {
                let map = mem::replace($map, Self::new($alloc));
                walk(map.into_iter(), steps, Pair, $out)
            }
            ("into_keys", Ok(steps)) => {
                let map = mem::replace($map, Self::new($alloc));
                walk(map.into_keys(), steps, Plain, $out)
            }
            ("into_values", Ok(steps)) => {
                let map = mem::replace($map, Self::new($alloc));
                walk(map.into_values(), steps, Plain, $out)
            }
            ("for_mut", _) => write_all($map.len(), $map, Raised($number), $out),
            _ => return Err(Answer::BAD),
        }
    };
}

macro_rules! answer_item {
    ($map:ident, $name:ident, $key:ident, $item:ident, $out:ident) => {
        Ok(match ($name, u16::try_from($key)) {
            ("insert", _) => found($map.insert($key, $item)),
            ("get_mut", _) => written($map.get_mut(&$key), $item),
            ("retain", _) => Answer::Number($map.thin($key, $item)),
            ("iter_mut", Ok(steps)) => {
                walk($map.iter_mut(), steps, Raised($item), $out);
                Answer::Written
            }
            ("values_mut", Ok(steps)) => {
                walk($map.values_mut(), steps, Raised($item), $out);
                Answer::Written
            }
            _ => return $map.answer_entry_item($name, $key, $item),
        })
    };
}

macro_rules! answer_entry_item {
    ($map:ident, $backing:ident, $name:ident, $key:ident, $item:ident) => {
        Ok(match $name {
            "or_insert_with_key" => {
                let neg = |key: &i64| key.wrapping_neg();
                entry!($map, $key, entry => overwritten(entry.or_insert_with_key(neg), $item))
            }
            "or_default" => entry!($map, $key, entry => overwritten(entry.or_default(), $item)),
            "occupied_get_mut" => occupied!($map, $backing, $key, mut entry => {
                Answer::Item(Some(mem::replace(entry.get_mut(), $item)))
            }),
            "occupied_insert" => occupied!($map, $backing, $key, mut entry => {
                Answer::Item(Some(entry.insert($item)))
            }),
            "occupied_into_mut" => occupied!($map, $backing, $key, entry => {
                Answer::Item(Some(mem::replace(entry.into_mut(), $item)))
            }),
            _ => return Err(Answer::BAD),
        })
    };
}

macro_rules! answer_new {
    ($map:ident, $backing:ident, $name:ident, $key:ident, $item:ident, $new:ident) => {
        Ok(match $name {
            "or_insert" => {
                entry!($map, $key, entry => overwritten(entry.or_insert($item), $new))
            }
            "or_insert_with" => {
                entry!($map, $key, entry => overwritten(entry.or_insert_with(|| $item), $new))
            }
            "and_modify" => entry!($map, $key, entry => {
                let entry = entry.and_modify(|item| *item = item.wrapping_add($item));
                item(entry.or_insert($new).copied())
            }),
            "vacant_insert" => {
                vacant!($map, $backing, $key, entry => overwritten(entry.insert($item), $new))
            }
            _ => return Err(Answer::BAD),
        })
    };
}

macro_rules! thin {
    ($map:ident, $mask:ident, $add:ident) => {{
        let mut calls: usize = 0;
        $map.retain(|key, item| {
            calls = calls.wrapping_add(1);
            *item = item.wrapping_add($add);
            (*key ^ *item) & $mask != 0
        });
        calls
    }};
}

impl Container for ordered::Map<i64, i64> {
    fn empty(alloc: Global) -> Self {
        ordered::Map::new(alloc)
    }

    fn answer(
        &mut self,
        other: &mut Self,
        alloc: Global,
        words: &[&str],
        out: &mut AnswerLine,
    ) -> Reply {
        answer_table!(self, other, alloc, words, out, pairs => pairs)
    }
}

impl AnyMap for ordered::Map<i64, i64> {
    fn own(
        &mut self,
        other: &mut Self,
        alloc: Global,
        words: &[&str],
        out: &mut AnswerLine,
    ) -> Reply {
        Ok(match *words {
            ["first"] => pair(self.first_key_value()),
            ["last"] => pair(self.last_key_value()),
            ["pop_first"] => Answer::Pair(self.pop_first()),
            ["pop_last"] => Answer::Pair(self.pop_last()),
            ["append"] => done(self.append(other)),
            ["for"] => {
                write_all(self.len(), &*self, Pair, out);
                Answer::Written
            }
            ["split_off", key] => keep(self.split_off(&read(key)?), other),
            ["range", from, to, steps] => return range(self, [from, to, steps], out),
            _ => return self.answer_numbers(alloc, words, out),
        })
    }

    fn answer_key(&mut self, name: &str, key: i64, alloc: Global, out: &mut AnswerLine) -> Reply {
        answer_key!(self, name, key, alloc, out)
    }

    fn answer_entry(&mut self, name: &str, key: i64, alloc: Global, out: &mut AnswerLine) -> Reply {
        answer_entry!(self, ordered, name, key, alloc, out)
    }

    fn answer_walk(
        &mut self,
        name: &str,
        number: i64,
        alloc: Global,
        out: &mut AnswerLine,
    ) -> Reply {
        answer_walk!(self, name, number, alloc, out);
        Ok(Answer::Written)
    }

    fn answer_item(&mut self, name: &str, key: i64, item: i64, out: &mut AnswerLine) -> Reply {
        answer_item!(self, name, key, item, out)
    }

    fn answer_entry_item(&mut self, name: &str, key: i64, item: i64) -> Reply {
        answer_entry_item!(self, ordered, name, key, item)
    }

    fn answer_new(&mut self, name: &str, key: i64, item: i64, new: i64) -> Reply {
        answer_new!(self, ordered, name, key, item, new)
    }

    fn thin(&mut self, mask: i64, add: i64) -> usize {
        thin!(self, mask, add)
    }
}

fn range(
    map: &ordered::Map<i64, i64>,
    [from, to, steps]: [&str; 3],
    out: &mut AnswerLine,
) -> Reply {
    let (from, to, steps): (i64, i64, u16) = (read(from)?, read(to)?, read(steps)?);
    if from > to {
        return Ok(Answer::Word("no range"));
    }
    walk_ends(map.range(from..to), steps, Pair, out);
    Ok(Answer::Written)
}

impl Container for hashed::Map<i64, i64> {
    fn empty(alloc: Global) -> Self {
        hashed::Map::new(alloc)
    }

    fn answer(
        &mut self,
        other: &mut Self,
        alloc: Global,
        words: &[&str],
        out: &mut AnswerLine,
    ) -> Reply {
        answer_table!(self, other, alloc, words, out, pairs => pairs)
    }
}

impl AnyMap for hashed::Map<i64, i64> {
    fn own(&mut self, _: &mut Self, alloc: Global, words: &[&str], out: &mut AnswerLine) -> Reply {
        Ok(match *words {
            ["capacity"] => Answer::Truth(self.capacity() >= self.len()),
            ["shrink_to_fit"] => {
                self.shrink_to_fit();
                Answer::DONE
            }
            ["for"] => {
                write_all(self.len(), &*self, Pair, out);
                Answer::Written
            }
            _ => return self.answer_numbers(alloc, words, out),
        })
    }

    fn answer_key(&mut self, name: &str, key: i64, alloc: Global, out: &mut AnswerLine) -> Reply {
        answer_key!(self, name, key, alloc, out)
    }

    fn answer_entry(&mut self, name: &str, key: i64, alloc: Global, out: &mut AnswerLine) -> Reply {
        answer_entry!(self, hashed, name, key, alloc, out)
    }

    fn answer_walk(
        &mut self,
        name: &str,
        number: i64,
        alloc: Global,
        out: &mut AnswerLine,
    ) -> Reply {
        answer_walk!(self, name, number, alloc, out);
        Ok(Answer::Written)
    }

    fn answer_item(&mut self, name: &str, key: i64, item: i64, out: &mut AnswerLine) -> Reply {
        answer_item!(self, name, key, item, out)
    }

    fn answer_entry_item(&mut self, name: &str, key: i64, item: i64) -> Reply {
        answer_entry_item!(self, hashed, name, key, item)
    }

    fn answer_new(&mut self, name: &str, key: i64, item: i64, new: i64) -> Reply {
        answer_new!(self, hashed, name, key, item, new)
    }

    fn thin(&mut self, mask: i64, add: i64) -> usize {
        thin!(self, mask, add)
    }
}
