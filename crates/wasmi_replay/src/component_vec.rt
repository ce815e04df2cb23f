//! Calls on a `ComponentVec`. A line names a key by its number.

use crate::answer_line::AnswerLine;
use crate::answers::{Answer, Reply, found, keep, shown, written};
use crate::format::{Numbered, Renewed};
use crate::replay::Container;
use crate::walk::{Left, walk_steps, write_all};
use crate::words::{key_of, read, steps_of};
use std::alloc::Global;
use wasmi_arena::ArenaKey;
use wasmi_dense::{ComponentVec, ComponentVecIter, ComponentVecIterMut};

impl<'a, Key: ArenaKey> Left for ComponentVecIter<'a, Key, i64> {
    fn left(&self) -> Option<usize> {
        None
    }
}

impl<'a, Key: ArenaKey> Left for ComponentVecIterMut<'a, Key, i64> {
    fn left(&self) -> Option<usize> {
        None
    }
}

impl<Key: ArenaKey> Container for ComponentVec<Key, i64> {
    fn empty(alloc: Global) -> Self {
        ComponentVec::new(alloc)
    }

    fn answer(
        &mut self,
        other: &mut Self,
        _: Global,
        words: &[&str],
        out: &mut AnswerLine,
    ) -> Reply {
        Ok(match *words {
            ["extent"] => Answer::Number(self.extent()),
            ["clear"] => {
                self.clear();
                Answer::DONE
            }
            ["clone"] => keep(self.clone(), other),
            _ => return answer_walk(self, words, out),
        })
    }
}

// Goes over all components.
fn answer_walk<Key: ArenaKey>(
    components: &mut ComponentVec<Key, i64>,
    words: &[&str],
    out: &mut AnswerLine,
) -> Reply {
    match *words {
        ["iter", steps] => walk_steps(components.iter(), steps_of(steps)?, Numbered, out),
        ["for"] => write_all(components.extent(), &*components, Numbered, out),
        ["iter_mut", steps, first] => {
            let first = Renewed(read(first)?);
            walk_steps(components.iter_mut(), steps_of(steps)?, first, out)
        }
        ["for_mut", first] => {
            write_all(components.extent(), components, Renewed(read(first)?), out)
        }
        _ => return answer_component(components, words),
    }
    Ok(Answer::Written)
}

// Makes a call on the component under a key.
fn answer_component<Key: ArenaKey>(
    components: &mut ComponentVec<Key, i64>,
    words: &[&str],
) -> Reply {
    match *words {
        [name, number] => answer_key(components, name, key_of(number)?),
        [name, number, new] => answer_new(components, name, key_of(number)?, read(new)?),
        _ => Err(Answer::BAD),
    }
}

// The same, of a call that takes a key alone.
fn answer_key<Key: ArenaKey>(
    components: &mut ComponentVec<Key, i64>,
    name: &str,
    key: Key,
) -> Reply {
    Ok(match name {
        "get" => shown(components.get(key)),
        "has" => Answer::Truth(components.has(key)),
        "unset" => Answer::Item(components.unset(key)),
        "index" => {
            if components.get(key).is_none() {
                Answer::NO_ITEM
            } else {
                Answer::Item(Some(components[key]))
            }
        }
        _ => return Err(Answer::BAD),
    })
}

// The same, of a call that takes a component too.
fn answer_new<Key: ArenaKey>(
    components: &mut ComponentVec<Key, i64>,
    name: &str,
    key: Key,
    new: i64,
) -> Reply {
    Ok(match name {
        "get_mut" => written(components.get_mut(key), new),
        "set" => found(components.set(key, new)),
        "index_mut" => {
            if components.get(key).is_none() {
                Answer::NO_ITEM
            } else {
                components[key] = new;
                Answer::Word("written")
            }
        }
        _ => return Err(Answer::BAD),
    })
}
