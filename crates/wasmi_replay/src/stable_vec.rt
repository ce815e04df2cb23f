//! Calls on a `StableVec`.

use crate::answer_line::AnswerLine;
use crate::answers::{Answer, Reply, done, item, keep, shown, written};
use crate::format::{Bucket, Plain, Renewed};
use crate::items::Consecutive;
use crate::replay::Container;
use crate::walk::{Left, walk_steps, write_all};
use crate::words::{read, steps_of};
use std::alloc::Global;
use std::hash::{DefaultHasher, Hash, Hasher};
use wasmi_arena::{
    BUCKETS, MAX_LEN, StableVec, StableVecIter, StableVecIterMut, StableVecSlices,
    StableVecSlicesMut,
};

impl<'a> Left for StableVecIter<'a, i64> {
    fn left(&self) -> Option<usize> {
        Some(self.len())
    }
}

impl<'a> Left for StableVecIterMut<'a, i64> {
    fn left(&self) -> Option<usize> {
        Some(self.len())
    }
}

impl<'a> Left for StableVecSlices<'a, i64> {
    fn left(&self) -> Option<usize> {
        Some(self.len())
    }
}

impl<'a> Left for StableVecSlicesMut<'a, i64> {
    fn left(&self) -> Option<usize> {
        Some(self.len())
    }
}

impl Container for StableVec<i64> {
    fn empty(alloc: Global) -> Self {
        StableVec::new(alloc)
    }

    fn answer(
        &mut self,
        other: &mut Self,
        alloc: Global,
        words: &[&str],
        out: &mut AnswerLine,
    ) -> Reply {
        Ok(match *words {
            ["len"] => Answer::Number(self.len()),
            ["is_empty"] => Answer::Truth(self.is_empty()),
            ["clear"] => {
                self.clear();
                Answer::DONE
            }
            ["push", item] => match self.push(read(item)?) {
                Ok(index) => Answer::Number(index),
                Err(error) => Answer::Error(error),
            },
            ["pop"] => Answer::Item(self.pop()),
            ["extend", first, count] => done(self.extend(Consecutive::read(first, count)?)),
            ["from_iter", first, count] => {
                let items = Consecutive::read(first, count)?;
                keep(StableVec::from_iter(alloc, items), self)
            }
            ["clone"] => keep(self.clone(), other),
            ["clone_in"] => keep(self.clone_in(alloc), other),
            ["partial_cmp"] => Answer::PartialOrder((*self).partial_cmp(other)),
            ["cmp"] => Answer::Order((*self).cmp(other)),
            ["hash"] => Answer::Hash(hash_of(self)),
            _ => return answer_item(self, words, out),
        })
    }
}

// Makes a call on items.
fn answer_item(vec: &mut StableVec<i64>, words: &[&str], out: &mut AnswerLine) -> Reply {
    Ok(match *words {
        ["first"] => shown(vec.first()),
        ["last"] => shown(vec.last()),
        ["get", index] => shown(vec.get(read(index)?)),
        ["get_mut", index, new] => written(vec.get_mut(read(index)?), read(new)?),
        ["put", index, new] => item(vec.put(read(index)?, read(new)?)),
        ["swap", first, second] => done(vec.swap(read(first)?, read(second)?)),
        ["index", index] => {
            let index: usize = read(index)?;
            if index < vec.len() {
                Answer::Item(Some(vec[index]))
            } else {
                Answer::NO_ITEM
            }
        }
        ["index_mut", index, new] => {
            let (index, new): (usize, i64) = (read(index)?, read(new)?);
            if index < vec.len() {
                vec[index] = new;
                Answer::Word("written")
            } else {
                Answer::NO_ITEM
            }
        }
        _ => return answer_walk(vec, words, out),
    })
}

// Goes over all items. Where it writes, each item is shown as it was, and they become the numbers from one on.
fn answer_walk(vec: &mut StableVec<i64>, words: &[&str], out: &mut AnswerLine) -> Reply {
    match *words {
        ["iter", steps] => walk_steps(vec.iter(), steps_of(steps)?, Plain, out),
        ["for"] => write_all(vec.len(), &*vec, Plain, out),
        ["iter_mut", steps, first] => {
            let first = Renewed(read(first)?);
            walk_steps(vec.iter_mut(), steps_of(steps)?, first, out)
        }
        ["slices_mut", steps, first] => {
            let first = Renewed(read(first)?);
            walk_steps(vec.slices_mut(), steps_of(steps)?, first, out)
        }
        ["for_mut", first] => write_all(vec.len(), vec, Renewed(read(first)?), out),
        ["rev_mut", first] => {
            let (len, first) = (vec.len(), Renewed(read(first)?));
            write_all(len, vec.iter_mut().rev(), first, out)
        }
        _ => return answer_place(vec, words, out),
    }
    Ok(Answer::Written)
}

/// Makes a call on where the items lie.
pub fn answer_place(vec: &StableVec<i64>, words: &[&str], out: &mut AnswerLine) -> Reply {
    Ok(match *words {
        ["room"] => Answer::Number(vec.room()),
        ["open_buckets"] => Answer::Number(vec.open_buckets()),
        ["slots"] => Answer::Number(vec.slots()),
        ["place", index] => {
            let index: usize = read(index)?;
            if index < MAX_LEN {
                let (bucket, slot) = StableVec::<i64>::place(index);
                Answer::Numbers(bucket, slot)
            } else {
                Answer::Word("none")
            }
        }
        ["size_of_bucket_at", number] => {
            let number: usize = read(number)?;
            if number < BUCKETS {
                Answer::Number(StableVec::<i64>::size_of_bucket_at(number))
            } else {
                Answer::Word("none")
            }
        }
        _ => return walk_buckets(vec, words, out),
    })
}

// Goes over the buckets, or the items of one.
fn walk_buckets(vec: &StableVec<i64>, words: &[&str], out: &mut AnswerLine) -> Reply {
    match *words {
        ["slices", steps] => walk_steps(vec.slices(), steps_of(steps)?, Bucket, out),
        ["bucket", number] => bucket(vec, read(number)?, out),
        _ => return Err(Answer::BAD),
    }
    Ok(Answer::Written)
}

// What the standard library's hasher makes of a vector.
fn hash_of(vec: &StableVec<i64>) -> u64 {
    let mut hasher = DefaultHasher::new();
    vec.hash(&mut hasher);
    hasher.finish()
}

// Writes how many slots a bucket has, and its items; or `none` if it isn't open.
fn bucket(vec: &StableVec<i64>, number: usize, out: &mut AnswerLine) {
    let Some(bucket) = vec.bucket(number) else {
        return writeln!(out, "none");
    };
    write!(out, "{}:", bucket.capacity());
    for item in bucket.slice() {
        write!(out, " {item}");
    }
    writeln!(out)
}
