//! Calls on a `HeadVec`.

use crate::answer_line::AnswerLine;
use crate::answers::{Answer, Reply, done, keep, shown, written};
use crate::replay::Container;
use crate::words::read;
use std::alloc::Global;
use wasmi_collections::HeadVec;

impl Container for HeadVec<i64> {
    fn empty(alloc: Global) -> Self {
        HeadVec::new(alloc)
    }

    fn answer(&mut self, other: &mut Self, _: Global, words: &[&str], _: &mut AnswerLine) -> Reply {
        Ok(match *words {
            ["len"] => Answer::Number(self.len()),
            ["is_empty"] => Answer::Truth(self.is_empty()),
            ["clear"] => {
                self.clear();
                Answer::DONE
            }
            ["push", item] => done(self.push(read(item)?)),
            ["pop"] => Answer::Item(self.pop()),
            ["last"] => shown(self.last()),
            ["last_mut", new] => written(self.last_mut(), read(new)?),
            ["clone"] => keep(self.clone(), other),
            ["partial_cmp"] => Answer::PartialOrder((*self).partial_cmp(other)),
            ["cmp"] => Answer::Order((*self).cmp(other)),
            _ => return Err(Answer::BAD),
        })
    }
}
