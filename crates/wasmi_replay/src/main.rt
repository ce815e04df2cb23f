//! Makes the calls that standard input names on containers, and prints each answer.
//!
//! A line `on NAME` begins with a new container: `stable_vec`, `head_vec`, `ordered_map`, `ordered_set`,
//! `hashed_map`, `hashed_set`, `string_interner`; or `stable_arena`, `arena`, `dedup_arena`, `component_vec` with a
//! type of keys, which is `u32`, `usize`, `non_zero_u32`, `non_zero_usize` or `few` (100 keys). Keys of maps,
//! elements and items are `i64`. Beside the container lies another one, empty at first.
//!
//! Any other line is a method's name and its arguments. The container's file has them, each line as the pattern of the
//! arm that makes the call, or as the name that it has in a method for calls with such numbers: an index, or the number
//! of a key or of a symbol; numbers, of which `new` is written through the reference, and `first` begins those that are;
//! a count; a text. `steps` are those of an iteration: how many, or of containers without a hash or an order an `f` for
//! each `next` and a `b` for each `next_back`. After them it is asked for `len`. `exchange` goes on with the other
//! container, `eq` compares with it, `debug` prints.
//!
//! The answer is what the method returns, `none`, `error` and its text, or `done` for nothing; `no key` for a number
//! that is none, `no item` where an index would panic. To a line that is no call it is `bad line`.
#![tactic(auto)]

mod answer_line;
mod answers;
mod arena;
mod component_vec;
mod format;
mod head_vec;
mod input_lines;
mod items;
mod map;
mod named;
mod pair_key;
mod replay;
mod set;
mod stable_vec;
mod string_interner;
mod table;
mod walk;
mod words;

use std::io;

fn main(rt: HostRuntime) -> io::Result<()> {
    replay::run(rt.alloc(), rt.stdin(), rt.stdout())
}
