//! What the words of a line say. Of a bad one the answer is the error.

use crate::answers::Answer;
use std::str::FromStr;
use wasmi_arena::ArenaKey;

/// The number that a word is.
pub fn read<N: FromStr>(word: &str) -> Result<N, Answer>
where
    N::Err: Drop,
{
    match word.parse() {
        Ok(number) => Ok(number),
        Err(_) => Err(Answer::BAD),
    }
}

/// The key whose number a word is.
pub fn key_of<Key: ArenaKey>(word: &str) -> Result<Key, Answer> {
    match Key::from_usize(read(word)?) {
        Some(key) => Ok(key),
        None => Err(Answer::Word("no key")),
    }
}

/// The steps of an iteration: a word that has no letter but `f` and `b`.
pub fn steps_of(word: &str) -> Result<&str, Answer> {
    if word.bytes().all(|step| step == b'f' || step == b'b') {
        Ok(word)
    } else {
        Err(Answer::BAD)
    }
}
