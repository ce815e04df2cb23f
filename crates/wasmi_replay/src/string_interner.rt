//! Calls on a `StringInterner`. A line names a symbol by its number.

use crate::answer_line::AnswerLine;
use crate::answers::{Answer, Reply, done, keep};
use crate::format::Text;
use crate::replay::Container;
use crate::walk::{Left, walk_steps};
use crate::words::{read, steps_of};
use std::alloc::Global;
use std::hash::{DefaultHasher, Hash, Hasher};
use wasmi_arena::ArenaError;
use wasmi_collections::string_interner::{InternHint, Steps, Sym};
use wasmi_collections::{StringInterner, string_interner};

impl<'a> Left for string_interner::Iter<'a> {
    fn left(&self) -> Option<usize> {
        Some(self.len())
    }
}

impl Container for StringInterner {
    fn empty(alloc: Global) -> Self {
        StringInterner::new(alloc)
    }

    fn answer(
        &mut self,
        other: &mut Self,
        _: Global,
        words: &[&str],
        out: &mut AnswerLine,
    ) -> Reply {
        Ok(match *words {
            ["len"] => Answer::Number(self.len()),
            ["is_empty"] => Answer::Truth(self.is_empty()),
            ["clear"] => {
                self.clear();
                Answer::DONE
            }
            ["contains", text] => Answer::Truth(self.contains(text)),
            ["get", text] => Answer::Key(self.get(text).map(Sym::into_usize)),
            ["get_or_intern", text] => number(self.get_or_intern(text)),
            ["extend", texts] => done(self.extend(texts.split(','))),
            ["clone"] => keep(self.clone(), other),
            _ => return answer_symbol(self, words, out),
        })
    }
}

// Makes a call that writes what it comes to.
fn answer_symbol(interner: &mut StringInterner, words: &[&str], out: &mut AnswerLine) -> Reply {
    match *words {
        ["get_counted", text] => counted(interner, text, out),
        ["get_or_intern_with_hint", hint, text] => {
            let hint = hint_of(hint)?;
            write!(out, "{hint:?} ");
            return Ok(number(interner.get_or_intern_with_hint(text, hint)));
        }
        ["iter", steps] => walk_steps(interner.iter(), steps_of(steps)?, Text, out),
        ["resolve", number] => match interner.resolve(Sym::from_u32(read(number)?)) {
            Some(text) => writeln!(out, "\"{text}\""),
            None => writeln!(out, "none"),
        },
        ["symbols", first, second] => symbols(read(first)?, read(second)?, out),
        _ => return Err(Answer::BAD),
    }
    Ok(Answer::Written)
}

// The hint that a word is.
fn hint_of(word: &str) -> Result<InternHint, Answer> {
    match word {
        "none" => Ok(InternHint::None),
        "likely_exists" => Ok(InternHint::LikelyExists),
        "likely_new" => Ok(InternHint::LikelyNew),
        _ => Err(Answer::BAD),
    }
}

// The number of a symbol.
fn number(symbol: Result<Sym, ArenaError>) -> Answer {
    match symbol {
        Ok(symbol) => Answer::Number(symbol.into_usize()),
        Err(error) => Answer::Error(error),
    }
}

// Writes the symbol of a text, and whether there were as few comparisons as a binary search makes: at
// most one for each binary digit of the number of texts, and one where there is a text.
fn counted(interner: &StringInterner, text: &str, out: &mut AnswerLine) {
    let mut steps = Steps::new();
    let found = interner.get_counted(text, &mut steps);
    let is_few = match interner.len().checked_ilog2() {
        Some(log) => 0 < steps.count() && steps.count() <= u64::from(log) + 1,
        None => steps.count() == 0,
    };
    match found {
        Some(symbol) => writeln!(out, "{} {is_few}", symbol.into_usize()),
        None => writeln!(out, "none {is_few}"),
    }
}

// Writes two symbols, how they compare, and the hash of the first.
fn symbols(first: u32, second: u32, out: &mut AnswerLine) {
    let (first, second) = (Sym::from_u32(first), Sym::from_u32(second));
    let mut hasher = DefaultHasher::new();
    first.hash(&mut hasher);
    let hash = hasher.finish();
    let (is_equal, order) = (first == second, first.cmp(&second));
    let partial = first.partial_cmp(&second);
    writeln!(
        out,
        "{first:?} {second:?} {is_equal} {order:?} {partial:?} {hash}"
    )
}
