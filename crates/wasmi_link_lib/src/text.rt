//! What became of the imports, as a text.
ghost use Rattle.std.specs.Prelude.{◌≡◌, ◌++◌, ◌∷◌, [], map, IfOk, OnOk, string_bytes};
ghost use Rattle.std.specs.List.{list_all};
ghost use Rattle.wasmi_link_lib.specs.Lines.{answer_of, item_of, line_of, linked_of};
ghost use Rattle.wasmi_link_lib.specs.Report.{answer_text, answered, counts_text, is_different, is_found, is_missing, line_text, report_text, status_of};

mod names;
mod types;

use crate::line::{Answer, ItemType, Line, Linked};
use names::write_name;
use std::alloc::{AllocError, Allocator};
use types::{kind_text, write_given, write_type};

// How many bytes a line is taken to have, so that the text seldom grows.
const LINE_LEN: usize = 96;

/// A line for each import, and a line of counts. Expected time and memory are linear in the text.
pub fn report<A: Allocator, B: Allocator>(
    alloc: B,
    linked: &Linked<'_, A>,
) -> Result<String<B>, AllocError>
    ensures { IfOk result (λ text. string_bytes text ≡ report_text (linked_of linked.now)) }
{
    let mut text = String::with_capacity(alloc, linked.lines.len().saturating_mul(LINE_LEN))?;
    for line in &linked.lines {
        write_line(&mut text, line)?;
    }
    write_counts(&mut text, linked)?;
    Ok(text)
}

/// The exit status of a program that reports this: 0 where all imports are found, else 1. Linear time.
pub fn exit_status<A: Allocator>(linked: &Linked<'_, A>) -> u8
    ensures { result ≡ status_of (linked_of linked.now) }
{
    if are_found(&linked.lines) { 0 } else { 1 }
}

// Whether all are found.
fn are_found<A: Allocator>(lines: &[Line<'_, A>]) -> bool
    ensures { result ≡ list_all (λ line. is_found line.answer) (map line_of lines.now) }
{
    lines.iter().all(|line| line.answer.is_found())
}

impl<A: Allocator> Answer<'_, A> {
    fn is_found(&self) -> bool
        ensures { result ≡ is_found (answer_of self.now) }
    {
        matches!(self, Answer::Found(_))
    }

    fn is_missing(&self) -> bool
        ensures { result ≡ is_missing (answer_of self.now) }
    {
        matches!(self, Answer::Missing)
    }

    fn is_different(&self) -> bool
        ensures { result ≡ is_different (answer_of self.now) }
    {
        matches!(self, Answer::Differs(_, _))
    }
}

// An import, its answer and a line feed.
fn write_line<A: Allocator, B: Allocator>(
    text: &mut String<B>,
    line: &Line<'_, A>,
) -> Result<(), AllocError>
    ensures { OnOk result (string_bytes text.new ≡ string_bytes text.old ++ (line_text (line_of line.now) ++ 10 ∷ [])) }
{
    let kind = kind_text(&line.item);
    write_name(text, line.asker)?;
    write!(text, ": {kind} ")?;
    write_name(text, line.asked)?;
    text.push_str(".")?;
    write_name(text, line.field)?;
    text.push_str(" ")?;
    write_type(text, &line.item)?;
    text.push_str(": ")?;
    write_answer(text, &line.item, &line.answer)?;
    text.push_str("\n")
}

// What became of an import of a type.
fn write_answer<A: Allocator, B: Allocator>(
    text: &mut String<B>,
    asked: &ItemType<'_, A>,
    answer: &Answer<'_, A>,
) -> Result<(), AllocError>
    ensures { OnOk result (string_bytes text.new ≡ string_bytes text.old ++ answer_text (item_of asked.now) (answer_of answer.now)) }
{
    match answer {
        Answer::Found(name) => write_name(text, name),
        Answer::Missing => text.push_str("missing"),
        Answer::Differs(name, given) => {
            write_name(text, name)?;
            text.push_str(" has ")?;
            write_given(text, asked, given)
        }
    }
}

// The line of counts.
fn write_counts<A: Allocator, B: Allocator>(
    text: &mut String<B>,
    linked: &Linked<'_, A>,
) -> Result<(), AllocError>
    ensures { OnOk result (string_bytes text.new ≡ string_bytes text.old ++ (counts_text (linked_of linked.now) ++ 10 ∷ [])) }
{
    let modules = linked.modules;
    let distinct = linked.distinct_types;
    let types = linked.types;
    let names = linked.names;
    let imports = linked.lines.len();
    write!(text, "{modules} modules, {distinct} types of {types}, ")?;
    write!(text, "{names} names, {imports} imports: ")?;
    let found = found(&linked.lines);
    let missing = missing(&linked.lines);
    let different = different(&linked.lines);
    writeln!(
        text,
        "{found} found, {missing} missing, {different} differs"
    )
}

fn found<A: Allocator>(lines: &[Line<'_, A>]) -> usize
    ensures { result ≡ answered is_found (map line_of lines.now) }
{
    lines.iter().filter(|line| line.answer.is_found()).count()
}

fn missing<A: Allocator>(lines: &[Line<'_, A>]) -> usize
    ensures { result ≡ answered is_missing (map line_of lines.now) }
{
    lines.iter().filter(|line| line.answer.is_missing()).count()
}

fn different<A: Allocator>(lines: &[Line<'_, A>]) -> usize
    ensures { result ≡ answered is_different (map line_of lines.now) }
{
    lines
        .iter()
        .filter(|line| line.answer.is_different())
        .count()
}
