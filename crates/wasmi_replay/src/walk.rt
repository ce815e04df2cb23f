//! Iterations that write what they come to. Each of their functions is proved once, for all iterators.
ghost use Rattle.std.specs.Iterator.{IsFinite, IsFiniteIterable};

use crate::answer_line::AnswerLine;
use crate::format::Format;

/// An iterator that is asked how many items are left.
pub trait Left {
    /// `None` if it doesn't know.
    fn left(&self) -> Option<usize>;
}

/// Takes so many items from an iterator, asks it how many are left, and takes these by a `for`.
pub fn walk<I: ExactSizeIterator, F: Format<I::Item>>(
    mut items: I,
    count: u16,
    mut format: F,
    out: &mut AnswerLine,
)
    requires again { (it : I) → I.can_next it × IsFinite (I.remaining it) }
{
    take(&mut items, count, &mut format, out);
    write!(out, "left {} ", items.len());
    rest(items, format, out)
}

/// The same of an iterator that doesn't know how many are left.
pub fn walk_all<I: Iterator, F: Format<I::Item>>(
    mut items: I,
    count: u16,
    mut format: F,
    out: &mut AnswerLine,
)
    requires again { (it : I) → I.can_next it × IsFinite (I.remaining it) }
{
    take(&mut items, count, &mut format, out);
    write!(out, "left ");
    rest(items, format, out)
}

/// Takes so many items from an iterator, from the front and the back in turn, and the rest by a `for`.
pub fn walk_ends<I: DoubleEndedIterator, F: Format<I::Item>>(
    mut items: I,
    count: u16,
    mut format: F,
    out: &mut AnswerLine,
)
    requires again { (it : I) → I.can_next it × I.can_next_back it × IsFinite (I.remaining it) }
{
    for step in 0..count {
        let given = if step % 2 == 0 {
            items.next()
        } else {
            items.next_back()
        };
        step_given(given, &mut format, out);
    }
    write!(out, "left ");
    rest(items, format, out)
}

/// Takes items from the ends that the steps name, an `f` for the front, and then asks how many are left.
pub fn walk_steps<I: DoubleEndedIterator + Left, F: Format<I::Item>>(
    mut items: I,
    steps: &str,
    mut format: F,
    out: &mut AnswerLine,
)
    requires again { (it : I) → I.can_next it × I.can_next_back it }
{
    for step in steps.bytes() {
        let given = if step == b'f' {
            items.next()
        } else {
            items.next_back()
        };
        step_given(given, &mut format, out);
    }
    end(items.left(), out)
}

/// Writes how many items there are, and each, by a `for`.
pub fn write_all<U: IntoIterator + Drop, F: Format<U::Item>>(
    len: usize,
    items: U,
    mut format: F,
    out: &mut AnswerLine,
)
where
    U::Item: Drop,
    requires { IsFiniteIterable U.into_iter_gives U.IntoIter.can_next U.IntoIter.remaining items }
{
    write!(out, "{len}:");
    for item in items {
        write!(out, " ");
        format.write(item, out);
    }
    writeln!(out)
}

// Takes so many items.
fn take<I: Iterator, F: Format<I::Item>>(
    items: &mut I,
    count: u16,
    format: &mut F,
    out: &mut AnswerLine,
)
    requires again { (it : I) → I.can_next it × IsFinite (I.remaining it) }
{
    for _ in 0..count {
        step_given(items.next(), format, out);
    }
}

// Writes what a step gave, or `none`.
fn step_given<T, F: Format<T>>(given: Option<T>, format: &mut F, out: &mut AnswerLine) {
    match given {
        Some(item) => format.write(item, out),
        None => write!(out, "none"),
    }
    write!(out, " ")
}

// Ends the line with how many items are left, if the iterator knew.
fn end(left: Option<usize>, out: &mut AnswerLine) {
    match left {
        Some(left) => writeln!(out, "left {left}"),
        None => writeln!(out),
    }
}

// Writes the items that are left, by a `for`, and ends the line.
fn rest<I: Iterator, F: Format<I::Item>>(items: I, mut format: F, out: &mut AnswerLine)
    requires can { I.can_next items }
    requires ends { IsFinite (I.remaining items) }
{
    for item in items {
        format.write(item, out);
        write!(out, " ");
    }
    writeln!(out)
}
