//! Names by rule, of the kinds that programs intern. The driver makes the same.

use crate::random::key_of;
use std::alloc::Global;
use std::fmt::Write;
use wasmi_arena::ArenaError;

// What names are like.
#[derive(Clone, Copy)]
pub(crate) enum Kind {
    // A word and twenty digits.
    MadeUp,
    // Paths of files, of some 65 to 90 bytes, which begin alike.
    Path,
    // Symbols of a linker, of some 30 to 110 bytes, many of one length.
    Mangled,
    // A word and a number.
    Identifier,
    // Texts of 32 bytes that all have one hash in the interner.
    Colliding,
}

const WORDS: [&str; 16] = [
    "arena",
    "block",
    "compiler",
    "decoder",
    "engine",
    "executor",
    "function",
    "global",
    "instance",
    "interpreter",
    "linker",
    "memory",
    "module",
    "store",
    "translator",
    "validation",
];

fn word(number: u64) -> &'static str {
    WORDS[(number % 16) as usize]
}

// The name of a number below 2^20. Paths ascend as their numbers do.
fn name_of(alloc: Global, kind: Kind, number: u64) -> Result<String, ArenaError> {
    let mut name = String::new(alloc);
    match kind {
        Kind::MadeUp => write!(name, "name{}", key_of(number))?,
        Kind::Path => write_path(&mut name, number >> 10, (number >> 5) % 32, number % 32)?,
        Kind::Mangled => {
            write!(name, "_ZN4wasm")?;
            for level in 0..number % 8 {
                let part = word(number >> level);
                let len = part.len();
                write!(name, "{len}{part}")?;
            }
            write!(name, "17h{:016x}E", key_of(number))?;
        }
        Kind::Identifier => write!(name, "{}{}", word(number), number / 16)?,
        Kind::Colliding => write!(name, "they-meet-xaennpvzjyrlqs{number:08x}")?,
    }
    Ok(name)
}

fn write_path(name: &mut String, project: u64, folder: u64, file: u64) -> Result<(), ArenaError> {
    let (one, other, last) = (word(project), word(folder), word(file));
    write!(
        name,
        "/opt/build/src/{project:03x}-{one}/lib/{folder:02x}-{other}"
    )?;
    write!(name, "/include/{one}/{file:02x}-{last}.hpp")?;
    Ok(())
}

// `n` names of a kind, no two alike. They are in no order, or paths in ascending order. `n` is a power of two.
pub(crate) fn names(
    alloc: Global,
    kind: Kind,
    n: u64,
    ascending: bool,
) -> Result<Vec<String>, ArenaError> {
    let mut names = Vec::new(alloc);
    for i in 0..n {
        let number = if ascending {
            i
        } else {
            i.wrapping_mul(0x9e37_79b1) & n.wrapping_sub(1)
        };
        names.push(name_of(alloc, kind, number)?)?;
    }
    Ok(names)
}
