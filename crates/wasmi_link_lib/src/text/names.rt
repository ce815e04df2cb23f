//! The texts of names.
ghost use Rattle.std.specs.Prelude.{◌≡◌, ◌++◌, ◌<◌, ◌≤◌, All, OnOk, IsTrue, string_bytes};
ghost use Rattle.wasmi_link_lib.specs.Report.{char_text, name_text};

use std::alloc::{AllocError, Allocator};

// A name, whose control characters are written as their numbers.
pub(crate) fn write_name<B: Allocator>(text: &mut String<B>, name: &str) -> Result<(), AllocError>
    ensures { OnOk result (string_bytes text.new ≡ string_bytes text.old ++ name_text name.now) }
{
    if is_plain(name) {
        text.push_str(name)
    } else {
        write_chars(text, name)
    }
}

// Whether a name has none but ASCII characters that print, as most names.
fn is_plain(name: &str) -> bool
    ensures { IsTrue result → All (λ b. (32 ≤ b) × (b < 127)) name.now }
{
    name.as_bytes().iter().all(|b| 0x20 <= *b && *b < 0x7f)
}

// A name, character by character.
fn write_chars<B: Allocator>(text: &mut String<B>, name: &str) -> Result<(), AllocError>
    ensures { OnOk result (string_bytes text.new ≡ string_bytes text.old ++ name_text name.now) }
{
    for c in name.chars() {
        write_char(text, c)?;
    }
    Ok(())
}

// A character of a name.
fn write_char<B: Allocator>(text: &mut String<B>, c: char) -> Result<(), AllocError>
    ensures { OnOk result (string_bytes text.new ≡ string_bytes text.old ++ char_text c) }
{
    if c.is_control() {
        write!(text, "\\u{{{:x}}}", u32::from(c))
    } else {
        text.push(c)
    }
}
