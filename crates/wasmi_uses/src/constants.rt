//! A compiler's table of constants, in which equal constants share a slot.
ghost use Rattle.std.specs.Prelude.{ℕ, ◌≡◌, ◌≢◌, ◌==◌, map, position, nat_eq, string_bytes, IfOk, IfSome, Some, slice_get};
ghost use Rattle.wasmi_collections.specs.Interner.{symbol_of};

use std::alloc::Global;
use wasmi_collections::DedupArena;
use wasmi_collections::arena::ArenaError;
use wasmi_collections::laws::{equal_values_share_a_key, strings_by_bytes};

/// Gives two constants their slots, and returns whether that is one slot: exactly if they are equal.
pub fn share_a_slot(
    table: &mut DedupArena<u32, u64>,
    one: u64,
    other: u64,
) -> Result<bool, ArenaError>
    ensures { IfOk result (λ shared. shared ≡ (one == other)) }
{
    // proof: equal values have one key, and each value has a key of its own.
    equal_values_share_a_key::<u32, u64>();
    table.len();
    let first = table.alloc(one)?;
    let second = table.alloc(other)?;
    Ok(first == second)
}

/// The slots of two constants, and that of the first again, which is the same.
pub fn slot_again(
    table: &mut DedupArena<u32, u64>,
    one: u64,
    other: u64,
) -> Result<(u32, u32), ArenaError>
    ensures { IfOk result (λ slots. slots.0 ≡ slots.1) }
{
    let first = table.alloc(one)?;
    table.alloc(other)?;
    let again = table.alloc(one)?;
    Ok((first, again))
}

/// What is in the slot of a constant. It is the constant, where nothing was written there.
pub fn in_its_slot(table: &mut DedupArena<u32, u64>, constant: u64) -> Result<u64, ArenaError>
    ensures { IfOk result (λ item. (slot : ℕ) → position (λ other. constant == other) table.new.handed ≡ Some slot
        → slice_get table.new.items slot ≡ Some item) }
{
    let slot = table.alloc(constant)?;
    Ok(table[slot])
}

/// Puts the folded form of a constant in the slot of the constant. Returns the slot of the folded form:
/// that one, or the one that it had already. Other constants keep their slots.
pub fn fold(table: &mut DedupArena<u32, u64>, slot: u32, folded: u64) -> Result<u32, ArenaError>
    ensures folded { IfOk result (λ slot. position (nat_eq folded) table.new.handed ≡ Some slot) }
    ensures kept { (other : ℕ) (p : ℕ) → position (nat_eq other) table.old.handed ≡ Some p → p ≢ slot
        → position (nat_eq other) table.new.handed ≡ Some p }
{
    match table.replace(slot, folded) {
        Ok(_) => Ok(slot),
        Err(ArenaError::DuplicateItem) => table.alloc(folded),
        Err(error) => Err(error),
    }
}

/// The slot of a text, if it has one. It is the place of the text's bytes among those of the texts handed in.
pub fn slot_of_text(table: &DedupArena<u32, String>, text: &String) -> Option<u32>
    ensures { IfSome result (λ slot.
        symbol_of (map string_bytes table.now.handed) (string_bytes text.now) ≡ Some slot) }
{
    // proof: strings are equal where their bytes are.
    strings_by_bytes::<Global>();
    table.key_of(text)
}
