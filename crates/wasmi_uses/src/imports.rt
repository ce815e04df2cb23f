//! Sets of names: what is taken of what is offered.
ghost use Rattle.std.specs.Prelude.{◌≡◌, true, false, IfOk, OnErr};
ghost use Rattle.std.specs.Ordering.{eq_by_cmp};
ghost use Rattle.std.specs.Set.{is_member};
ghost use Rattle.wasmi_map_specs.specs.Sets.{ChangesAt};

use std::alloc::Allocator;
use std::hash::{BuildHasher, Hash};
use wasmi_arena::ArenaError;
use wasmi_hashed::set as hashed;
use wasmi_ordered::Set;

/// Puts a name among those that are taken if it is offered, and returns whether it is.
pub fn take_offered<T: Hash + Ord + Drop, A: Allocator + Clone>(
    taken: &mut Set<T, A>,
    offered: &Set<T, A>,
    name: T,
) -> Result<bool, ArenaError>
    ensures is_offered { IfOk result (λ is_offered. is_offered
        ≡ is_member (eq_by_cmp T.cmp) offered.now name) }
    ensures added { IfOk result (λ is_offered. is_offered ≡ true
        → ChangesAt (eq_by_cmp T.cmp) taken.old name true taken.new) }
    ensures kept { IfOk result (λ is_offered. is_offered ≡ false → taken.new ≡ taken.old) }
    ensures err { OnErr result (taken.new ≡ taken.old) }
{
    if !offered.contains(&name) {
        return Ok(false);
    }
    taken.insert(name)?;
    Ok(true)
}

/// As [`take_offered`], of hashed sets.
pub fn take_offered_hashed<T: Eq + Hash + Drop, S: BuildHasher, A: Allocator + Clone>(
    taken: &mut hashed::Set<T, S, A>,
    offered: &hashed::Set<T, S, A>,
    name: T,
) -> Result<bool, ArenaError>
    ensures is_offered { IfOk result (λ is_offered. is_offered
        ≡ is_member T.eq offered.now.elements name) }
    ensures added { IfOk result (λ is_offered. is_offered ≡ true
        → ChangesAt T.eq taken.old.elements name true taken.new.elements) }
    ensures kept { IfOk result (λ is_offered. is_offered ≡ false → taken.new ≡ taken.old) }
    ensures err { OnErr result (taken.new ≡ taken.old) }
{
    if !offered.contains(&name) {
        return Ok(false);
    }
    taken.insert(name)?;
    Ok(true)
}
