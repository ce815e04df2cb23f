//! Which of two equal elements or keys a call keeps.
use std::alloc::Global;
use wasmi_arena::ArenaError;
use wasmi_hashed as hashed;
use wasmi_ordered as ordered;
use wasmi_vectors::assert_equal;
use wasmi_vectors::digit::{Digit, number, three};

// Calls of these names on a set, with a 2 in places 1 to 3. In place of the set comes what a call makes of the two.
macro_rules! change {
    ($call:expr, $one:ident, $other:ident, $($name:literal => $made:expr),*) => {{
        match $call {
            "insert" => {
                for element in three(1, 2) {
                    $one.insert(element)?;
                }
            }
            "replace" => {
                for element in three(1, 2) {
                    $one.replace(element)?;
                }
            }
            "extend" => $one.extend(three(1, 2))?,
            "extend_ref" => $one.extend_ref($other)?,
            $($name => *$one = $made?,)*
            "sub" => *$one = $one.sub($other)?,
            _ => *$one = $one.bitxor($other)?,
        }
        Ok(())
    }};
}

// The same of the keys of a map.
macro_rules! change_keys {
    ($call:expr, $map:ident, $others:ident) => {{
        let (_, more) = pairs();
        match $call {
            "insert" => {
                for (key, value) in more {
                    $map.insert(key, value)?;
                }
            }
            "or_insert" => {
                for (key, value) in more {
                    $map.entry(key)?.or_insert(value)?;
                }
            }
            "extend" => $map.extend(more)?,
            _ => $map.extend_ref($others)?,
        }
        Ok(())
    }};
}

type Pairs = [(Digit, u32); 3];

fn pairs() -> (Pairs, Pairs) {
    (
        three(0, 1).map(|key| (key, 1)),
        three(1, 2).map(|key| (key, 2)),
    )
}

// The number of a set with a 1 in places 0 to 2 after a call, where the other has a 2 in places 1 to 3.
macro_rules! kept {
    ($backing:ident, $alloc:ident, $call:ident, $walked:ident, $change:ident) => {{
        let mut one = $backing::Set::from_iter($alloc, three(0, 1))?;
        let other = $backing::Set::from_iter($alloc, three(1, 2))?;
        if let Some(number) = $walked(&one, &other, $call) {
            return Ok(number);
        }
        $change(&mut one, &other, $call)?;
        Ok(number(one.iter()))
    }};
}

// The same of the keys of a map.
macro_rules! kept_key {
    ($backing:ident, $alloc:ident, $call:ident, $change:ident) => {{
        let (pairs, more) = pairs();
        let mut map = $backing::Map::from_iter($alloc, pairs)?;
        let others = $backing::Map::from_iter($alloc, more)?;
        $change(&mut map, &others, $call)?;
        Ok(number(map.keys()))
    }};
}

fn change_ordered(
    one: &mut ordered::Set<Digit>,
    other: &ordered::Set<Digit>,
    call: &str,
) -> Result<(), ArenaError> {
    change!(call, one, other, "bitor" => one.bitor(other), "bitand" => one.bitand(other))
}

// The calls that make a set of what two have may keep either.
fn change_hashed(
    one: &mut hashed::Set<Digit>,
    other: &hashed::Set<Digit>,
    call: &str,
) -> Result<(), ArenaError> {
    change!(call, one, other,)
}

// What a walk over both gives, of those that make no set.
fn walked_ordered(
    one: &ordered::Set<Digit>,
    other: &ordered::Set<Digit>,
    call: &str,
) -> Option<u32> {
    Some(match call {
        "difference" => number(one.difference(other)),
        "symmetric_difference" => number(one.symmetric_difference(other)),
        "union" => number(one.union(other)),
        "intersection" => number(one.intersection(other)),
        _ => return None,
    })
}

fn walked_hashed(one: &hashed::Set<Digit>, other: &hashed::Set<Digit>, call: &str) -> Option<u32> {
    Some(match call {
        "difference" => number(one.difference(other)),
        "symmetric_difference" => number(one.symmetric_difference(other)),
        _ => return None,
    })
}

fn kept_ordered(alloc: Global, call: &str) -> Result<u32, ArenaError> {
    kept!(ordered, alloc, call, walked_ordered, change_ordered)
}

fn kept_hashed(alloc: Global, call: &str) -> Result<u32, ArenaError> {
    kept!(hashed, alloc, call, walked_hashed, change_hashed)
}

fn change_ordered_keys(
    map: &mut ordered::Map<Digit, u32>,
    others: &ordered::Map<Digit, u32>,
    call: &str,
) -> Result<(), ArenaError> {
    change_keys!(call, map, others)
}

fn change_hashed_keys(
    map: &mut hashed::Map<Digit, u32>,
    others: &hashed::Map<Digit, u32>,
    call: &str,
) -> Result<(), ArenaError> {
    change_keys!(call, map, others)
}

fn kept_ordered_key(alloc: Global, call: &str) -> Result<u32, ArenaError> {
    kept_key!(ordered, alloc, call, change_ordered_keys)
}

fn kept_hashed_key(alloc: Global, call: &str) -> Result<u32, ArenaError> {
    kept_key!(hashed, alloc, call, change_hashed_keys)
}

#[test]
fn a_set_keeps_its_own_element(rt: HostRuntime) {
    for (call, number) in [
        ("insert", 2111),
        ("replace", 2221),
        ("extend", 2111),
        ("extend_ref", 2111),
        ("sub", 1),
        ("bitxor", 2001),
        ("difference", 1),
        ("symmetric_difference", 2001),
    ] {
        assert_equal!(rt; kept_ordered(rt.alloc(), call), Ok(number), at call);
        assert_equal!(rt; kept_hashed(rt.alloc(), call), Ok(number), at call);
    }
    for (call, number) in [
        ("union", 2111),
        ("bitor", 2111),
        ("intersection", 110),
        ("bitand", 110),
    ] {
        assert_equal!(rt; kept_ordered(rt.alloc(), call), Ok(number), at call);
    }
    let six = three(0, 1).into_iter().chain(three(1, 2));
    let set = ordered::Set::from_iter(rt.alloc(), six).expect(&rt, "");
    assert_equal!(rt; number(set.iter()), 2111);
    let six = three(0, 1).into_iter().chain(three(1, 2));
    let set = hashed::Set::from_iter(rt.alloc(), six).expect(&rt, "");
    assert_equal!(rt; number(set.iter()), 2111);
}

// Whatever is put under it.
#[test]
fn a_map_keeps_its_own_key(rt: HostRuntime) {
    for call in ["insert", "or_insert", "extend", "extend_ref"] {
        assert_equal!(rt; kept_ordered_key(rt.alloc(), call), Ok(2111), at call);
        assert_equal!(rt; kept_hashed_key(rt.alloc(), call), Ok(2111), at call);
    }
}
