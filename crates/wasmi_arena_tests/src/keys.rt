//! What no clause says of keys and errors: where types of keys end, hashes, and texts.
use std::alloc::AllocError;
use std::hash::{DefaultHasher, Hash, Hasher};
use std::num::NonZero;
use wasmi_arena::ArenaError::{
    AliasingPairAccess, DuplicateItem, KeyOutOfBounds, NotEnoughKeys, OutOfSystemMemory,
};
use wasmi_arena::{ArenaError, ArenaKey, TypedKey};
use wasmi_vectors::assert_equal;

#[test]
fn keys_end_where_their_types_do(rt: HostRuntime) {
    assert_equal!(rt; NonZero::<u32>::from_usize(4294967295), None);
    assert_equal!(rt; (u32::from_usize(4294967295), u32::from_usize(4294967296)), (Some(4294967295), None));
    assert_equal!(rt; usize::from_usize(usize::MAX), Some(usize::MAX));
    assert_equal!(rt; NonZero::<usize>::from_usize(usize::MAX), None);
}

#[test]
fn keys_have_their_numbers(rt: HostRuntime) {
    for n in [0, 1, 4294967294] {
        assert_equal!(rt; n.into_usize(), n);
        assert_equal!(rt; u32::from_usize(n).expect(&rt, "u32").into_usize(), n);
        assert_equal!(rt; NonZero::<u32>::from_usize(n).expect(&rt, "u32").into_usize(), n);
        assert_equal!(rt; NonZero::<usize>::from_usize(n).expect(&rt, "usize").into_usize(), n);
    }
}

// What has such keys.
enum Hashed {}

fn hash_of(number: u32) -> u64 {
    let mut hasher = DefaultHasher::new();
    TypedKey::<Hashed>::from_u32(number).hash(&mut hasher);
    hasher.finish()
}

// Each bit of the number tells.
#[test]
fn keys_that_differ_hash_apart(rt: HostRuntime) {
    for bit in 0..32u32 {
        assert!(rt; hash_of(1u32.wrapping_shl(bit)) != hash_of(0), "of {bit}");
    }
}

#[test]
fn texts_of_the_errors(rt: HostRuntime) {
    for (error, text, name) in [
        (
            OutOfSystemMemory,
            "ran out of system memory",
            "OutOfSystemMemory",
        ),
        (
            KeyOutOfBounds,
            "encounteded out of bounds key",
            "KeyOutOfBounds",
        ),
        (NotEnoughKeys, "ran out of valid keys", "NotEnoughKeys"),
        (
            AliasingPairAccess,
            "tried to access aliasing item pair",
            "AliasingPairAccess",
        ),
        (
            DuplicateItem,
            "item is already in the arena",
            "DuplicateItem",
        ),
    ] {
        let shown = format!(in rt.alloc(); "{error}").expect(&rt, "");
        let debug = format!(in rt.alloc(); "{error:?}").expect(&rt, "");
        let texts = (error.text(), shown.as_str(), debug.as_str());
        assert_equal!(rt; texts, (text, text, name));
    }
    assert_equal!(rt; ArenaError::from(AllocError), OutOfSystemMemory);
}
