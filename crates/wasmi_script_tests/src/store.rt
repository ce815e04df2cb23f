//! The entity store: worked examples.
use wasmi_arena::{ArenaError, ArenaKey};
use wasmi_script_lib::{EntityKey, EntityStore};
use wasmi_vectors::assert_equal;

fn key(number: usize) -> Result<EntityKey, ArenaError> {
    EntityKey::from_usize(number).ok_or(ArenaError::KeyOutOfBounds)
}

#[test]
fn entities_are_added(rt: HostRuntime) {
    let mut store = EntityStore::new(rt.alloc());
    for (name, kind, number, counts) in [
        ("ann", "user", 0usize, (1, 1, 1)),
        ("bob", "user", 1, (2, 2, 1)),
        ("ann", "group", 2, (3, 2, 2)),
        ("", "", 3, (4, 3, 3)),
    ] {
        assert_equal!(rt; store.add(name, kind).expect(&rt, "").into_usize(), number);
        assert_equal!(rt; (store.len(), store.names(), store.kinds()), counts);
    }
    drop(store);
}

#[test]
fn properties_are_set_and_taken_out(rt: HostRuntime) {
    let mut store = EntityStore::new(rt.alloc());
    let ann = store.add("ann", "user").expect(&rt, "");
    let bob = store.add("bob", "user").expect(&rt, "");
    assert_equal!(rt; (store.set(bob, 42), store.set(bob, 7)), (Ok(None), Ok(Some(42))));
    for (key, name, property) in [(ann, "ann", None), (bob, "bob", Some(7))] {
        assert_equal!(rt; store.get(key), Ok((name, "user", property)));
    }
    assert_equal!(rt; (store.unset(bob), store.unset(bob)), (Ok(Some(7)), Ok(None)));
    assert_equal!(rt; (store.set(bob, 8), store.unset(bob)), (Ok(None), Ok(Some(8))));
    let nobody = key(2).expect(&rt, "");
    let refused = Err(ArenaError::KeyOutOfBounds);
    assert_equal!(rt; (store.set(nobody, 1), store.unset(nobody)), (refused, refused));
    assert_equal!(rt; store.get(nobody).err(), refused.err());
    drop(store);
}

#[test]
fn kinds_are_renamed(rt: HostRuntime) {
    let mut store = EntityStore::new(rt.alloc());
    for (name, kind) in [("ann", "user"), ("bob", "user"), ("ann", "group")] {
        let _key = store.add(name, kind).expect(&rt, "");
    }
    for (number, kind, done) in [
        (0, "admin", Ok(())),
        (0, "admin", Ok(())),
        (2, "admin", Err(ArenaError::DuplicateItem)),
        (5, "admin", Err(ArenaError::KeyOutOfBounds)),
        (2, "user", Ok(())),
    ] {
        assert_equal!(rt; store.rename_kind(key(number).expect(&rt, ""), kind), done);
    }
    for (number, name, kind) in [(0, "ann", "admin"), (1, "bob", "admin"), (2, "ann", "user")] {
        assert_equal!(rt; store.get(key(number).expect(&rt, "")), Ok((name, kind, None)));
    }
    assert_equal!(rt; store.kinds(), 2);
    drop(store);
}
