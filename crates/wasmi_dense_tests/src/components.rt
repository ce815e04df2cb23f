//! Component vectors: worked extents and refusals, the Rust crate's own cases, visits, and texts.
use std::alloc::{AllocError, Global};
use std::test::Fail;
use wasmi_arena::ArenaError;
use wasmi_dense::ComponentVec;
use wasmi_vectors::assert_equal;
use wasmi_vectors::observed::{Log, Observed};

fn text(alloc: Global, number: usize) -> Result<String, AllocError> {
    format!(in alloc; "{number}")
}

#[test]
fn it_works(rt: HostRuntime) -> Result<(), Fail> {
    let mut components: ComponentVec<usize, String> = ComponentVec::new(rt.alloc());
    for number in 0..10usize {
        let mut shown = text(rt.alloc(), number)?;
        assert_equal!(rt; components.get(number), None);
        assert!(rt; components.get_mut(number).is_none());
        assert_equal!(rt; components.set(number, shown.clone()?)?, None);
        assert_equal!(rt; components.get(number), Some(&shown));
        assert_equal!(rt; components.get_mut(number), Some(&mut shown));
        assert_equal!(rt; &components[number], &shown);
    }
    for number in (0..10usize).rev() {
        assert_equal!(rt; components.unset(number), Some(text(rt.alloc(), number)?));
        assert_equal!(rt; (components.unset(number), components.get(number)), (None, None));
    }
    Ok(())
}

#[test]
fn clear_works(rt: HostRuntime) {
    let mut components: ComponentVec<usize, String> = ComponentVec::new(rt.alloc());
    for number in 0..10usize {
        let shown = text(rt.alloc(), number).expect(&rt, "");
        components.set(number, shown).expect(&rt, "");
    }
    assert_equal!(rt; components.extent(), 10);
    components.clear();
    for number in 0..10usize {
        assert_equal!(rt; components.get(number), None);
        assert!(rt; components.get_mut(number).is_none());
    }
    assert_equal!(rt; (components.extent(), components), (0, ComponentVec::new(rt.alloc())));
}

// Numbers without a component are not shown, and far ones are.
#[test]
fn debug_works(rt: HostRuntime) {
    let mut texts: ComponentVec<usize, String> = ComponentVec::new(rt.alloc());
    for number in 0..4usize {
        let shown = text(rt.alloc(), number).expect(&rt, "");
        texts.set(number, shown).expect(&rt, "");
    }
    let shown = format!(in rt.alloc(); "{texts:?}").expect(&rt, "");
    let wanted = r#"ComponentVec { components: {0: "0", 1: "1", 2: "2", 3: "3"} }"#;
    assert_equal!(rt; shown.as_str(), wanted);
    let mut components: ComponentVec<usize, i32> = ComponentVec::new(rt.alloc());
    let none = format!(in rt.alloc(); "{components:?}").expect(&rt, "");
    assert_equal!(rt; none.as_str(), "ComponentVec { components: {} }");
    assert_equal!(rt; (components.set(3, 9), components.set(0, 7)), (Ok(None), Ok(None)));
    let two = format!(in rt.alloc(); "{components:?}").expect(&rt, "");
    assert_equal!(rt; two.as_str(), "ComponentVec { components: {0: 7, 3: 9} }");
    assert_equal!(rt; (components.unset(0), components.set(70_000, 1)), (Some(7), Ok(None)));
    let far = format!(in rt.alloc(); "{components:?} {components:#?}").expect(&rt, "");
    let plain = "ComponentVec { components: {3: 9, 70000: 1} }";
    let pretty = "ComponentVec {\n    components: {\n        3: 9,\n        70000: 1,\n    },\n}";
    let wanted = format!(in rt.alloc(); "{plain} {pretty}").expect(&rt, "");
    assert_equal!(rt; far.as_str(), wanted.as_str());
}

#[test]
fn an_extent_stays(rt: HostRuntime) {
    let mut components: ComponentVec<usize, i32> = ComponentVec::new(rt.alloc());
    assert_equal!(rt; (components.set(3, 9), components.set(3, 8)), (Ok(None), Ok(Some(9))));
    assert_equal!(rt; components.set(1, 7).expect(&rt, ""), None);
    assert_equal!(rt; components.extent(), 4);
    components[1] = 6;
    if let Some(there) = components.get_mut(3) {
        *there = 5;
    }
    assert_equal!(rt; (components.unset(1), components.unset(3)), (Some(6), Some(5)));
    assert_equal!(rt; (components.unset(4), components.extent()), (None, 4));
    let fresh = ComponentVec::new(rt.alloc());
    assert!(rt; components != fresh && fresh != components);
    components.clear();
    assert_equal!(rt; (components.extent(), components), (0, fresh));
}

// Neither asks for memory: the last number has no place, and the block for the one before is too large.
#[test]
fn numbers_at_the_end(rt: HostRuntime) {
    let log = Log::new();
    let handle = Observed::new(rt.alloc(), &log);
    let mut components: ComponentVec<usize, i32, Observed<'_>> = ComponentVec::new(handle);
    components.set(2, 7).expect(&rt, "");
    let requests = log.requests();
    assert_equal!(rt; components.set(usize::MAX, 1), Err(ArenaError::KeyOutOfBounds));
    assert_equal!(rt; components.set(usize::MAX - 1, 1), Err(ArenaError::OutOfSystemMemory));
    assert_equal!(rt; (components.extent(), components.get(2)), (3, Some(&7)));
    assert_equal!(rt; components.get(usize::MAX), None);
    assert_equal!(rt; (components.unset(usize::MAX), log.requests()), (None, requests));
}

// The components 10, 40 and 60 at 1, 4 and 6; the extent is 8.
#[test]
fn components_are_visited_from_both_ends(rt: HostRuntime) {
    let mut components: ComponentVec<u32, u32> = ComponentVec::new(rt.alloc());
    for (key, component) in [(1, 10), (4, 40), (6, 60), (7, 70)] {
        components.set(key, component).expect(&rt, "");
    }
    components.unset(7);
    let mut entries = components.iter();
    assert_equal!(rt; (entries.next(), entries.next_back()), (Some((1, &10)), Some((6, &60))));
    assert_equal!(rt; (entries.next_back(), entries.next()), (Some((4, &40)), None));
    assert_equal!(rt; entries.next_back(), None);
    for (key, component) in &mut components {
        *component = component.wrapping_add(key);
    }
    let mut entries = components.iter_mut();
    assert_equal!(rt; entries.next_back(), Some((6, &mut 66)));
    let (key, component) = entries.next().expect(&rt, "first");
    *component = key.wrapping_add(100);
    drop(entries);
    let found = (components.get(1), components.get(4), components.get(6));
    assert_equal!(rt; found, (Some(&101), Some(&44), Some(&66)));
    assert_equal!(rt; (components.has(0), components.has(1), components.has(8)), (false, true, false));
    assert_equal!(rt; components.extent(), 8);
}
