//! Each caller on its happy path.

use wasmi_arena::{StableArena, StableVec};
use wasmi_collections::string_interner::Sym;
use wasmi_collections::{DedupArena, HeadVec, StringInterner, hashed, ordered};
use wasmi_dense::{Arena, ComponentVec};
use wasmi_ordered::Map;
use wasmi_script_lib::EntityStore;
use wasmi_uses::compiler::Tables;
use wasmi_uses::constants::{fold, in_its_slot, share_a_slot, slot_again, slot_of_text};
use wasmi_uses::define::define;
use wasmi_uses::exports::{note, noted_of};
use wasmi_uses::frames::tail_call;
use wasmi_uses::functions::{FunctionKey, Functions};
use wasmi_uses::imports::{take_offered, take_offered_hashed};
use wasmi_uses::linker::{export, import, symbol_again, symbol_and_text, symbol_of_new};
use wasmi_uses::lookup::{any_differs, first_above, read};
use wasmi_uses::properties::set_once;
use wasmi_uses::reserve::put_both;
use wasmi_uses::search::{position_of, push_and_find};
use wasmi_uses::spawn::spawn;
use wasmi_uses::store::{FuncId, FuncStore};
use wasmi_uses::symbols::{Symbols, intern_both};
use wasmi_uses::tables::{add_once, add_once_hashed, reset, reset_all, settle};
use wasmi_uses::transfer::transfer;
use wasmi_uses::write::put_or_alloc;
use wasmi_vectors::assert_equal;

#[test]
fn a_store_of_two_functions(rt: HostRuntime) {
    let mut store = FuncStore::new(rt.alloc());
    let first = store.put("add").expect(&rt, "");
    let second = store.put("sub").expect(&rt, "");
    assert!(rt; first != second && store.count() == 2);
    assert_equal!(rt; store.get(first), Some(&"add"));
    assert_equal!(rt; store.get(second), Some(&"sub"));
    drop(store);
}

#[test]
fn symbols_of_three_names(rt: HostRuntime) {
    let mut symbols = Symbols::new(rt.alloc());
    for (name, symbol) in [("memory", 0), ("table", 1), ("memory", 0), ("", 2)] {
        assert_equal!(rt; symbols.intern(rt.alloc(), name).expect(&rt, ""), symbol, at name);
    }
    assert_equal!(rt; (symbols.find("table"), symbols.find("tables")), (Some(1), None));
    assert_equal!(rt; intern_both(&mut symbols, rt.alloc(), "", "start").expect(&rt, ""), (2, 3));
    drop(symbols);
}

// Numbers without order, the greatest there is among them.
fn number(place: u64) -> u64 {
    if place == 9 {
        u64::MAX
    } else {
        place.wrapping_mul(37) % 64
    }
}

#[test]
fn look_ups_by_the_keys_of_a_walk(rt: HostRuntime) {
    for len in 0..70u64 {
        let made = StableArena::from_iter(rt.alloc(), (0..len).map(number));
        let one: StableArena<u32, u64> = made.expect(&rt, "");
        for limit in (0..66).chain([u64::MAX - 1, u64::MAX]) {
            let mut want = None;
            for place in 0..len {
                if want.is_none() && number(place) > limit {
                    want = Some((place as u32, number(place)));
                }
            }
            assert_equal!(rt; first_above(&one, limit), want, at (limit, len));
        }
        // The other one has an item more, which doesn't count.
        for place in 0..=len as u32 {
            let mut other = one.clone().expect(&rt, "");
            other.alloc(0).expect(&rt, "");
            other.put(place, 64).expect(&rt, "");
            if one.len() <= other.len() {
                assert_equal!(rt; any_differs(&one, &other), (place as u64) < len, at (place, len));
            }
            drop(other);
        }
        drop(one);
    }
}

#[test]
fn a_key_that_fails_is_named(rt: HostRuntime) {
    let made = StableArena::from_iter(rt.alloc(), 0..40u64);
    let arena: StableArena<u32, u64> = made.expect(&rt, "");
    assert_equal!(rt; (read(&arena, 0).ok(), read(&arena, 39).ok()), (Some(0), Some(39)));
    let text = match read(&arena, 40) {
        Ok(_) => String::new(rt.alloc()),
        Err(error) => format!(in rt.alloc(); "{error:#}").expect(&rt, ""),
    };
    assert_equal!(rt; text.as_str(), "key 40 of an arena of 40 items: encounteded out of bounds key");
    drop(arena);
}

#[test]
fn a_search_across_buckets(rt: HostRuntime) {
    let mut vec = StableVec::new(rt.alloc());
    for i in 0..100u64 {
        vec.push(i * 2).expect(&rt, "");
    }
    assert_equal!(rt; (position_of(&vec, &140), position_of(&vec, &141)), (Some(70), None));
    let found = (push_and_find(&mut vec, 141), push_and_find(&mut vec, 140));
    assert_equal!(rt; found, (Ok(Some(100)), Ok(Some(70))));
    drop(vec);
}

#[test]
fn a_property_is_set_once(rt: HostRuntime) {
    let mut names: ComponentVec<u32, &str> = ComponentVec::new(rt.alloc());
    assert_equal!(rt; (set_once(&mut names, 3, "add"), set_once(&mut names, 3, "sub")), (Ok(true), Ok(false)));
    assert_equal!(rt; (names.get(3), names.extent()), (Some(&"add"), 4));
}

#[test]
fn a_tail_call_takes_the_place(rt: HostRuntime) {
    let mut frames = HeadVec::new(rt.alloc());
    assert_equal!(rt; tail_call(&mut frames, "f"), None);
    assert_equal!(rt; (frames.push("main"), frames.push("f")), (Ok(()), Ok(())));
    assert_equal!(rt; tail_call(&mut frames, "g"), Some("f"));
    assert_equal!(rt; (frames.pop(), frames.pop(), frames.pop()), (Some("g"), Some("main"), None));
}

#[test]
fn a_write_into_either_arena(rt: HostRuntime) {
    let mut dense: Arena<u32, &'static str> = Arena::new(rt.alloc());
    let mut stable: StableArena<u32, &'static str> = StableArena::new(rt.alloc());
    for (key, text, at) in [(5, "a", 0), (5, "b", 1), (0, "c", 0), (1, "d", 1)] {
        assert_equal!(rt; put_or_alloc(&mut dense, key, text).expect(&rt, ""), at, at text);
        assert_equal!(rt; put_or_alloc(&mut stable, key, text).expect(&rt, ""), at, at text);
    }
    assert_equal!(rt; (dense.len(), dense.get(0), dense.get(1)), (2, Ok(&"c"), Ok(&"d")));
    assert_equal!(rt; (stable.len(), stable.get(0), stable.get(1)), (2, Ok(&"c"), Ok(&"d")));
    drop(stable);
}

#[test]
fn two_items_go_in_together(rt: HostRuntime) {
    let mut arena: Arena<usize, u64> = Arena::new(rt.alloc());
    put_both(&mut arena, 1, 2).expect(&rt, "");
    put_both(&mut arena, 3, 4).expect(&rt, "");
    assert_equal!(rt; (arena.len(), arena.get(1), arena.get(2)), (4, Ok(&2), Ok(&3)));
}

#[test]
fn a_table_of_counts(rt: HostRuntime) {
    let mut counts: Map<u32, u64> = Map::new(rt.alloc());
    for (key, value, is_new) in [(7, 3, true), (8, 4, true), (7, 9, false)] {
        assert_equal!(rt; add_once(&mut counts, key, value), Ok(is_new));
    }
    assert_equal!(rt; (reset(&mut counts, &7), reset(&mut counts, &9)), (Some(3), None));
    assert_equal!(rt; (counts.get(&7), counts.get(&8)), (Some(&0), Some(&4)));
    for key in 0..200u32 {
        counts.insert(key, u64::MAX >> (key % 64)).expect(&rt, "");
    }
    assert_equal!(rt; reset_all(&mut counts), 200);
    for key in 0..200u32 {
        assert_equal!(rt; counts.get(&key), Some(&0), at key);
    }
}

#[test]
fn a_hashed_table_keeps_the_first_value(rt: HostRuntime) {
    let mut table: hashed::Map<u32, u64> = hashed::Map::new(rt.alloc());
    assert_equal!(rt; (add_once_hashed(&mut table, 7, 3), add_once_hashed(&mut table, 7, 9)), (Ok(true), Ok(false)));
    assert_equal!(rt; (table.get(&7), table.len()), (Some(&3), 1));
    assert!(rt; add_once_hashed(&mut table, 8, 4).expect(&rt, ""));
    assert_equal!(rt; (settle(&mut table), table.len()), (7, 0));
}

#[test]
fn what_is_offered_is_taken(rt: HostRuntime) {
    let offered = ordered::Set::from_iter(rt.alloc(), [1, 2]).expect(&rt, "");
    let mut taken = ordered::Set::new(rt.alloc());
    for (element, is_taken) in [(2, true), (3, false)] {
        assert_equal!(rt; take_offered(&mut taken, &offered, element), Ok(is_taken));
    }
    assert_equal!(rt; (taken.contains(&2), taken.len()), (true, 1));
    let offered = hashed::Set::from_iter(rt.alloc(), [1, 2]).expect(&rt, "");
    let mut taken = hashed::Set::new(rt.alloc());
    for (element, is_taken) in [(2, true), (3, false)] {
        assert_equal!(rt; take_offered_hashed(&mut taken, &offered, element), Ok(is_taken));
    }
    assert_equal!(rt; (taken.contains(&2), taken.len()), (true, 1));
}

#[test]
fn names_are_defined_once(rt: HostRuntime) {
    let mut sorted = ordered::Map::new(rt.alloc());
    for (key, name, len) in [(1, "one", 1), (2, "two", 2), (1, "uno", 2)] {
        assert_equal!(rt; define(&mut sorted, key, name), Ok(len));
    }
    assert_equal!(rt; sorted.get(&1), Some(&"one"));
    let mut scattered = hashed::Map::new(rt.alloc());
    assert_equal!(rt; (define(&mut scattered, 1, "one"), define(&mut scattered, 1, "uno")), (Ok(1), Ok(1)));
    assert_equal!(rt; scattered.get(&1), Some(&"one"));
}

#[test]
fn a_name_is_exported_once(rt: HostRuntime) {
    let mut names = StringInterner::new(rt.alloc());
    for (name, was_new) in [("memory", true), ("table", true), ("memory", false)] {
        assert_equal!(rt; export(&mut names, name).expect(&rt, ""), was_new, at name);
    }
    let found = (import(&names, "table"), import(&names, "global"));
    assert_equal!(rt; found, (Some(Sym::from_u32(1)), None));
    drop(names);
}

#[test]
fn a_name_has_one_symbol(rt: HostRuntime) {
    let mut names = StringInterner::new(rt.alloc());
    let table = Sym::from_u32(1);
    assert_equal!(rt; export(&mut names, "memory"), Ok(true));
    assert_equal!(rt; symbol_and_text(&mut names, "table"), Ok((table, true)));
    assert_equal!(rt; symbol_again(&mut names, "table", "start"), Ok((table, table)));
    assert_equal!(rt; (names.len(), symbol_of_new(&mut names, "start")), (3, Ok(None)));
    assert_equal!(rt; symbol_of_new(&mut names, "elem"), Ok(Some(Sym::from_u32(3))));
    drop(names);
}

#[test]
fn what_names_stand_for(rt: HostRuntime) {
    let mut names = StringInterner::new(rt.alloc());
    let mut noted = ComponentVec::new(rt.alloc());
    names.get_or_intern("start").expect(&rt, "");
    for (name, value) in [("memory", 1), ("table", 2), ("memory", 3)] {
        note(&mut names, &mut noted, name, value).expect(&rt, "");
    }
    for (name, value) in [("memory", Some(&3)), ("table", Some(&2)), ("elem", None)] {
        assert_equal!(rt; noted_of(&names, &noted, name), value, at name);
    }
    assert_equal!(rt; noted.get(Sym::from_u32(2)), Some(&2));
    drop(names);
}

#[test]
fn a_text_has_a_slot(rt: HostRuntime) {
    let mut table = DedupArena::new(rt.alloc());
    for text in ["memory", "table"] {
        let text = String::from_str(rt.alloc(), text).expect(&rt, "");
        table.alloc(text).expect(&rt, "");
    }
    for (text, slot) in [("memory", Some(0)), ("table", Some(1)), ("elem", None)] {
        let text = String::from_str(rt.alloc(), text).expect(&rt, "");
        assert_equal!(rt; slot_of_text(&table, &text), slot, at slot);
    }
    drop(table);
}

#[test]
fn a_constant_has_one_slot(rt: HostRuntime) {
    let mut table = DedupArena::new(rt.alloc());
    assert_equal!(rt; (share_a_slot(&mut table, 7, 8), share_a_slot(&mut table, 8, 8)), (Ok(false), Ok(true)));
    assert_equal!(rt; slot_again(&mut table, 8, 9), Ok((1, 1)));
    assert_equal!(rt; (in_its_slot(&mut table, 9), table.len()), (Ok(9), 3));
    table.put(2, 4).expect(&rt, "");
    assert_equal!(rt; (in_its_slot(&mut table, 9), in_its_slot(&mut table, 4)), (Ok(4), Ok(4)));
    drop(table);
}

#[test]
fn a_folded_constant_has_one_slot(rt: HostRuntime) {
    let mut table: DedupArena<u32, u64> = DedupArena::from_iter(rt.alloc(), [40, 2, 42]).expect(
        &rt, "",
    );
    for (slot, folded, want) in [(0, 43, 0), (1, 42, 2), (2, 42, 2)] {
        assert_equal!(rt; fold(&mut table, slot, folded).expect(&rt, ""), want, at (folded, slot));
    }
    assert_equal!(rt; (table.get(0), table.get(1)), (Ok(&43), Ok(&2)));
    assert!(rt; fold(&mut table, 3, 1).is_err());
    for (slot, item) in [43, 2, 42, 40].iter().enumerate() {
        assert_equal!(rt; table.alloc(*item).expect(&rt, ""), slot as u32);
    }
    drop(table);
}

#[test]
fn tables_of_a_module(rt: HostRuntime) {
    let mut tables = Tables::new(rt.alloc());
    let (first, symbol) = tables.declare("start", 7).expect(&rt, "");
    let (second, other) = tables.declare("stop", 9).expect(&rt, "");
    assert!(rt; first != second && symbol != other);
    assert_equal!(rt; tables.name_and_line(first), Some((symbol, Some(7))));
    assert_equal!(rt; tables.name_and_line(second), Some((other, Some(9))));
    assert_equal!(rt; tables.name_and_line(FuncId::from_u32(2)), None);
    for (constant, slot) in [(40, 0), (2, 1), (40, 0)] {
        assert_equal!(rt; tables.constant(constant).expect(&rt, ""), slot);
    }
    assert_equal!(rt; tables.constant_twice(2).expect(&rt, ""), (1, 1));
    let (step, again) = tables.declare_twice("step").expect(&rt, "");
    assert!(rt; step == again && step != other);
    assert_equal!(rt; tables.name_and_line(FuncId::from_u32(3)), Some((step, Some(2))));
    drop(tables);
}

#[test]
fn functions_by_name(rt: HostRuntime) {
    let mut functions = Functions::new(rt.alloc());
    for (name, value, number, is_new) in [
        ("start", 7, 0, true),
        ("stop", 9, 1, true),
        ("start", 8, 0, false),
    ] {
        let key = FunctionKey::from_u32(number);
        assert_equal!(rt; functions.define(name, value).expect(&rt, ""), (key, is_new), at name);
    }
    let stop = FunctionKey::from_u32(1);
    assert_equal!(rt; (functions.find("stop"), functions.find("step")), (Some((stop, 9)), None));
    assert_equal!(rt; (functions.name_of(stop), functions.get(stop)), (Some("stop"), Some(9)));
    assert_equal!(rt; functions.get(FunctionKey::from_u32(2)), None);
    drop(functions);
}

#[test]
fn an_entity_has_a_property_at_once(rt: HostRuntime) {
    let mut store = EntityStore::new(rt.alloc());
    let key = spawn(&mut store, "ann", "cat", 7).expect(&rt, "");
    assert_equal!(rt; store.get(key), Ok(("ann", "cat", Some(7))));
    drop(store);
}

// From each to each of four, and past them.
#[test]
fn two_items_are_written_at_once(rt: HostRuntime) {
    let items = [1, u64::MAX, 5 << 40, 1 << 63];
    for from in 0..6u32 {
        for to in 0..6u32 {
            let made = StableArena::from_iter(rt.alloc(), items);
            let mut arena: StableArena<u32, u64> = made.expect(&rt, "");
            let mut want = items;
            let is_done = from != to && from < 4 && to < 4;
            if is_done {
                want[to as usize] = want[to as usize].wrapping_add(want[from as usize]);
                want[from as usize] = 0;
            }
            assert_equal!(rt; transfer(&mut arena, from, to), is_done, at (from, to));
            assert!(rt; arena.values().copied().eq(want), "{from} to {to}");
            drop(arena);
        }
    }
}

#[test]
fn an_item_goes_into_another_bucket(rt: HostRuntime) {
    let mut arena: StableArena<u32, u64> = StableArena::new(rt.alloc());
    for i in 0..40u64 {
        arena.alloc(i).expect(&rt, "");
    }
    for (from, to, done, source, target) in [
        (39, 3, true, Some(0), Some(42)),
        (3, 4, true, Some(0), Some(46)),
        (5, 5, false, Some(5), Some(5)),
        (5, 40, false, Some(5), None),
    ] {
        assert_equal!(rt; transfer(&mut arena, from, to), done);
        assert_equal!(rt; (arena.get(from).ok(), arena.get(to).ok()), (source.as_ref(), target.as_ref()));
    }
    drop(arena);
}
