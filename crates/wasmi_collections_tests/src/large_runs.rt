//! Runs of more commands than 2^17. A walk over all entries for one of them would not end in time.
use std::alloc::Global;
use std::process::Abort;
use wasmi_collections::run::{
    AnyMap, AnySet, DedupCommand, DedupReply, InternCommand, InternReply, MapCommand, MapReply,
    SetCommand, SetReply, run_dedup, run_interner, run_map, run_set,
};
use wasmi_collections::string_interner::{InternHint, Sym};
use wasmi_collections::{DedupArena, StringInterner, hashed, ordered};
use wasmi_vectors::assert_equal;

// Of so many numbers, five commands each.
const MANY: u32 = 30_000;

const ALL: u32 = 5 * MANY;

fn map_command(turn: u32) -> (MapCommand<u32, u32>, MapReply<u32>) {
    let key = turn % MANY;
    match turn / MANY {
        0 => (MapCommand::Insert(key, key), MapReply::Old(None)),
        1 => (MapCommand::OrInsert(key, 7), MapReply::Has(true)),
        2 => (MapCommand::Has(key), MapReply::Has(true)),
        3 => (MapCommand::Len, MapReply::Len(30_000)),
        _ => (MapCommand::Remove(key), MapReply::Old(Some(key))),
    }
}

fn run_of_map<M: AnyMap<u32, u32>>(rt: &impl Abort, alloc: Global, map: &mut M) {
    let mut commands = Vec::new(alloc);
    for turn in 0..ALL {
        commands.push(map_command(turn).0).expect(rt, "");
    }
    let replies = run_map(alloc, map, commands).expect(rt, "");
    for (turn, reply) in (0..ALL).zip(replies) {
        assert_equal!(*rt; reply, map_command(turn).1, at turn);
    }
}

fn set_command(turn: u32) -> (SetCommand<u32>, SetReply) {
    let element = turn % MANY;
    match turn / MANY {
        0 => (SetCommand::Insert(element), SetReply::Flag(true)),
        1 => (SetCommand::Insert(element), SetReply::Flag(false)),
        2 => (SetCommand::Has(element), SetReply::Flag(true)),
        3 => (SetCommand::Len, SetReply::Len(30_000)),
        _ => (SetCommand::Remove(element), SetReply::Flag(true)),
    }
}

fn run_of_set<S: AnySet<u32>>(rt: &impl Abort, alloc: Global, set: &mut S) {
    let mut commands = Vec::new(alloc);
    for turn in 0..ALL {
        commands.push(set_command(turn).0).expect(rt, "");
    }
    let replies = run_set(alloc, set, commands).expect(rt, "");
    for (turn, reply) in (0..ALL).zip(replies) {
        assert_equal!(*rt; reply, set_command(turn).1, at turn);
    }
}

#[test]
fn many_commands_to_maps_and_sets(rt: HostRuntime) {
    run_of_map(&rt, rt.alloc(), &mut ordered::Map::new(rt.alloc()));
    run_of_map(&rt, rt.alloc(), &mut hashed::Map::new(rt.alloc()));
    run_of_set(&rt, rt.alloc(), &mut ordered::Set::new(rt.alloc()));
    run_of_set(&rt, rt.alloc(), &mut hashed::Set::new(rt.alloc()));
}

fn dedup_command(turn: u32) -> (DedupCommand<u32, u32>, DedupReply<u32, u32>) {
    let key = turn % MANY;
    match turn / MANY {
        0 => (DedupCommand::Alloc(key), DedupReply::Key(key)),
        1 => (DedupCommand::Alloc(key), DedupReply::Key(key)),
        2 => (DedupCommand::Replace(key, MANY + key), DedupReply::Old(key)),
        3 => (DedupCommand::Put(key, 7), DedupReply::Old(MANY + key)),
        _ => (DedupCommand::Has(key), DedupReply::Has(true)),
    }
}

#[test]
fn many_commands_to_a_dedup_arena(rt: HostRuntime) {
    let mut arena = DedupArena::new(rt.alloc());
    let mut commands = Vec::new(rt.alloc());
    for turn in 0..ALL {
        commands.push(dedup_command(turn).0).expect(&rt, "");
    }
    let replies = run_dedup(rt.alloc(), &mut arena, commands).expect(&rt, "");
    for (turn, reply) in (0..ALL).zip(replies) {
        assert_equal!(rt; reply, dedup_command(turn).1, at turn);
    }
    drop(arena);
}

// Interned, interned again, found, not found, and counted.
#[test]
fn many_commands_to_an_interner(rt: HostRuntime) {
    let mut interner = StringInterner::new(rt.alloc());
    let mut commands = Vec::new(rt.alloc());
    for turn in 0..ALL {
        let text = format!(in rt.alloc(); "{}", turn % MANY + turn / MANY / 3 * MANY).expect(
            &rt, "",
        );
        let command = match turn / MANY {
            0 => InternCommand::Intern(text, InternHint::LikelyNew),
            1 => InternCommand::Intern(text, InternHint::LikelyExists),
            2 | 3 => InternCommand::Find(text),
            _ => InternCommand::Len,
        };
        commands.push(command).expect(&rt, "");
    }
    let replies = run_interner(rt.alloc(), &mut interner, commands).expect(&rt, "");
    for (turn, reply) in (0..ALL).zip(replies) {
        let symbol = Sym::from_u32(turn % MANY);
        let want = match turn / MANY {
            0 | 1 => InternReply::Sym(symbol),
            2 => InternReply::Found(Some(symbol)),
            3 => InternReply::Found(None),
            _ => InternReply::Len(30_000),
        };
        assert_equal!(rt; reply, want, at turn);
    }
    assert!(rt; interner.len() == 30_000);
    drop(interner);
}
