//! What comes to a run is dropped once: put in, kept out, taken out, refused, or not reached. What memory runs ask for.
use std::alloc::AllocError;
use std::cell::Cell;
use wasmi_collections::arena::{ArenaError, DedupArena};
use wasmi_collections::run::{
    DedupCommand, InternCommand, MapCommand, SetCommand, run_dedup, run_interner, run_map, run_set,
};
use wasmi_collections::{StringInterner, hashed, ordered};
use wasmi_vectors::assert_equal;
use wasmi_vectors::counted::Counted;
use wasmi_vectors::few_keys::FewKeys;
use wasmi_vectors::logged::Logged;
use wasmi_vectors::noted::{Noted, Notes};
use wasmi_vectors::observed::Log;

type MapCommands<'a, 'l> = Vec<MapCommand<Noted<'a>, Counted<'a>>, Logged<'l>>;

// With 28 keys and 20 values.
fn map_commands<'a, 'l>(
    heap: Logged<'l>,
    keys: &'a Notes,
    values: &'a Cell<u64>,
) -> Result<MapCommands<'a, 'l>, AllocError> {
    let mut commands = Vec::new(heap);
    for number in 0..8 {
        commands.push(MapCommand::Insert(Noted::new(number, keys), Counted::new(values)))?;
        commands.push(MapCommand::OrInsert(Noted::new(number, keys), Counted::new(values)))?;
    }
    for number in 0..4 {
        commands.push(MapCommand::Insert(Noted::new(number, keys), Counted::new(values)))?;
        commands.push(MapCommand::Remove(Noted::new(number, keys)))?;
        commands.push(MapCommand::Has(Noted::new(number, keys)))?;
    }
    Ok(commands)
}

type SetCommands<'a, 'l> = Vec<SetCommand<Noted<'a>>, Logged<'l>>;

// With 24 elements.
fn set_commands<'a, 'l>(
    heap: Logged<'l>,
    elements: &'a Notes,
) -> Result<SetCommands<'a, 'l>, AllocError> {
    let mut commands = Vec::new(heap);
    for number in 0..8 {
        commands.push(SetCommand::Insert(Noted::new(number, elements)))?;
        commands.push(SetCommand::Insert(Noted::new(number, elements)))?;
    }
    for number in 0..4 {
        commands.push(SetCommand::Remove(Noted::new(number, elements)))?;
        commands.push(SetCommand::Has(Noted::new(number, elements)))?;
    }
    Ok(commands)
}

#[test]
fn a_value_is_cloned_where_it_is_new(rt: HostRuntime) {
    let notes = Notes::new();
    let values = [1, 2, 1].map(|number| Noted::new(number, &notes));
    let arena: DedupArena<usize, Noted<'_>> = DedupArena::from_iter(rt.alloc(), values).expect(
        &rt, "",
    );
    assert_equal!(rt; (arena.len(), notes.cloned()), (2, 2));
    drop(arena);
}

// Whether a run of one of the two maps ends well, whose nth request is refused.
fn map_runs(is_hashed: bool, log: &Log, nth: u64, commands: MapCommands<'_, '_>) -> bool {
    let heap = *commands.allocator();
    log.refuse_once(nth);
    let ran = if is_hashed {
        run_map(heap, &mut hashed::Map::new(heap), commands).is_ok()
    } else {
        run_map(heap, &mut ordered::Map::new(heap), commands).is_ok()
    };
    log.refuse_none();
    ran
}

// The same of the two sets.
fn set_runs(is_hashed: bool, log: &Log, nth: u64, commands: SetCommands<'_, '_>) -> bool {
    let heap = *commands.allocator();
    log.refuse_once(nth);
    let ran = if is_hashed {
        run_set(heap, &mut hashed::Set::new(heap), commands).is_ok()
    } else {
        run_set(heap, &mut ordered::Set::new(heap), commands).is_ok()
    };
    log.refuse_none();
    ran
}

// The first request is that for the replies.
#[test]
fn runs_drop_each_key_and_value_once(rt: HostRuntime) {
    let (log, keys, values) = (Log::new(), Notes::new(), Cell::new(0u64));
    let heap = Logged::new(rt.alloc(), &log);
    for nth in 1..=5u64 {
        for is_hashed in [false, true] {
            let commands = map_commands(heap, &keys, &values).expect(&rt, "");
            let ran = map_runs(is_hashed, &log, nth, commands);
            assert_equal!(rt; ran, nth != 1, at (is_hashed, nth));
            assert_equal!(rt; (keys.dropped(), values.replace(0)), (28, 20), at (is_hashed, nth));
            let commands = set_commands(heap, &keys).expect(&rt, "");
            let ran = set_runs(is_hashed, &log, nth, commands);
            assert_equal!(rt; (ran, keys.dropped()), (nth != 1, 24), at (is_hashed, nth));
        }
    }
    assert_equal!(rt; log.amiss(), 0);
}

// How many values an arena has that is made of these, of which each request up to the nth is given memory.
fn collected(log: &Log, heap: Logged<'_>, nth: u64) -> Result<usize, ArenaError> {
    log.refuse_once(nth);
    let made: DedupArena<usize, i32, Logged<'_>> = DedupArena::from_iter(
        heap,
        [0, 1, 0, 2, 3, 4, 5],
    )?;
    let len = made.len();
    drop(made);
    Ok(len)
}

// Each request refused in turn, of which there are as many as a run without a refusal makes.
#[test]
fn a_list_that_is_refused_gives_its_memory_back(rt: HostRuntime) {
    let log = Log::new();
    let heap = Logged::new(rt.alloc(), &log);
    assert_equal!(rt; collected(&log, heap, 0), Ok(6));
    let requests = log.requests();
    assert!(rt; requests > 1);
    for nth in 1..=requests {
        assert_equal!(rt; collected(&log, heap, nth), Err(ArenaError::OutOfSystemMemory), at nth);
        assert_equal!(rt; log.amiss(), 0, at nth);
    }
}

// Whether all bytes that were asked for since there were `before` of them are those of a list of the
// replies.
fn asks_for_these<T: Drop>(
    log: &Log,
    before: u64,
    replies: &Vec<T, Logged<'_>>,
) -> Result<bool, AllocError> {
    let asked = log.bytes();
    let _list: Vec<T, Logged<'_>> = Vec::with_capacity(*replies.allocator(), replies.len())?;
    Ok(log.bytes().wrapping_sub(asked) == asked.wrapping_sub(before))
}

#[test]
fn a_run_of_an_interner_asks_for_its_replies_alone(rt: HostRuntime) {
    let log = Log::new();
    let heap = Logged::new(rt.alloc(), &log);
    let commands = (0..9).map(|_| InternCommand::Len).collect(heap);
    let (commands, before) = (commands.expect(&rt, ""), log.bytes());
    let mut interner = StringInterner::new(rt.alloc());
    let replies = run_interner(heap, &mut interner, commands);
    drop(interner);
    assert_equal!(rt; asks_for_these(&log, before, &replies.expect(&rt, "")), Ok(true));
}

#[test]
fn a_run_of_a_map_asks_for_its_replies_alone(rt: HostRuntime) {
    let log = Log::new();
    let heap = Logged::new(rt.alloc(), &log);
    let commands = (0..9).map(|_| MapCommand::<u32, i64>::Len).collect(heap);
    let (commands, before) = (commands.expect(&rt, ""), log.bytes());
    let replies = run_map(heap, &mut ordered::Map::new(rt.alloc()), commands);
    assert_equal!(rt; asks_for_these(&log, before, &replies.expect(&rt, "")), Ok(true));
}

#[test]
fn a_run_of_a_set_asks_for_its_replies_alone(rt: HostRuntime) {
    let log = Log::new();
    let heap = Logged::new(rt.alloc(), &log);
    let commands = (0..9).map(|_| SetCommand::<u32>::Len).collect(heap);
    let (commands, before) = (commands.expect(&rt, ""), log.bytes());
    let replies = run_set(heap, &mut ordered::Set::new(rt.alloc()), commands);
    assert_equal!(rt; asks_for_these(&log, before, &replies.expect(&rt, "")), Ok(true));
}

#[test]
fn a_run_of_an_arena_asks_for_its_replies_alone(rt: HostRuntime) {
    let log = Log::new();
    let heap = Logged::new(rt.alloc(), &log);
    let commands = (0..9)
        .map(|_| DedupCommand::<FewKeys<4>, i32>::Clear)
        .collect(heap);
    let (commands, before) = (commands.expect(&rt, ""), log.bytes());
    let mut arena = DedupArena::new(rt.alloc());
    let replies = run_dedup(heap, &mut arena, commands);
    drop(arena);
    assert_equal!(rt; asks_for_these(&log, before, &replies.expect(&rt, "")), Ok(true));
}

#[test]
fn a_run_of_a_set_hashes_once(rt: HostRuntime) {
    let notes = Notes::new();
    let mut set: hashed::Set<Noted<'_>> = hashed::Set::new(rt.alloc());
    let commands = (0..20u32).map(|number| SetCommand::Insert(Noted::new(number / 2, &notes)));
    let commands = commands.collect(rt.alloc()).expect(&rt, "");
    run_set(rt.alloc(), &mut set, commands).expect(&rt, "");
    assert_equal!(rt; (set.len(), notes.hashed()), (10, 20));
}

#[test]
fn a_run_of_a_map_hashes_once(rt: HostRuntime) {
    let notes = Notes::new();
    let mut map: hashed::Map<Noted<'_>, u32> = hashed::Map::new(rt.alloc());
    let commands = (0..20u32).map(|number| MapCommand::Insert(
        Noted::new(number / 2, &notes),
        number,
    ));
    let commands = commands.collect(rt.alloc()).expect(&rt, "");
    run_map(rt.alloc(), &mut map, commands).expect(&rt, "");
    assert_equal!(rt; (map.len(), notes.hashed()), (10, 20));
}

#[test]
fn a_value_without_room_is_not_cloned(rt: HostRuntime) {
    let (log, notes) = (Log::new(), Notes::new());
    let heap = Logged::new(rt.alloc(), &log);
    let mut arena: DedupArena<usize, Noted<'_>, Logged<'_>> = DedupArena::new(heap);
    log.refuse_from(1);
    let refused = arena.alloc(Noted::new(1, &notes)).err();
    assert_equal!(rt; (refused, notes.cloned()), (Some(ArenaError::OutOfSystemMemory), 0));
    drop(arena);
}
