//! Lists of commands to maps and sets of both backings.
use std::alloc::{AllocError, Global};
use std::process::Abort;
use wasmi_collections::arena::ArenaError;
use wasmi_collections::hash::{FixedState, RandomState};
use wasmi_collections::run::{
    AnyMap, AnySet, MapCommand, MapReply, SetCommand, SetReply, run_map, run_set,
};
use wasmi_collections::{hashed, ordered};
use wasmi_vectors::assert_equal;
use wasmi_vectors::logged::Logged;
use wasmi_vectors::observed::Log;

fn map_commands(alloc: Global) -> Result<Vec<MapCommand<u32, &'static str>>, AllocError> {
    let commands = Vec::from_array(
        alloc,
        [
            MapCommand::Insert(1, "a"),
            MapCommand::OrInsert(1, "b"),
            MapCommand::OrInsert(2, "c"),
            MapCommand::Insert(1, "d"),
            MapCommand::Has(2),
            MapCommand::Remove(2),
            MapCommand::Remove(2),
            MapCommand::Len,
            MapCommand::Clear,
            MapCommand::Len,
        ],
    )?;
    Ok(commands)
}

const MAP_REPLIES: [MapReply<&'static str>; 10] = [
    MapReply::Old(None),
    MapReply::Has(true),
    MapReply::Has(false),
    MapReply::Old(Some("a")),
    MapReply::Has(true),
    MapReply::Old(Some("c")),
    MapReply::Old(None),
    MapReply::Len(1),
    MapReply::Done,
    MapReply::Len(0),
];

// The replies of a map.
fn map_replies<M: AnyMap<u32, &'static str>>(rt: &impl Abort, alloc: Global, map: &mut M) {
    let commands = map_commands(alloc).expect(rt, "");
    let replies = run_map(alloc, map, commands).expect(rt, "");
    assert_equal!(*rt; (replies.as_slice(), map.len()), (MAP_REPLIES.as_slice(), 0));
}

#[test]
fn maps_reply_as_the_table_says(rt: HostRuntime) {
    let state = RandomState::new(&rt).expect(&rt, "");
    map_replies(&rt, rt.alloc(), &mut ordered::Map::new(rt.alloc()));
    map_replies(&rt, rt.alloc(), &mut hashed::Map::new(rt.alloc()));
    map_replies(
        &rt,
        rt.alloc(),
        &mut hashed::Map::with_hasher(rt.alloc(), state),
    );
}

fn set_commands(alloc: Global) -> Result<Vec<SetCommand<u32>>, AllocError> {
    let commands = Vec::from_array(
        alloc,
        [
            SetCommand::Insert(3),
            SetCommand::Insert(3),
            SetCommand::Has(3),
            SetCommand::Remove(3),
            SetCommand::Remove(3),
            SetCommand::Len,
            SetCommand::Insert(4),
            SetCommand::Clear,
            SetCommand::Has(4),
        ],
    )?;
    Ok(commands)
}

const SET_REPLIES: [SetReply; 9] = [
    SetReply::Flag(true),
    SetReply::Flag(false),
    SetReply::Flag(true),
    SetReply::Flag(true),
    SetReply::Flag(false),
    SetReply::Len(0),
    SetReply::Flag(true),
    SetReply::Done,
    SetReply::Flag(false),
];

// The replies of a set.
fn set_replies<S: AnySet<u32>>(rt: &impl Abort, alloc: Global, set: &mut S) {
    let commands = set_commands(alloc).expect(rt, "");
    let replies = run_set(alloc, set, commands).expect(rt, "");
    assert_equal!(*rt; replies.as_slice(), SET_REPLIES.as_slice());
}

#[test]
fn sets_reply_as_the_table_says(rt: HostRuntime) {
    let state = RandomState::new(&rt).expect(&rt, "");
    set_replies(&rt, rt.alloc(), &mut ordered::Set::new(rt.alloc()));
    set_replies(&rt, rt.alloc(), &mut hashed::Set::new(rt.alloc()));
    set_replies(
        &rt,
        rt.alloc(),
        &mut hashed::Set::with_hasher(rt.alloc(), state),
    );
}

// To insert the keys 0 to 27, by both commands for it in turn.
fn inserts<'l>(heap: Logged<'l>) -> Result<Vec<MapCommand<u32, u32>, Logged<'l>>, AllocError> {
    let mut commands = Vec::with_capacity(heap, 28)?;
    for key in 0..28u32 {
        let command = match key % 2 {
            0 => MapCommand::Insert(key, key),
            _ => MapCommand::OrInsert(key, key),
        };
        commands.push(command)?;
    }
    Ok(commands)
}

// Runs them, with the nth request for memory refused; once more, if that fails and no command ran. Whether it failed,
// and the replies.
fn run_inserts<'l, M: AnyMap<u32, u32>>(
    heap: Logged<'l>,
    log: &Log,
    map: &mut M,
    nth: u64,
) -> Result<(bool, Vec<MapReply<u32>, Logged<'l>>), ArenaError> {
    let commands = inserts(heap)?;
    log.refuse_once(nth);
    match run_map(heap, map, commands) {
        Ok(replies) => Ok((false, replies)),
        Err(ArenaError::OutOfSystemMemory) if map.len() == 0 => {
            Ok((true, run_map(heap, map, inserts(heap)?)?))
        }
        Err(error) => Err(error),
    }
}

// How many commands were refused, whose keys are then inserted by calls; `None` if the map doesn't have the keys of
// the others alone.
fn refused_of_map<M: AnyMap<u32, u32>>(
    map: &mut M,
    replies: &[MapReply<u32>],
) -> Result<Option<usize>, ArenaError> {
    let mut refused = 0usize;
    for (key, reply) in (0..28u32).zip(replies) {
        let is_in = match reply {
            MapReply::Old(None) | MapReply::Has(false) => true,
            MapReply::Refused(ArenaError::OutOfSystemMemory) => false,
            _ => return Ok(None),
        };
        if map.has(&key) != is_in {
            return Ok(None);
        }
        if !is_in {
            refused = refused.saturating_add(1);
            let _none = map.insert(key, key)?;
        }
    }
    Ok(Some(refused))
}

// Whether all keys are there, which needs no memory, and none is asked for.
fn are_all_there<M: AnyMap<u32, u32>>(log: &Log, map: &mut M) -> Result<bool, ArenaError> {
    let asked = log.requests();
    log.refuse_from(1);
    for key in 0..28u32 {
        if map.insert(key, key)? != Some(key) || !map.or_insert(key, 0)? {
            return Ok(false);
        }
    }
    log.refuse_none();
    Ok(log.requests() == asked)
}

// Inserts them by a run whose nth request for memory is refused; by another one, if it fails and no command ran;
// and then by calls. Whether it failed, and how many commands were refused; `None` if the map doesn't have the keys
// of the others after it, or all at last.
fn refused_in_map<M: AnyMap<u32, u32>>(
    heap: Logged<'_>,
    log: &Log,
    map: &mut M,
    nth: u64,
) -> Result<Option<(bool, usize)>, ArenaError> {
    let (failed, replies) = run_inserts(heap, log, map, nth)?;
    let Some(refused) = refused_of_map(map, replies.as_slice())? else {
        return Ok(None);
    };
    if !are_all_there(log, map)? {
        return Ok(None);
    }
    Ok((map.len() == 28 && replies.len() == 28).then_some((failed, refused)))
}

// The same of the elements of a set.
fn adds<'l>(heap: Logged<'l>) -> Result<Vec<SetCommand<u32>, Logged<'l>>, AllocError> {
    let mut commands = Vec::with_capacity(heap, 28)?;
    for element in 0..28u32 {
        commands.push(SetCommand::Insert(element))?;
    }
    Ok(commands)
}

fn run_adds<'l, S: AnySet<u32>>(
    heap: Logged<'l>,
    log: &Log,
    set: &mut S,
    nth: u64,
) -> Result<(bool, Vec<SetReply, Logged<'l>>), ArenaError> {
    let (commands, again) = (adds(heap)?, adds(heap)?);
    log.refuse_once(nth);
    match run_set(heap, set, commands) {
        Ok(replies) => Ok((false, replies)),
        Err(ArenaError::OutOfSystemMemory) if set.len() == 0 => Ok((
            true,
            run_set(heap, set, again)?,
        )),
        Err(error) => Err(error),
    }
}

fn refused_of_set<S: AnySet<u32>>(
    set: &mut S,
    replies: &[SetReply],
) -> Result<Option<usize>, ArenaError> {
    let mut refused = 0usize;
    for (element, reply) in (0..28u32).zip(replies) {
        let is_in = match reply {
            SetReply::Flag(true) => true,
            SetReply::Refused(ArenaError::OutOfSystemMemory) => false,
            _ => return Ok(None),
        };
        if set.has(&element) != is_in {
            return Ok(None);
        }
        if !is_in {
            refused = refused.saturating_add(1);
            let _new = set.insert(element)?;
        }
    }
    Ok(Some(refused))
}

fn refused_in_set<S: AnySet<u32>>(
    heap: Logged<'_>,
    log: &Log,
    set: &mut S,
    nth: u64,
) -> Result<Option<(bool, usize)>, ArenaError> {
    let (failed, replies) = run_adds(heap, log, set, nth)?;
    let Some(refused) = refused_of_set(set, replies.as_slice())? else {
        return Ok(None);
    };
    Ok((set.len() == 28 && replies.len() == 28).then_some((failed, refused)))
}

// The same of each container in turn, of the four in this order.
fn refused_in(
    heap: Logged<'_>,
    log: &Log,
    container: u8,
    nth: u64,
) -> Result<Option<(bool, usize)>, ArenaError> {
    match container {
        0 => refused_in_map(heap, log, &mut ordered::Map::new(heap), nth),
        1 => refused_in_map(heap, log, &mut hashed::Map::new(heap), nth),
        2 => refused_in_set(heap, log, &mut ordered::Set::new(heap), nth),
        _ => refused_in_set(heap, log, &mut hashed::Set::new(heap), nth),
    }
}

// The first request is that for the replies. A run whose request is refused later goes on.
#[test]
fn runs_over_maps_and_sets_go_on_after_a_refusal(rt: HostRuntime) {
    for nth in 1..=4u64 {
        let outcome = Ok(Some(if nth == 1 { (true, 0) } else { (false, 1) }));
        for container in 0..4u8 {
            let log = Log::new();
            let refused = refused_in(Logged::new(rt.alloc(), &log), &log, container, nth);
            assert_equal!(rt; refused, outcome, at (container, nth));
            assert_equal!(rt; log.amiss(), 0);
        }
    }
}

// Whether there is room for one more isn't asked where the key is there.
#[test]
fn a_full_hashed_map_stays_as_it_is(rt: HostRuntime) {
    let log = Log::new();
    let mut map = hashed::Map::new(Logged::new(rt.alloc(), &log));
    map.reserve(100).expect(&rt, "");
    let room = map.capacity();
    for key in 0..room {
        assert_equal!(rt; map.insert(key, key), Ok(None));
    }
    let asked = log.requests();
    assert_equal!(rt; (map.or_insert(0, 1), map.capacity()), (Ok(true), room));
    assert_equal!(rt; log.requests(), asked);
}

// How many of 1,000 keys a run leaves that removes them from a hashed map, and how many requests it makes.
fn removed_from_map(alloc: Global) -> Result<(usize, u64), ArenaError> {
    let log = Log::new();
    let heap = Logged::new(alloc, &log);
    let mut map: hashed::Map<u32, u32, FixedState, Logged<'_>> = hashed::Map::new(heap);
    let mut commands = Vec::new(alloc);
    for key in 0..1_000u32 {
        map.insert(key, key)?;
        commands.push(MapCommand::Remove(key))?;
    }
    let asked = log.requests();
    run_map(alloc, &mut map, commands)?;
    Ok((map.len(), log.requests().wrapping_sub(asked)))
}

// The same of a hashed set.
fn removed_from_set(alloc: Global) -> Result<(usize, u64), ArenaError> {
    let log = Log::new();
    let heap = Logged::new(alloc, &log);
    let mut set: hashed::Set<u32, FixedState, Logged<'_>> = hashed::Set::new(heap);
    let mut commands = Vec::new(alloc);
    for element in 0..1_000u32 {
        set.insert(element)?;
        commands.push(SetCommand::Remove(element))?;
    }
    let asked = log.requests();
    run_set(alloc, &mut set, commands)?;
    Ok((set.len(), log.requests().wrapping_sub(asked)))
}

// What is taken out leaves its room to what comes.
#[test]
fn a_removal_asks_for_no_memory(rt: HostRuntime) {
    assert_equal!(rt; removed_from_map(rt.alloc()), Ok((0, 0)));
    assert_equal!(rt; removed_from_set(rt.alloc()), Ok((0, 0)));
}
