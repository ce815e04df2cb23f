//! Memory: each request refused in turn, of the store and of a script, and what asks for none.
use wasmi_arena::{ArenaError, ArenaKey};
use wasmi_script_lib::{EntityKey, EntityStore, ScriptError, answer, run};
use wasmi_vectors::assert_equal;
use wasmi_vectors::logged::Logged;
use wasmi_vectors::observed::{Log, Observed};
use wasmi_vectors::streams::Trickle;

type Store<'a, 'l> = EntityStore<&'a Observed<'l>>;

const ENTITIES: [(&str, &str); 2] = [("ann", "user"), ("bob", "group")];

const SCRIPT: &str =
    "a xyz\ng 0\np 33\nd xyz\ni xyz\nr 0\ne ann user\nv 0 7\nk 0 admin\nq 0\nn\nz\n";

const REPLIES: &str =
    "key 0\ntext xyz\nplace 1 1\nkey 0\nsym 0\ntext xyz\nentity 0\nwas none\ndone\n\
    is 7 ann admin\ncounts 1 1 1 32\nbad line 12\n";

fn key(number: usize) -> Result<EntityKey, ArenaError> {
    EntityKey::from_usize(number).ok_or(ArenaError::KeyOutOfBounds)
}

// Adds these two.
fn add_entities(store: &mut Store<'_, '_>) -> Result<(), ArenaError> {
    for (name, kind) in ENTITIES {
        let _key = store.add(name, kind)?;
    }
    Ok(())
}

// Whether a store has the first so many of these entities, and no other.
fn has_first(store: &Store<'_, '_>, len: usize) -> Result<bool, ArenaError> {
    for (number, entity) in ENTITIES.iter().take(len).enumerate() {
        let (name, kind, property) = store.get(key(number)?)?;
        if (name, kind) != *entity || property.is_some() {
            return Ok(false);
        }
    }
    Ok(store.len() == len)
}

// Adds these entities, each once more where it was refused and the store is as before; how many were.
fn refused_entities(store: &mut Store<'_, '_>) -> Result<u64, ArenaError> {
    let mut refused = 0u64;
    for (number, (name, kind)) in ENTITIES.iter().enumerate() {
        if let Err(error) = store.add(*name, *kind) {
            if error != ArenaError::OutOfSystemMemory || !has_first(store, number)? {
                return Err(ArenaError::DuplicateItem);
            }
            refused = refused.wrapping_add(1);
            let _key = store.add(*name, *kind)?;
        }
    }
    Ok(refused)
}

// The name and the kind may be there after an error, and are no hindrance to the next call.
#[test]
fn an_entity_that_was_refused_is_added_again(rt: HostRuntime) {
    let mut refused = 0u64;
    let mut requests = 0;
    for nth in 1..20 {
        let log = Log::new();
        {
            let heap = Observed::new(rt.alloc(), &log);
            let mut store = EntityStore::new(&heap);
            log.refuse_once(nth);
            refused = refused.wrapping_add(refused_entities(&mut store).expect(&rt, ""));
            assert_equal!(rt; (has_first(&store, 2), store.names(), store.kinds()), (Ok(true), 2, 2), at nth);
            requests = log.requests();
            drop(store);
        }
        assert_equal!(rt; log.amiss(), 0);
    }
    // Slots for the names were refused without an error.
    assert_equal!(rt; (refused, requests), (12, 13));
}

// Renames a kind, and once more where it was refused and the store is as before; whether it was.
fn was_refused_a_name(store: &mut Store<'_, '_>) -> Result<bool, ArenaError> {
    let bob = key(1)?;
    let Err(error) = store.rename_kind(bob, "admin") else {
        return Ok(false);
    };
    if error != ArenaError::OutOfSystemMemory || !has_first(store, 2)? {
        return Err(ArenaError::DuplicateItem);
    }
    store.rename_kind(bob, "admin")?;
    Ok(true)
}

// After an error nothing has changed.
#[test]
fn a_kind_that_was_refused_a_name_is_renamed_again(rt: HostRuntime) {
    let mut refused = 0u64;
    for nth in 1..8 {
        let log = Log::new();
        {
            let heap = Observed::new(rt.alloc(), &log);
            let mut store = EntityStore::new(&heap);
            add_entities(&mut store).expect(&rt, "");
            log.refuse_once(nth);
            if was_refused_a_name(&mut store).expect(&rt, "") {
                refused = refused.wrapping_add(1);
            }
            let bob = key(1).expect(&rt, "");
            assert_equal!(rt; (store.get(bob).expect(&rt, "").1, store.names(), store.kinds()), ("admin", 2, 2));
            drop(store);
        }
        assert_equal!(rt; log.amiss(), 0);
    }
    // The two copies of the name, and no other.
    assert_equal!(rt; refused, 2);
}

// A name or a kind that is there isn't copied, and a property that is there gives its place to the next.
fn goes_on_without_memory(store: &mut Store<'_, '_>) -> Result<(), ArenaError> {
    let (ann, third) = (key(0)?, store.add("ann", "group")?);
    let replaced = store.set(ann, 2)?;
    let renamed = store.rename_kind(ann, "user");
    let refused = store.rename_kind(ann, "group");
    let taken = store.unset(ann)?;
    if (third.into_usize(), replaced, taken) == (2, Some(1), Some(2))
        && (renamed, refused) == (Ok(()), Err(ArenaError::DuplicateItem))
    {
        return Ok(());
    }
    Err(ArenaError::KeyOutOfBounds)
}

#[test]
fn what_is_there_needs_no_memory(rt: HostRuntime) {
    let log = Log::new();
    {
        let heap = Observed::new(rt.alloc(), &log);
        let empty = EntityStore::new(&heap);
        assert_equal!(rt; (empty.len(), log.requests()), (0, 0));
        drop(empty);
        let mut store = EntityStore::new(&heap);
        add_entities(&mut store).expect(&rt, "");
        let ann = key(0).expect(&rt, "");
        assert_equal!(rt; store.set(ann, 1), Ok(None));
        let asked = log.requests();
        log.refuse_from(1);
        assert_equal!(rt; (goes_on_without_memory(&mut store), log.requests()), (Ok(()), asked));
        drop(store);
    }
    assert_equal!(rt; log.amiss(), 0);
}

// Nothing is made before a line asks for it.
#[test]
fn a_script_without_lines_needs_no_memory(rt: HostRuntime) {
    let log = Log::new();
    let heap = Observed::new(rt.alloc(), &log);
    log.refuse_from(1);
    assert_equal!(rt; answer(&heap, "").expect(&rt, "").as_str(), "");
}

// The replies double their block, and so do the buckets of entities. A text that is there is not copied.
#[test]
fn lines_of_texts_that_are_there_ask_for_their_replies_alone(rt: HostRuntime) {
    for line in ["d a text\n", "i a text\n", "e name kind\n"] {
        let script = line.repeat(rt.alloc(), 1000).expect(&rt, "");
        let log = Log::new();
        let heap = Observed::new(rt.alloc(), &log);
        let replies = answer(&heap, script.as_str()).expect(&rt, "");
        assert_equal!(rt; replies.lines().count(), 1000);
        assert!(rt; log.requests() < 40, "{line}: {}", log.requests());
    }
}

// One request for each text, each copy, each container and its growths, and for the replies as they grow.
#[test]
fn a_script_that_is_refused_memory_fails(rt: HostRuntime) {
    let mut refused = 0u64;
    let mut requests = 0;
    for nth in 1..60 {
        let log = Log::new();
        {
            let heap = Observed::new(rt.alloc(), &log);
            log.refuse_once(nth);
            match answer(&heap, SCRIPT) {
                Ok(replies) => assert_equal!(rt; replies.as_str(), REPLIES),
                Err(error) => {
                    refused = refused.wrapping_add(1);
                    assert_equal!(rt; error, ArenaError::OutOfSystemMemory);
                }
            }
            requests = log.requests();
        }
        assert_equal!(rt; log.amiss(), 0);
    }
    // Slots for names and for texts were refused without an error.
    assert_equal!(rt; (refused, requests), (29, 31));
}

#[test]
fn a_program_that_is_refused_memory_writes_nothing(rt: HostRuntime) {
    let mut refused = 0u64;
    let mut requests = 0;
    for nth in 1..60 {
        let log = Log::new();
        {
            let heap = Observed::new(rt.alloc(), &log);
            let mut input = SCRIPT.as_bytes();
            let mut output = Vec::new(rt.alloc());
            log.refuse_once(nth);
            let wanted = match run(&heap, &mut input, &mut output) {
                Ok(()) => REPLIES,
                Err(error) => {
                    refused = refused.wrapping_add(1);
                    assert_equal!(rt; error, ScriptError::NoMemory);
                    ""
                }
            };
            assert_equal!(rt; output.as_slice(), wanted.as_bytes());
            requests = log.requests();
        }
        assert_equal!(rt; log.amiss(), 0);
    }
    // One for the input, and those of `answer`.
    assert_equal!(rt; (refused, requests), (30, 32));
}

// A line of a thousand bytes: the input doubles its block, and the reply is short.
#[test]
fn bytes_that_come_one_by_one_ask_for_few_blocks(rt: HostRuntime) {
    let log = Log::new();
    let mut output = Vec::new(rt.alloc());
    let mut input = Trickle { left: 1_000 };
    assert_equal!(rt; run(Logged::new(rt.alloc(), &log), &mut input, &mut output), Ok(()));
    assert_equal!(rt; output.as_slice(), b"bad line 1\n".as_slice());
    assert!(rt; log.requests() < 20);
}
