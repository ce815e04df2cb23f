//! Each container's `{:#?}`: a line for each item; and how long the text of many items is.
use std::alloc::Global;
use std::fmt::{self, Debug, Write};
use std::process::Abort;
use wasmi_collections::arena::{
    Arena, ArenaError, ComponentVec, DedupArena, StableArena, StableVec,
};
use wasmi_collections::{HeadVec, StringInterner, hashed, ordered};
use wasmi_vectors::assert_equal;

// A writer that fails after so many bytes.
#[derive(Drop)]
struct Short {
    room: usize,
}

impl Write for Short {
    fn write_str(&mut self, text: &str) -> fmt::Result {
        self.room = self.room.checked_sub(text.len()).ok_or(fmt::Error)?;
        Ok(())
    }
}

// Checks the text of a container, and that a writer that fails is heard of.
fn prints<T: Debug>(rt: &impl Abort, alloc: Global, container: &T, want: &str) {
    let text = format!(in alloc; "{container:#?}").expect(rt, "");
    assert_equal!(*rt; text.as_str(), want);
    for room in 0..text.len() {
        let failed = write!(Short { room }, "{container:#?}").is_err();
        assert_equal!(*rt; failed, true, at (want, room));
    }
}

// The texts of a list, of a set and of entries.
const LIST: &str = "[\n    7,\n]";

const SET: &str = "{\n    7,\n}";

const ENTRIES: &str = "{\n    0: 7,\n}";

// Each container, of one item.
fn stable_arena(rt: &impl Abort, alloc: Global) {
    let made: StableArena<usize, i32> = StableArena::from_iter(alloc, [7]).expect(rt, "");
    prints(rt, alloc, &made, ENTRIES);
    drop(made);
}

fn arena(rt: &impl Abort, alloc: Global) {
    let made: Arena<usize, i32> = Arena::from_iter(alloc, [7]).expect(rt, "");
    prints(rt, alloc, &made, ENTRIES);
}

fn dedup_arena(rt: &impl Abort, alloc: Global) {
    let made: DedupArena<usize, i32> = DedupArena::from_iter(alloc, [7]).expect(rt, "");
    prints(rt, alloc, &made, ENTRIES);
    drop(made);
}

fn component_vec(rt: &impl Abort, alloc: Global) {
    let mut components: ComponentVec<usize, i32> = ComponentVec::new(alloc);
    components.set(0, 7).expect(rt, "");
    let text = "ComponentVec {\n    components: {\n        0: 7,\n    },\n}";
    prints(rt, alloc, &components, text);
}

fn string_interner(rt: &impl Abort, alloc: Global) {
    let mut names = StringInterner::new(alloc);
    names.get_or_intern("x").expect(rt, "");
    prints(rt, alloc, &names, "[\n    \"x\",\n]");
    drop(names);
}

#[test]
fn arenas_print_a_line_for_each_item(rt: HostRuntime) {
    let alloc = rt.alloc();
    stable_arena(&rt, alloc);
    arena(&rt, alloc);
    dedup_arena(&rt, alloc);
    component_vec(&rt, alloc);
    string_interner(&rt, alloc);
}

fn stable_vec(rt: &impl Abort, alloc: Global) {
    let made: StableVec<i32> = StableVec::from_iter(alloc, [7]).expect(rt, "");
    prints(rt, alloc, &made, LIST);
    drop(made);
}

fn head_vec(rt: &impl Abort, alloc: Global) {
    let mut items = HeadVec::new(alloc);
    items.push(7).expect(rt, "");
    prints(rt, alloc, &items, LIST);
}

fn ordered_set(rt: &impl Abort, alloc: Global) {
    let made: ordered::Set<i32> = ordered::Set::from_iter(alloc, [7]).expect(rt, "");
    prints(rt, alloc, &made, SET);
}

fn hashed_set(rt: &impl Abort, alloc: Global) {
    let made: hashed::Set<i32> = hashed::Set::from_iter(alloc, [7]).expect(rt, "");
    prints(rt, alloc, &made, SET);
}

fn ordered_map(rt: &impl Abort, alloc: Global) {
    let made: ordered::Map<i32, i32> = ordered::Map::from_iter(alloc, [(0, 7)]).expect(rt, "");
    prints(rt, alloc, &made, ENTRIES);
}

fn hashed_map(rt: &impl Abort, alloc: Global) {
    let made: hashed::Map<i32, i32> = hashed::Map::from_iter(alloc, [(0, 7)]).expect(rt, "");
    prints(rt, alloc, &made, ENTRIES);
}

#[test]
fn lists_maps_and_sets_print_a_line_for_each_item(rt: HostRuntime) {
    let alloc = rt.alloc();
    stable_vec(&rt, alloc);
    head_vec(&rt, alloc);
    ordered_set(&rt, alloc);
    hashed_set(&rt, alloc);
    ordered_map(&rt, alloc);
    hashed_map(&rt, alloc);
}

// A writer that tells how much was written.
#[derive(Drop)]
struct Length {
    bytes: usize,
}

impl Write for Length {
    fn write_str(&mut self, text: &str) -> fmt::Result {
        self.bytes = self.bytes.wrapping_add(text.len());
        Ok(())
    }
}

// How many bytes the text of a container has.
fn len_of<T: Debug>(container: &T) -> usize {
    let mut length = Length { bytes: 0 };
    let _ = write!(length, "{container:?}");
    length.bytes
}

// How many bytes the text of each container has, whose items 0 to 99,999 are their own keys.
fn bytes_of_arena(alloc: Global) -> Result<usize, ArenaError> {
    let arena: DedupArena<usize, usize> = DedupArena::from_iter(alloc, 0..100_000)?;
    let bytes = len_of(&arena);
    drop(arena);
    Ok(bytes)
}

fn bytes_of_components(alloc: Global) -> Result<usize, ArenaError> {
    let mut components: ComponentVec<usize, usize> = ComponentVec::new(alloc);
    for number in 0..100_000usize {
        components.set(number, number)?;
    }
    Ok(len_of(&components))
}

fn bytes_of_list(alloc: Global) -> Result<usize, ArenaError> {
    let mut list = HeadVec::new(alloc);
    for number in 0..100_000usize {
        list.push(number)?;
    }
    Ok(len_of(&list))
}

// Interns the numbers, and tells how many bytes the text has then.
fn bytes_with_numbers(alloc: Global, names: &mut StringInterner) -> Result<usize, ArenaError> {
    for number in 0..100_000usize {
        let name = format!(in alloc; "{number}")?;
        names.get_or_intern(name.as_str())?;
    }
    Ok(len_of(names))
}

fn bytes_of_names(alloc: Global) -> Result<usize, ArenaError> {
    let mut names = StringInterner::new(alloc);
    let bytes = bytes_with_numbers(alloc, &mut names);
    drop(names);
    bytes
}

#[test]
fn all_of_many_items_are_printed(rt: HostRuntime) {
    const ITEMS: usize = 688_890;
    const PAIRS: usize = 1_377_780;
    let alloc = rt.alloc();
    assert_equal!(rt; bytes_of_arena(alloc), Ok(PAIRS));
    assert_equal!(rt; bytes_of_components(alloc), Ok(PAIRS + 29));
    assert_equal!(rt; bytes_of_list(alloc), Ok(ITEMS));
    assert_equal!(rt; bytes_of_names(alloc), Ok(ITEMS + 200_000));
}
