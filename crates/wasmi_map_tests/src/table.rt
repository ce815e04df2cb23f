//! Calls on maps and sets of either backing, as data: a test is a table of calls beside their answers.
use std::cell::Cell;
use std::hash::BuildHasher;
use std::mem;
use wasmi_arena::ArenaError;
use wasmi_hashed::hash::FixedState;
use wasmi_hashed::{Set as HashSet, map as hashed};
use wasmi_ordered::{Set as TreeSet, map as ordered};
use wasmi_vectors::observed::Observed;

/// A call. Of a set, the key is an element, and the value isn't read.
#[derive(Clone, Copy, Debug, PartialEq)]
pub enum Call {
    Insert,
    TryInsert,
    Replace,
    Get,
    GetMut,
    GetKeyValue,
    Index,
    Contains,
    Remove,
    RemoveEntry,
    Take,
    Len,
    IsEmpty,
    Clear,
    Reserve,
    Retain,
    Extend,
    ExtendRef,
    EntryKey,
    OrInsert,
    OrInsertWith,
    OrInsertWithKey,
    OrDefault,
    AndModify,
    OccupiedKey,
    OccupiedGet,
    OccupiedGetMut,
    OccupiedInsert,
    OccupiedIntoMut,
    OccupiedRemove,
    OccupiedRemoveEntry,
    VacantKey,
    VacantIntoKey,
    VacantInsert,
    /// How often closures were called, and items drawn, since this was asked for last.
    Counted,
}

/// A call that makes a table of one or of two.
#[derive(Clone, Copy, Debug)]
pub enum Make {
    Clone,
    FromIter,
    And,
    Or,
    Xor,
    Sub,
}

#[derive(Clone, Copy, Debug, PartialEq)]
pub enum Answer {
    Done,
    Truth(bool),
    Number(u64),
    Item(Option<u32>),
    Pair(Option<(u32, u32)>),
    /// The entry is on the other side, or there is no such call.
    Other,
}

pub use Answer::{Done, Item, Number, Other, Pair, Truth};

/// What a call returns.
pub type Asked<T> = Result<T, ArenaError>;

/// What calls are handed beside a key and a value.
#[derive(Drop)]
pub struct More<'m> {
    keys: &'m [u32],
    count: Cell<u64>,
    // Of the keys that `retain` went over: their sum, whether each was above those before, and the least that is.
    sum: Cell<u64>,
    ascends: Cell<bool>,
    least: Cell<u64>,
}

impl<'m> More<'m> {
    /// The keys are for calls that take many, each under itself.
    pub fn new(keys: &'m [u32]) -> More<'m> {
        More {
            keys,
            count: Cell::new(0),
            sum: Cell::new(0),
            ascends: Cell::new(true),
            least: Cell::new(0),
        }
    }

    /// How often closures were called, and items drawn, since it was asked for last.
    pub fn counted(&self) -> u64 {
        self.count.replace(0)
    }

    /// The sum of the keys that `retain` went over, and whether these ascended.
    pub fn visited(&self) -> (u64, bool) {
        (self.sum.get(), self.ascends.get())
    }

    // Notes a key that `retain` comes to.
    fn visit(&self, key: u32) {
        let key = u64::from(self.count(key));
        self.sum.set(self.sum.get().wrapping_add(key));
        self.ascends
            .set(self.ascends.get() && self.least.get() <= key);
        self.least.set(key.wrapping_add(1));
    }

    // Counts, and hands the item on.
    fn count<T>(&self, item: T) -> T {
        self.count.set(self.count.get().wrapping_add(1));
        item
    }
}

/// A map or a set.
pub trait Table: Sized + Drop {
    /// Makes a call.
    fn ask(&mut self, call: Call, key: u32, value: u32, more: &More<'_>) -> Asked<Answer>;
}

/// One that is made without a state.
pub trait Made<'l>: Table {
    fn empty(heap: Observed<'l>) -> Self;

    fn make(&self, other: &Self, heap: Observed<'l>, make: Make, more: &More<'_>) -> Asked<Self>;
}

// The value behind a reference.
fn read(value: Result<&mut u32, ArenaError>) -> Asked<Answer> {
    match value {
        Ok(value) => Ok(Item(Some(*value))),
        Err(error) => Err(error),
    }
}

macro_rules! ask_map {
    ($map:ident, $call:ident, $key:ident, $value:ident, $more:ident, $ask_entry:ident) => {{
        Ok(match $call {
            Call::Insert => Item($map.insert($key, $value)?),
            Call::TryInsert => Item($map.try_insert($key, $value)?.err()),
            Call::Get => Item($map.get(&$key).copied()),
            Call::GetMut => Item(match $map.get_mut(&$key) {
                Some(value) => Some(mem::replace(value, $value)),
                None => None,
            }),
            Call::GetKeyValue => Pair(match $map.get_key_value(&$key) {
                Some((key, value)) => Some((*key, *value)),
                None => None,
            }),
            Call::Index if $map.contains_key(&$key) => Item(Some($map[&$key])),
            Call::Contains => Truth($map.contains_key(&$key)),
            Call::Remove => Item($map.remove(&$key)),
            Call::RemoveEntry => Pair($map.remove_entry(&$key)),
            Call::Len => Number($map.len() as u64),
            Call::IsEmpty => Truth($map.is_empty()),
            Call::Clear => {
                $map.clear();
                Done
            }
            Call::Reserve => {
                $map.reserve($value as usize)?;
                Done
            }
            Call::Retain => {
                $map.retain(|key, value| {
                    *value = value.wrapping_add($value);
                    $more.visit(*key);
                    *key != $key
                });
                Done
            }
            Call::Extend => {
                $map.extend($more.keys.iter().map(|key| $more.count((*key, *key))))?;
                Done
            }
            Call::ExtendRef => {
                $map.extend_ref($more.keys.iter().map(|key| $more.count((key, key))))?;
                Done
            }
            Call::Counted => Number($more.counted()),
            Call::Index | Call::Replace | Call::Take => Other,
            call => return $ask_entry($map, call, $key, $value, $more),
        })
    }};
}

macro_rules! ask_entry {
    ($map:ident, $backing:ident, $call:ident, $key:ident, $value:ident, $more:ident) => {{
        let entry = match $map.entry($key) {
            Ok(entry) => entry,
            Err(error) => return Err(error),
        };
        match $call {
            Call::EntryKey => Ok(Item(Some(*entry.key()))),
            Call::OrInsert => read(entry.or_insert($value)),
            Call::OrInsertWith => read(entry.or_insert_with(|| $more.count($value))),
            Call::OrInsertWithKey => read(entry.or_insert_with_key(|key| $more.count(*key))),
            Call::OrDefault => read(entry.or_default()),
            Call::AndModify => {
                let entry = entry.and_modify(|value| *value = $more.count($value));
                Ok(Item(Some(*entry.key())))
            }
            call => match entry {
                $backing::Entry::Occupied(mut entry) => Ok(Item(Some(match call {
                    Call::OccupiedKey => *entry.key(),
                    Call::OccupiedGet => *entry.get(),
                    Call::OccupiedGetMut => mem::replace(entry.get_mut(), $value),
                    Call::OccupiedInsert => entry.insert($value),
                    Call::OccupiedIntoMut => mem::replace(entry.into_mut(), $value),
                    Call::OccupiedRemove => entry.remove(),
                    Call::OccupiedRemoveEntry => return Ok(Pair(Some(entry.remove_entry()))),
                    _ => return Ok(Other),
                }))),
                $backing::Entry::Vacant(entry) => match call {
                    Call::VacantKey => Ok(Item(Some(*entry.key()))),
                    Call::VacantIntoKey => Ok(Item(Some(entry.into_key()))),
                    Call::VacantInsert => read(entry.insert($value)),
                    _ => Ok(Other),
                },
            },
        }
    }};
}

macro_rules! ask_set {
    ($set:ident, $call:ident, $key:ident, $value:ident, $more:ident) => {{
        Ok(match $call {
            Call::Insert => Truth($set.insert($key)?),
            Call::Replace => Item($set.replace($key)?),
            Call::Get => Item($set.get(&$key).copied()),
            Call::Contains => Truth($set.contains(&$key)),
            Call::Remove => Truth($set.remove(&$key)),
            Call::Take => Item($set.take(&$key)),
            Call::Len => Number($set.len() as u64),
            Call::IsEmpty => Truth($set.is_empty()),
            Call::Clear => {
                $set.clear();
                Done
            }
            Call::Reserve => {
                $set.reserve($value as usize)?;
                Done
            }
            Call::Retain => {
                $set.retain(|element| {
                    $more.visit(*element);
                    *element != $key
                });
                Done
            }
            Call::Extend => {
                $set.extend($more.keys.iter().map(|key| $more.count(*key)))?;
                Done
            }
            Call::ExtendRef => {
                $set.extend_ref($more.keys.iter().map(|key| $more.count(key)))?;
                Done
            }
            Call::Counted => Number($more.counted()),
            _ => Other,
        })
    }};
}

// A map has none of the operators.
macro_rules! make_map {
    ($map:ident, $heap:ident, $make:ident, $more:ident) => {
        match $make {
            Make::FromIter => {
                Self::from_iter($heap, $more.keys.iter().map(|key| $more.count((*key, *key))))
            }
            _ => $map.clone(),
        }
    };
}

macro_rules! make_set {
    ($set:ident, $other:ident, $heap:ident, $make:ident, $more:ident) => {
        match $make {
            Make::Clone => $set.clone(),
            Make::FromIter => Self::from_iter($heap, $more.keys.iter().map(|key| $more.count(*key))),
            Make::And => $set.bitand($other),
            Make::Or => $set.bitor($other),
            Make::Xor => $set.bitxor($other),
            Make::Sub => $set.sub($other),
        }
    };
}

/// The four types under the state with a fixed seed.
pub type Tree<'l> = ordered::Map<u32, u32, Observed<'l>>;

pub type Hash<'l> = HashMap<'l, FixedState>;

pub type TreeOfSet<'l> = TreeSet<u32, Observed<'l>>;

pub type HashOfSet<'l> = HashSet<u32, FixedState, Observed<'l>>;

type HashMap<'l, S> = hashed::Map<u32, u32, S, Observed<'l>>;

fn ask_tree(
    map: &mut Tree<'_>,
    call: Call,
    key: u32,
    value: u32,
    more: &More<'_>,
) -> Asked<Answer> {
    ask_entry!(map, ordered, call, key, value, more)
}

fn ask_hashed<S: BuildHasher>(
    map: &mut HashMap<'_, S>,
    call: Call,
    key: u32,
    value: u32,
    more: &More<'_>,
) -> Asked<Answer> {
    ask_entry!(map, hashed, call, key, value, more)
}

impl Table for Tree<'_> {
    fn ask(&mut self, call: Call, key: u32, value: u32, more: &More<'_>) -> Asked<Answer> {
        ask_map!(self, call, key, value, more, ask_tree)
    }
}

impl<S: BuildHasher + Drop> Table for HashMap<'_, S> {
    fn ask(&mut self, call: Call, key: u32, value: u32, more: &More<'_>) -> Asked<Answer> {
        ask_map!(self, call, key, value, more, ask_hashed)
    }
}

impl Table for TreeOfSet<'_> {
    fn ask(&mut self, call: Call, key: u32, value: u32, more: &More<'_>) -> Asked<Answer> {
        ask_set!(self, call, key, value, more)
    }
}

impl<S: BuildHasher + Drop> Table for HashSet<u32, S, Observed<'_>> {
    fn ask(&mut self, call: Call, key: u32, value: u32, more: &More<'_>) -> Asked<Answer> {
        ask_set!(self, call, key, value, more)
    }
}

impl<'l> Made<'l> for Tree<'l> {
    fn empty(heap: Observed<'l>) -> Self {
        Self::new(heap)
    }

    fn make(&self, _other: &Self, heap: Observed<'l>, make: Make, more: &More<'_>) -> Asked<Self> {
        make_map!(self, heap, make, more)
    }
}

impl<'l> Made<'l> for Hash<'l> {
    fn empty(heap: Observed<'l>) -> Self {
        Self::new(heap)
    }

    fn make(&self, _other: &Self, heap: Observed<'l>, make: Make, more: &More<'_>) -> Asked<Self> {
        make_map!(self, heap, make, more)
    }
}

impl<'l> Made<'l> for TreeOfSet<'l> {
    fn empty(heap: Observed<'l>) -> Self {
        Self::new(heap)
    }

    fn make(&self, other: &Self, heap: Observed<'l>, make: Make, more: &More<'_>) -> Asked<Self> {
        make_set!(self, other, heap, make, more)
    }
}

impl<'l> Made<'l> for HashOfSet<'l> {
    fn empty(heap: Observed<'l>) -> Self {
        Self::new(heap)
    }

    fn make(&self, other: &Self, heap: Observed<'l>, make: Make, more: &More<'_>) -> Asked<Self> {
        make_set!(self, other, heap, make, more)
    }
}
