//! The container that a line names.

/// What a line `on ..` names.
#[derive(Clone, Copy)]
pub enum Named {
    StableVec,
    HeadVec,
    OrderedMap,
    OrderedSet,
    HashedMap,
    HashedSet,
    StringInterner,
    Keyed(Keyed, Keys),
}

/// A container whose items have keys.
#[derive(Clone, Copy)]
pub enum Keyed {
    StableArena,
    Arena,
    DedupArena,
    ComponentVec,
}

/// A type of keys.
#[derive(Clone, Copy)]
pub enum Keys {
    U32,
    Usize,
    NonZeroU32,
    NonZeroUsize,
    Few,
}

impl Named {
    /// Of the words of a line. `None` if they name no container.
    pub fn parse(words: &[&str]) -> Option<Named> {
        match *words {
            ["on", "stable_vec"] => Some(Named::StableVec),
            ["on", "head_vec"] => Some(Named::HeadVec),
            ["on", "ordered_map"] => Some(Named::OrderedMap),
            ["on", "ordered_set"] => Some(Named::OrderedSet),
            ["on", "hashed_map"] => Some(Named::HashedMap),
            ["on", "hashed_set"] => Some(Named::HashedSet),
            ["on", "string_interner"] => Some(Named::StringInterner),
            ["on", name, keys] => Some(Named::Keyed(Keyed::parse(name)?, Keys::parse(keys)?)),
            _ => None,
        }
    }
}

impl Keyed {
    fn parse(name: &str) -> Option<Keyed> {
        match name {
            "stable_arena" => Some(Keyed::StableArena),
            "arena" => Some(Keyed::Arena),
            "dedup_arena" => Some(Keyed::DedupArena),
            "component_vec" => Some(Keyed::ComponentVec),
            _ => None,
        }
    }
}

impl Keys {
    fn parse(name: &str) -> Option<Keys> {
        match name {
            "u32" => Some(Keys::U32),
            "usize" => Some(Keys::Usize),
            "non_zero_u32" => Some(Keys::NonZeroU32),
            "non_zero_usize" => Some(Keys::NonZeroUsize),
            "few" => Some(Keys::Few),
            _ => None,
        }
    }
}
