//! Numbered items that count their clones and their drops.
use std::alloc::AllocError;
use std::cell::Cell;

/// What happened to the items of a test.
#[derive(Drop)]
pub struct Tally {
    cloned: Cell<u64>,
    refused: Cell<Option<u64>>,
    dropped: Cell<u64>,
    in_turn: Cell<u64>,
}

impl Tally {
    /// Nothing has happened, and no clone is refused.
    pub fn new() -> Tally {
        Tally {
            cloned: Cell::new(0),
            refused: Cell::new(None),
            dropped: Cell::new(0),
            in_turn: Cell::new(0),
        }
    }

    /// Refuses the clone of the item of this number from now on.
    pub fn refuse_clone_of(&self, number: u64) {
        self.refused.set(Some(number));
    }

    /// The number of clones, without the refused ones.
    pub fn cloned(&self) -> u64 {
        self.cloned.get()
    }

    /// The number of items dropped, and how many of them in turn since item 0 was dropped last: 0, 1, 2 and
    /// so on. Where n items were dropped and n in turn, each of 0 to n - 1 was dropped once.
    pub fn dropped(&self) -> (u64, u64) {
        (self.dropped.get(), self.in_turn.get())
    }
}

/// An item with a number.
pub struct Item<'a> {
    tally: &'a Tally,
    number: u64,
}

impl<'a> Item<'a> {
    pub fn new(tally: &'a Tally, number: u64) -> Item<'a> {
        Item { tally, number }
    }

    pub fn number(&self) -> u64 {
        self.number
    }
}

impl Clone for Item<'_> {
    fn clone(&self) -> Result<Self, AllocError> {
        if self.tally.refused.get() == Some(self.number) {
            return Err(AllocError);
        }
        self.tally.cloned.set(self.tally.cloned().wrapping_add(1));
        Ok(Item::new(self.tally, self.number))
    }
}

impl Drop for Item<'_> {
    fn drop(self) {
        let Item { tally, number } = self;
        let (dropped, in_turn) = tally.dropped();
        tally.dropped.set(dropped.wrapping_add(1));
        if number == 0 {
            tally.in_turn.set(1);
        } else if number == in_turn {
            tally.in_turn.set(in_turn.wrapping_add(1));
        }
    }
}
