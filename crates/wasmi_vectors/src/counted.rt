//! Items that count their drops.
use std::cell::Cell;

/// An item that counts its drop.
pub struct Counted<'a> {
    drops: &'a Cell<u64>,
}

impl<'a> Counted<'a> {
    pub fn new(drops: &'a Cell<u64>) -> Counted<'a> {
        Counted { drops }
    }
}

impl Drop for Counted<'_> {
    fn drop(self) {
        self.drops.set(self.drops.get().wrapping_add(1));
        let Counted { drops: _ } = self;
    }
}
