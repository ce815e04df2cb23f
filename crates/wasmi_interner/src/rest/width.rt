//! The width of the blocks of a rest.
ghost use Rattle.std.specs.Prelude.{◌≡◌, ◌+◌, ◌/◌, ◌%◌, ◌<◌, ◌^◌, IfSome, None};
ghost use Rattle.wasmi_interner.specs.inner.RestBlocks.{IsWidth};

use std::marker::Model;

// How many entries a full block has. It is a power of two, so that a rank is divided by it in one step.
#[derive(Drop)]
pub(super) struct Width {
    power: u32,
}

// The power of the least width.
const LEAST: u32 = 4;

// And of the greatest, which 2^32 entries don't reach.
const GREATEST: u32 = 20;

impl Model for Width {
    ghost use Rattle.std.specs.Prelude.{◌≤◌, ◌^◌, ℕ};

    ghost Value = { ℕ };

    ghost view = { λ width. 2 ^ width.power };

    ghost invariant = { λ width. (4 ≤ width.power) × (width.power ≤ 20) };
}

impl Width {
    // The least width.
    pub(super) fn least() -> Self
        ensures { IsWidth result }
    {
        Width { power: LEAST }
    }

    // The same width.
    pub(super) fn copy(&self) -> Self
        ensures { result ≡ self.now }
    {
        Width { power: self.power }
    }

    // Twice this width, unless it is the greatest.
    pub(super) fn next(&self) -> Option<Self>
        ensures next { IfSome result (λ next. (next ≡ self.now + self.now) × (self.now < 2 ^ 20)) }
        ensures greatest { result ≡ None → self.now ≡ 2 ^ 20 }
    {
        if self.power < GREATEST {
            Some(Width {
                power: self.power + 1,
            })
        } else {
            None
        }
    }

    // How many entries it is.
    #[inline]
    pub(super) fn get(&self) -> usize
        ensures value { result ≡ self.now }
        ensures width { IsWidth result }
    {
        1 << self.power
    }

    // The block of a rank.
    #[inline]
    pub(super) fn block_of(&self, rank: usize) -> usize
        ensures { result ≡ rank / self.now }
    {
        rank >> self.power
    }

    // The place of a rank in its block.
    #[inline]
    pub(super) fn place_of(&self, rank: usize) -> usize
        ensures { result ≡ rank % self.now }
    {
        rank & (self.get() - 1)
    }
}
