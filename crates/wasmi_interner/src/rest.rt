//! The entries of an interner that no slot has.
ghost use Rattle.std.specs.Prelude.{◌≡◌, ◌+◌, ◌%◌, ◌<◌, ◌≤◌, ◌⊎◌, ◌^◌, [], length, nat_lt, IfOk, OnOk, IsOkUnless, Some, slice_get, vec_items};
ghost use Rattle.std.specs.List.{insert};
ghost use Rattle.wasmi_interner.specs.inner.RestBlocks.{AreFew, IsBlocks, entries_in, room_in};

mod block;
mod width;

use crate::entry::Entry;
use block::Block;
use std::alloc::{AllocError, Allocator};
use std::marker::Model;
use wasmi_arena::ArenaError;
use width::Width;

// Entries by rank: a list into which an entry can be put at any place.
//
// They lie in blocks of one width, each a ring. All but perhaps the last are full, so a rank tells its block and
// its place there. What a full block has too many goes on to the next, so an entry that is put in moves some of
// one block, and one entry of each block behind it. Both are few: the width of many blocks grows with the square
// root of the number of entries.
#[derive(Drop)]
pub(crate) struct Rest<A: Allocator> {
    blocks: Vec<Block<A>, A>,
    width: Width,
    // How many entries there are.
    len: usize,
}

// A block that stands alone is widened up to this width.
const ALONE: usize = 256;

// Blocks are joined once their number is a sixteenth of their width.
const PART: usize = 16;

impl<A: Allocator> Model for Rest<A> {
    ghost use Rattle.std.specs.Prelude.{◌≡◌, length, vec_items};
    ghost use Rattle.wasmi_interner.specs.inner.RestBlocks.{AreFew, IsBlocks, IsWidth, RestState, entries_in, room_in};

    ghost Value = { RestState };

    ghost view = { λ rest. record {
      entries = entries_in (vec_items rest.blocks);
      room = room_in (vec_items rest.blocks);
      width = rest.width;
      blocks = length (vec_items rest.blocks);
    } };

    ghost invariant = { λ rest. IsWidth rest.width
        × AreFew rest.width (length (vec_items rest.blocks))
        × IsBlocks rest.width (vec_items rest.blocks)
        × (rest.len ≡ length (entries_in (vec_items rest.blocks))) };
}

impl<A: Allocator> Rest<A> {
    // No entries.
    pub(crate) fn new(alloc: A) -> Self
        ensures { result.entries ≡ [] }
    {
        Rest {
            blocks: Vec::new(alloc),
            width: Width::least(),
            len: 0,
        }
    }

    // Takes all entries out. The next block has the least width again.
    pub(crate) fn clear(&mut self)
        ensures { self.new.entries ≡ [] }
    {
        self.blocks.clear();
        self.width = Width::least();
        self.len = 0;
    }

    // How many there are.
    pub(crate) fn len(&self) -> usize
        ensures { result ≡ length self.now.entries }
    {
        self.len
    }

    // The entry of a rank.
    pub(crate) fn at(&self, rank: usize) -> Entry
        requires { rank < length self.now.entries }
        ensures { slice_get self.now.entries rank ≡ Some result }
    {
        self.blocks[self.width.block_of(rank)].at(self.width.place_of(rank))
    }

    // Makes room for one more entry. Where all blocks are full, `widen` may give the one that stands alone room, or
    // join them. If they are full then, one more is opened.
    pub(crate) fn reserve(&mut self) -> Result<(), ArenaError>
    where
        A: Clone,
        ensures entries { self.new.entries ≡ self.old.entries }
        ensures ok { OnOk result (0 < self.new.room) }
        ensures errors { IsOkUnless result ArenaError.OutOfSystemMemory }
    {
        if self.has_room() {
            return Ok(());
        }
        self.widen()?;
        if !self.has_room() {
            self.open()?;
        }
        Ok(())
    }

    // Whether there is room for one more entry.
    fn has_room(&self) -> bool
        ensures { result ≡ nat_lt 0 self.now.room }
    {
        let len = self.blocks.len();
        0 < len && !self.blocks[len - 1].is_full()
    }

    // Doubles the width, if a narrow block stands alone, or the blocks are many for it. All are full. One that
    // stands alone gets room, others are joined by twos.
    fn widen(&mut self) -> Result<(), AllocError>
    where
        A: Clone,
        requires { self.old.room ≡ 0 }
        ensures entries { self.new.entries ≡ self.old.entries }
        ensures ok { OnOk result ((0 < self.new.room) ⊎ AreFew self.new.width (self.new.blocks + 1)) }
    {
        let len = self.blocks.len();
        let width = self.width.get();
        if len < width / PART && (len != 1 || ALONE <= width) {
            return Ok(());
        }
        if let Some(next) = self.width.next() {
            if len == 1 {
                self.blocks[0].widen(&next)?;
            } else {
                self.blocks = self.joined(&next)?;
            }
            self.width = next;
        }
        Ok(())
    }

    // The same entries in half as many blocks, of twice the width. All are full, and their number is even.
    fn joined(&self, width: &Width) -> Result<Vec<Block<A>, A>, AllocError>
    where
        A: Clone,
        requires full { self.now.room ≡ 0 }
        requires even { self.now.blocks % 2 ≡ 0 }
        requires twice { self.now.width + self.now.width ≡ width.now }
        ensures { IfOk result (λ wider. IsBlocks width.now (vec_items wider)
            × (room_in (vec_items wider) ≡ 0)
            × (length (vec_items wider) + length (vec_items wider) ≡ self.now.blocks)
            × (entries_in (vec_items wider) ≡ self.now.entries)) }
    {
        let alloc = self.blocks.allocator().clone()?;
        let mut wider = Vec::with_capacity(alloc, self.blocks.len() / 2)?;
        let mut next = 0;
        while next < self.blocks.len() {
            let alloc = self.blocks.allocator().clone()?;
            let block = Block::joined(alloc, &self.blocks[next], &self.blocks[next + 1], width)?;
            wider.push_reserved(block);
            next += 2;
        }
        Ok(wider)
    }

    // Opens a block. All others are full, and with one more they are few.
    fn open(&mut self) -> Result<(), AllocError>
    where
        A: Clone,
        requires full { self.old.room ≡ 0 }
        requires few { AreFew self.old.width (self.old.blocks + 1) }
        ensures entries { self.new.entries ≡ self.old.entries }
        ensures ok { OnOk result (0 < self.new.room) }
    {
        self.blocks.reserve(1)?;
        let alloc = self.blocks.allocator().clone()?;
        let block = Block::new(alloc, &self.width)?;
        self.blocks.push_reserved(block);
        Ok(())
    }

    // Puts an entry at a rank. There is room. What a full block then has too many goes to the front of the next.
    pub(crate) fn insert(&mut self, rank: usize, entry: Entry)
        requires within { rank ≤ length self.old.entries }
        requires room { 0 < self.old.room }
        requires few { length self.old.entries < 2 ^ 32 }
        ensures { self.new.entries ≡ insert self.old.entries rank entry }
    {
        self.len += 1;
        let last = self.blocks.len() - 1;
        let mut block = self.width.block_of(rank);
        let mut place = self.width.place_of(rank);
        let mut carried = entry;
        while block < last {
            carried = self.blocks[block].push_out(place, carried);
            block += 1;
            place = 0;
        }
        self.blocks[last].put(place, carried);
    }

    // The same entries, over clones of the allocator.
    pub(crate) fn clone(&self) -> Result<Self, ArenaError>
    where
        A: Clone,
        ensures entries { IfOk result (λ other. other.entries ≡ self.now.entries) }
        ensures errors { IsOkUnless result ArenaError.OutOfSystemMemory }
    {
        Ok(Rest {
            blocks: self.blocks.clone()?,
            width: self.width.copy(),
            len: self.len,
        })
    }
}
