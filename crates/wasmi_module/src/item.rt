//! What a module has lists of.
ghost use Rattle.std.specs.Prelude.{◌≡◌, ◌≢◌, ℕ, List, IfOk, IfErr, All, length, map};
ghost use Rattle.wasmi_module.specs.Texts.{Each};
ghost use Rattle.wasmi_module.specs.inner.Reading.{Reads, Lacks, With, Only};
ghost use Rattle.wasmi_module.specs.declared.counts.Counts.{Counts};
ghost use Rattle.wasmi_module.specs.declared.error.DecodeError.TheVariants.{NoMemory};
ghost use Rattle.wasmi_module.specs.Format.{IsVector};

use crate::counts::Counts;
use crate::error::DecodeError;
use crate::reader::Reader;
use std::alloc::Allocator;

// What a module has a list of.
pub(crate) trait Item<'a, A: Allocator>: Sized + Drop {
    // What an item is in lists, numbers and bytes.
    ghost Plain: { Type 0 };

    ghost plain: { Self → Plain };

    // The texts that are writings of an item.
    ghost writes: { Plain → List ℕ → Type 0 };

    // The indices in it are below these counts.
    ghost valid: { Counts → Plain → Type 0 };

    // Reads an item, in a module that has so many to refer to.
    fn read(reader: &mut Reader<'a>, alloc: A, counts: &Counts) -> Result<Self, DecodeError>
        ensures written { IfOk result (λ item. Reads (writes (plain item)) reader.old reader.new) }
        ensures valid { IfOk result (λ item. valid counts.now (plain item)) }
        ensures only { IfOk result (λ item. Only writes (plain item) reader.old reader.new) }
        ensures lacks { IfErr result (λ error. error ≢ NoMemory → Lacks (With writes (valid counts.now)) reader.old) };
}

impl<'a> Reader<'a> {
    // A vector: a count, and so many items.
    pub(crate) fn vector<T: Item<'a, A>, A: Allocator + Copy>(
        &mut self,
        alloc: A,
        counts: &Counts,
    ) -> Result<Vec<T, A>, DecodeError>
        ensures written { IfOk result (λ items. Reads (IsVector T.writes (map T.plain items.items)) self.old self.new) }
        ensures valid { IfOk result (λ items. All (T.valid counts.now) (map T.plain items.items)) }
        ensures only { IfOk result (λ items. Only (IsVector T.writes) (map T.plain items.items) self.old self.new) }
        ensures lacks { IfErr result (λ error. error ≢ NoMemory → Lacks (With (IsVector T.writes) (All (T.valid counts.now))) self.old) }
    {
        let count = self.u32()?;
        let items = self.items(count, alloc, counts)?;
        Ok(items)
    }

    // So many items.
    fn items<T: Item<'a, A>, A: Allocator + Copy>(
        &mut self,
        count: u32,
        alloc: A,
        counts: &Counts,
    ) -> Result<Vec<T, A>, DecodeError>
        ensures len { IfOk result (λ items. length items.items ≡ count) }
        ensures each { IfOk result (λ items. Reads (Each T.writes (map T.plain items.items)) self.old self.new) }
        ensures valid { IfOk result (λ items. All (T.valid counts.now) (map T.plain items.items)) }
        ensures only { IfOk result (λ items. Only (With (Each T.writes) (λ xs. length xs ≡ count)) (map T.plain items.items) self.old self.new) }
        ensures lacks { IfErr result (λ error. error ≢ NoMemory → Lacks (With (Each T.writes) (λ xs. (length xs ≡ count) × All (T.valid counts.now) xs)) self.old) }
    {
        // Each item takes a byte at least.
        let room = (count as usize).min(self.left());
        let mut items = Vec::with_capacity(alloc, room)?;
        for _ in 0..count {
            items.push(T::read(self, alloc, counts)?)?;
        }
        Ok(items)
    }
}
