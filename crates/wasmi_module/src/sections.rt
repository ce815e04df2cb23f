//! Sections.
ghost use Rattle.std.specs.Prelude.{◌≡◌, ◌≢◌, ◌<◌, ◌++◌, [], All, IfOk, IfErr, IfSome, IfNone, OnOk, OnErr, MatchOption, length, map, slice_get};
ghost use Rattle.wasmi_module.specs.inner.Reading.{Reads};
ghost use Rattle.wasmi_module.specs.Sections.{IsSection, AreCustoms, IsNext, IsSkipped, AreSkipped};
ghost use Rattle.wasmi_module.specs.inner.Order.{NoSections, OnlySection, LacksSection, Behind, HasSkipped};
ghost use Rattle.wasmi_module.specs.declared.error.DecodeError.TheVariants.{NoMemory};

use crate::counts::Counts;
use crate::error::{DecodeError, Expected};
use crate::item::Item;
use crate::reader::Reader;
use std::alloc::Allocator;

impl<'a> Reader<'a> {
    // Custom sections, and then the section of this number: its items, of which there are none if it
    // is left out.
    pub(crate) fn section<T: Item<'a, A>, A: Allocator + Copy>(
        &mut self,
        number: u8,
        alloc: A,
        counts: &Counts,
    ) -> Result<Vec<T, A>, DecodeError>
        ensures written { IfOk result (λ items. Reads (IsNext number T.writes (map T.plain items.items)) self.old self.new) }
        ensures valid { IfOk result (λ items. All (T.valid counts.now) (map T.plain items.items)) }
        ensures only { IfOk result (λ items. OnlySection number T.writes (map T.plain items.items) self.old self.new) }
        ensures lacks { IfErr result (λ error. error ≢ NoMemory → LacksSection number T.writes (All (T.valid counts.now)) self.old) }
    {
        self.customs()?;
        let Some(mut contents) = self.contents(number)? else {
            return Ok(Vec::new(alloc));
        };
        let items = contents.vector(alloc, counts)?;
        contents.end(Expected::SectionEnd)?;
        Ok(items)
    }

    // Steps over the sections behind those that are read, in their order, and over custom ones.
    pub(crate) fn skipped(&mut self) -> Result<(), DecodeError>
        ensures written { OnOk result (Reads AreSkipped self.old self.new) }
        ensures all { OnOk result (HasSkipped self.old → self.new ≡ []) }
        ensures refused { OnErr result (¬ (HasSkipped self.old)) }
    {
        self.skip(8)?;
        self.skip(9)?;
        self.skip(12)?;
        self.skip(10)?;
        self.skip(11)?;
        self.customs()?;
        Ok(())
    }

    // Steps over custom sections, and then over the section of this number if there is one.
    fn skip(&mut self, number: u8) -> Result<(), DecodeError>
        ensures written { OnOk result (Reads (IsSkipped number) self.old self.new) }
        ensures rest { OnOk result (Behind number self.old self.new) }
        ensures refused { OnErr result (NoSections self.old) }
    {
        self.customs()?;
        self.contents(number)?;
        Ok(())
    }

    // Steps over custom sections.
    fn customs(&mut self) -> Result<(), DecodeError>
        ensures written { OnOk result (Reads AreCustoms self.old self.new) }
        ensures all { OnOk result (slice_get self.new 0 ≢ Some 0) }
        ensures refused { OnErr result (NoSections self.old) }
    {
        while self.contents(0)?.is_some() {}
        Ok(())
    }

    // The contents of the section of this number, if it comes next.
    fn contents(&mut self, number: u8) -> Result<Option<Reader<'a>>, DecodeError>
        ensures found { IfOk result (λ found. IfSome found (λ contents. Reads (IsSection number contents) self.old self.new)) }
        ensures shorter { IfOk result (λ found. IfSome found (λ contents. length self.new < length self.old)) }
        ensures none { IfOk result (λ found. IfNone found (self.new ≡ self.old)) }
        ensures absent { IfOk result (λ found. IfNone found (slice_get self.old 0 ≢ Some number)) }
        ensures refused { OnErr result (NoSections self.old) }
    {
        if !self.is_next(number) {
            return Ok(None);
        }
        self.byte()?;
        let len = self.u32()?;
        let contents = self.part(len as usize)?;
        Ok(Some(contents))
    }
}
