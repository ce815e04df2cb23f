//! From bytes to a module.
ghost use Rattle.std.specs.Prelude.{◌≡◌, ◌≢◌, ℕ, List, All, IfOk, IfErr, OnOk, MatchResult};
ghost use Rattle.wasmi_module.specs.Texts.{Is, ◌⋅◌};
ghost use Rattle.wasmi_module.specs.inner.Reading.{Reads};
ghost use Rattle.wasmi_module.specs.Modules as plain;
ghost use Rattle.wasmi_module.specs.Sections.{header, IsWritten, AreRead, AreSkipped};
ghost use Rattle.wasmi_module.specs.inner.Order.{HasSkipped};
ghost use Rattle.wasmi_module.specs.declared.error.DecodeError.TheVariants.{NoMemory};
ghost use Rattle.wasmi_module.specs.Valid.{IsValid};
ghost use Rattle.wasmi_module.specs.Views.{module_of};

use crate::check::{are_distinct, are_inits_within, imported};
use crate::counts::Counts;
use crate::error::{DecodeError, Expected};
use crate::module::{Kind, Module};
use crate::reader::Reader;
use std::alloc::Allocator;

/// The module whose writing the bytes are: sections 1 to 7 are read, 8 to 12 and custom ones stepped over.
pub fn decode<'a, A: Allocator + Copy>(
    alloc: A,
    bytes: &'a [u8],
) -> Result<Module<'a, A>, DecodeError>
    ensures written { IfOk result (λ decoded. IsWritten (module_of decoded) bytes.now) }
    ensures valid { IfOk result (λ decoded. IsValid (module_of decoded)) }
    // A writing of a valid module is refused only when memory runs out.
    ensures refused { IfErr result (λ error. error ≢ NoMemory → (m : plain.Module) → IsWritten m bytes.now → ¬ (IsValid m)) }
{
    let mut reader = Reader::new(bytes);
    reader.header()?;
    let module = reader.module(alloc)?;
    reader.skipped()?;
    reader.end(Expected::Section)?;
    Ok(module)
}

impl<'a> Reader<'a> {
    // What stands before the first section.
    fn header(&mut self) -> Result<(), DecodeError>
        ensures { MatchResult result (λ _. Reads (Is header) self.old self.new) (λ _. (after : List ℕ) → ¬ (Reads (Is header) self.old after)) }
    {
        let offset = self.offset();
        if self.bytes(4)? != [0x00, 0x61, 0x73, 0x6d].as_slice() {
            return Err(Expected::Magic.at(offset));
        }
        let offset = self.offset();
        if self.bytes(4)? != [0x01, 0x00, 0x00, 0x00].as_slice() {
            return Err(Expected::Version.at(offset));
        }
        Ok(())
    }

    // The sections that are read.
    fn module<A: Allocator + Copy>(&mut self, alloc: A) -> Result<Module<'a, A>, DecodeError>
        ensures written { IfOk result (λ decoded. Reads (AreRead (module_of decoded)) self.old self.new) }
        ensures valid { IfOk result (λ decoded. IsValid (module_of decoded)) }
        ensures rest { OnOk result ((m : plain.Module) → (AreRead m ⋅ AreSkipped) self.old → HasSkipped self.new) }
        ensures refused { IfErr result (λ error. error ≢ NoMemory → (m : plain.Module) → (AreRead m ⋅ AreSkipped) self.old → ¬ (IsValid m)) }
    {
        let mut counts = Counts {
            types: 0,
            functions: 0,
            tables: 0,
            memories: 0,
            globals: 0,
        };
        let types = self.section(1, alloc, &counts)?;
        counts.types = types.len();
        let imports = self.section(2, alloc, &counts)?;
        let functions = self.section(3, alloc, &counts)?;
        counts.functions = imported(&imports, Kind::Func) + functions.len();
        let tables = self.section(4, alloc, &counts)?;
        counts.tables = imported(&imports, Kind::Table) + tables.len();
        let memories = self.section(5, alloc, &counts)?;
        counts.memories = imported(&imports, Kind::Memory) + memories.len();
        let globals = self.section(6, alloc, &counts)?;
        counts.globals = imported(&imports, Kind::Global) + globals.len();
        let within = are_inits_within(&globals, &counts);
        self.require(within, Expected::InitIndex)?;
        let exports = self.section(7, alloc, &counts)?;
        let distinct = are_distinct(alloc, &exports)?;
        self.require(distinct, Expected::FreshName)?;
        Ok(Module {
            types,
            imports,
            functions,
            tables,
            memories,
            globals,
            exports,
        })
    }
}
