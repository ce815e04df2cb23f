//! How each item is read.
ghost use Rattle.std.specs.Prelude.{◌<◌, ℕ};
ghost use Rattle.wasmi_module.specs.Format.{IsValType, IsFuncType, IsImport, IsTableType, IsMemoryType, IsGlobal, IsExport};
ghost use Rattle.wasmi_module.specs.Numbers.{IsU32};
ghost use Rattle.wasmi_module.specs.Valid.{IsAnything, IsTypeIndex, IsImportWithin, IsExportWithin};
ghost use Rattle.wasmi_module.specs.Views.{func_type_of, import_of, global_of, export_of};
ghost use Rattle.wasmi_module.specs.Modules.{FuncType, Import, Global, Export};
ghost use Rattle.wasmi_module.specs.declared.module.ValType.{ValType};
ghost use Rattle.wasmi_module.specs.declared.module.TableType.{TableType};
ghost use Rattle.wasmi_module.specs.declared.module.MemoryType.{MemoryType};

use crate::check::is_import_within;
use crate::counts::Counts;
use crate::error::{DecodeError, Expected};
use crate::item::Item;
use crate::module::{Export, FuncType, Global, Import, MemoryType, TableType, ValType};
use crate::reader::Reader;
use std::alloc::Allocator;

impl<'a, A: Allocator> Item<'a, A> for ValType {
    ghost Plain = { ValType };

    ghost plain = { λ ty. ty };

    ghost writes = { IsValType };

    ghost valid = { IsAnything };

    fn read(reader: &mut Reader<'a>, _alloc: A, _counts: &Counts) -> Result<Self, DecodeError> {
        reader.val_type()
    }
}

impl<'a, A: Allocator + Copy> Item<'a, A> for FuncType<A> {
    ghost Plain = { FuncType };

    ghost plain = { func_type_of };

    ghost writes = { IsFuncType };

    ghost valid = { IsAnything };

    fn read(reader: &mut Reader<'a>, alloc: A, counts: &Counts) -> Result<Self, DecodeError> {
        let offset = reader.offset();
        if reader.byte()? != 0x60 {
            return Err(Expected::FuncType.at(offset));
        }
        let params = reader.vector(alloc, counts)?;
        let results = reader.vector(alloc, counts)?;
        Ok(FuncType { params, results })
    }
}

impl<'a, A: Allocator> Item<'a, A> for Import<'a> {
    ghost Plain = { Import };

    ghost plain = { import_of };

    ghost writes = { IsImport };

    ghost valid = { λ counts import. IsImportWithin counts import.item };

    fn read(reader: &mut Reader<'a>, _alloc: A, counts: &Counts) -> Result<Self, DecodeError> {
        let module = reader.name()?;
        let field = reader.name()?;
        let offset = reader.offset();
        let item = reader.import_type()?;
        if !is_import_within(&item, counts) {
            return Err(Expected::TypeIndex.at(offset));
        }
        Ok(Import {
            module,
            field,
            item,
        })
    }
}

/// The index of the type of a function.
impl<'a, A: Allocator> Item<'a, A> for u32 {
    ghost Plain = { ℕ };

    ghost plain = { λ index. index };

    ghost writes = { IsU32 };

    ghost valid = { IsTypeIndex };

    fn read(reader: &mut Reader<'a>, _alloc: A, counts: &Counts) -> Result<Self, DecodeError> {
        let offset = reader.offset();
        let index = reader.u32()?;
        if counts.types <= index as usize {
            return Err(Expected::TypeIndex.at(offset));
        }
        Ok(index)
    }
}

impl<'a, A: Allocator> Item<'a, A> for TableType {
    ghost Plain = { TableType };

    ghost plain = { λ ty. ty };

    ghost writes = { IsTableType };

    ghost valid = { IsAnything };

    fn read(reader: &mut Reader<'a>, _alloc: A, _counts: &Counts) -> Result<Self, DecodeError> {
        reader.table_type()
    }
}

impl<'a, A: Allocator> Item<'a, A> for MemoryType {
    ghost Plain = { MemoryType };

    ghost plain = { λ ty. ty };

    ghost writes = { IsMemoryType };

    ghost valid = { IsAnything };

    fn read(reader: &mut Reader<'a>, _alloc: A, _counts: &Counts) -> Result<Self, DecodeError> {
        reader.memory_type()
    }
}

impl<'a, A: Allocator> Item<'a, A> for Global<'a> {
    ghost Plain = { Global };

    ghost plain = { global_of };

    ghost writes = { IsGlobal };

    ghost valid = { IsAnything };

    fn read(reader: &mut Reader<'a>, _alloc: A, _counts: &Counts) -> Result<Self, DecodeError> {
        let ty = reader.global_type()?;
        let init = reader.init()?;
        Ok(Global { ty, init })
    }
}

impl<'a, A: Allocator> Item<'a, A> for Export<'a> {
    ghost Plain = { Export };

    ghost plain = { export_of };

    ghost writes = { IsExport };

    ghost valid = { IsExportWithin };

    fn read(reader: &mut Reader<'a>, _alloc: A, counts: &Counts) -> Result<Self, DecodeError> {
        let name = reader.name()?;
        let kind = reader.kind()?;
        let offset = reader.offset();
        let index = reader.u32()?;
        if counts.of(kind) <= index as usize {
            return Err(Expected::ItemIndex.at(offset));
        }
        Ok(Export { name, kind, index })
    }
}
