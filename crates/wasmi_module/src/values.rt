//! Names and types.
ghost use Rattle.std.specs.Prelude.{◌≡◌, ◌≢◌, MatchOption, MatchResult};
ghost use Rattle.wasmi_module.specs.inner.Reading.{Reads, Lacks};
ghost use Rattle.wasmi_module.specs.declared.module.ValType.{ValType};
ghost use Rattle.wasmi_module.specs.declared.module.RefType.{RefType};
ghost use Rattle.wasmi_module.specs.declared.module.Kind.{Kind};
ghost use Rattle.wasmi_module.specs.Format.{Byte, IsName, IsValType, IsRefType, IsLimits, IsTableType, IsMemoryType, IsGlobalType, IsImportType, val_type_code, ref_type_code, kind_code};

use crate::error::{DecodeError, Expected};
use crate::module::{
    GlobalType, ImportType, Kind, Limits, MemoryType, RefType, TableType, ValType,
};
use crate::reader::Reader;

// The most pages of a memory.
const MAX_PAGES: u32 = 65536;

impl ValType {
    // The type of this code, if there is one.
    fn from_code(code: u8) -> Option<ValType>
        ensures { MatchOption result ((ty : ValType) → val_type_code ty ≢ code) (λ ty. val_type_code ty ≡ code) }
    {
        match code {
            0x7f => Some(ValType::I32),
            0x7e => Some(ValType::I64),
            0x7d => Some(ValType::F32),
            0x7c => Some(ValType::F64),
            0x7b => Some(ValType::V128),
            0x70 => Some(ValType::FuncRef),
            0x6f => Some(ValType::ExternRef),
            _ => None,
        }
    }
}

impl RefType {
    // The type of this code, if there is one.
    fn from_code(code: u8) -> Option<RefType>
        ensures { MatchOption result ((ty : RefType) → ref_type_code ty ≢ code) (λ ty. ref_type_code ty ≡ code) }
    {
        match code {
            0x70 => Some(RefType::FuncRef),
            0x6f => Some(RefType::ExternRef),
            _ => None,
        }
    }
}

impl Kind {
    // The kind of this code, if there is one.
    fn from_code(code: u8) -> Option<Kind>
        ensures { MatchOption result ((kind : Kind) → kind_code kind ≢ code) (λ kind. kind_code kind ≡ code) }
    {
        match code {
            0x00 => Some(Kind::Func),
            0x01 => Some(Kind::Table),
            0x02 => Some(Kind::Memory),
            0x03 => Some(Kind::Global),
            _ => None,
        }
    }
}

impl<'a> Reader<'a> {
    // A name.
    pub(crate) fn name(&mut self) -> Result<&'a str, DecodeError>
        ensures { MatchResult result (λ name. Reads (IsName name.now) self.old self.new) (λ _. Lacks IsName self.old) }
    {
        let len = self.u32()?;
        let offset = self.offset();
        let bytes = self.bytes(len as usize)?;
        match str::from_utf8(bytes) {
            Ok(name) => Ok(name),
            Err(_) => Err(Expected::Name.at(offset)),
        }
    }

    // The type of a value.
    pub(crate) fn val_type(&mut self) -> Result<ValType, DecodeError>
        ensures { MatchResult result (λ ty. Reads (IsValType ty) self.old self.new) (λ _. Lacks IsValType self.old) }
    {
        let offset = self.offset();
        let code = self.byte()?;
        match ValType::from_code(code) {
            Some(ty) => Ok(ty),
            None => Err(Expected::ValType.at(offset)),
        }
    }

    // The type of a reference.
    pub(crate) fn ref_type(&mut self) -> Result<RefType, DecodeError>
        ensures { MatchResult result (λ ty. Reads (IsRefType ty) self.old self.new) (λ _. Lacks IsRefType self.old) }
    {
        let offset = self.offset();
        let code = self.byte()?;
        match RefType::from_code(code) {
            Some(ty) => Ok(ty),
            None => Err(Expected::RefType.at(offset)),
        }
    }

    // What is imported or exported.
    pub(crate) fn kind(&mut self) -> Result<Kind, DecodeError>
        ensures { MatchResult result (λ kind. Reads (Byte (kind_code kind)) self.old self.new) (λ _. Lacks (λ (kind : Kind). Byte (kind_code kind)) self.old) }
    {
        let offset = self.offset();
        let code = self.byte()?;
        match Kind::from_code(code) {
            Some(kind) => Ok(kind),
            None => Err(Expected::Kind.at(offset)),
        }
    }

    // The limits of a table or a memory.
    pub(crate) fn limits(&mut self) -> Result<Limits, DecodeError>
        ensures { MatchResult result (λ limits. Reads (IsLimits limits) self.old self.new) (λ _. Lacks IsLimits self.old) }
    {
        let offset = self.offset();
        match self.byte()? {
            0x00 => {
                let min = self.u32()?;
                Ok(Limits { min, max: None })
            }
            0x01 => {
                let min = self.u32()?;
                let offset = self.offset();
                let max = self.u32()?;
                if max < min {
                    return Err(Expected::Max.at(offset));
                }
                Ok(Limits {
                    min,
                    max: Some(max),
                })
            }
            _ => Err(Expected::Limits.at(offset)),
        }
    }

    // The type of a table.
    pub(crate) fn table_type(&mut self) -> Result<TableType, DecodeError>
        ensures { MatchResult result (λ ty. Reads (IsTableType ty) self.old self.new) (λ _. Lacks IsTableType self.old) }
    {
        let element = self.ref_type()?;
        let limits = self.limits()?;
        Ok(TableType { element, limits })
    }

    // The type of a memory.
    pub(crate) fn memory_type(&mut self) -> Result<MemoryType, DecodeError>
        ensures { MatchResult result (λ ty. Reads (IsMemoryType ty) self.old self.new) (λ _. Lacks IsMemoryType self.old) }
    {
        let offset = self.offset();
        let limits = self.limits()?;
        let most = match limits.max {
            Some(max) => max,
            None => limits.min,
        };
        if MAX_PAGES < most {
            return Err(Expected::Pages.at(offset));
        }
        Ok(MemoryType { limits })
    }

    // The type of a global.
    pub(crate) fn global_type(&mut self) -> Result<GlobalType, DecodeError>
        ensures { MatchResult result (λ ty. Reads (IsGlobalType ty) self.old self.new) (λ _. Lacks IsGlobalType self.old) }
    {
        let value = self.val_type()?;
        let offset = self.offset();
        match self.byte()? {
            0x00 => Ok(GlobalType {
                value,
                mutable: false,
            }),
            0x01 => Ok(GlobalType {
                value,
                mutable: true,
            }),
            _ => Err(Expected::Mutability.at(offset)),
        }
    }

    // What a module asks for.
    pub(crate) fn import_type(&mut self) -> Result<ImportType, DecodeError>
        ensures { MatchResult result (λ ty. Reads (IsImportType ty) self.old self.new) (λ _. Lacks IsImportType self.old) }
    {
        match self.kind()? {
            Kind::Func => {
                let index = self.u32()?;
                Ok(ImportType::Func(index))
            }
            Kind::Table => {
                let ty = self.table_type()?;
                Ok(ImportType::Table(ty))
            }
            Kind::Memory => {
                let ty = self.memory_type()?;
                Ok(ImportType::Memory(ty))
            }
            Kind::Global => {
                let ty = self.global_type()?;
                Ok(ImportType::Global(ty))
            }
        }
    }
}
