//! The first value of a global.
ghost use Rattle.std.specs.Prelude.{MatchResult};
ghost use Rattle.wasmi_module.specs.Texts.{◌⋅◌};
ghost use Rattle.wasmi_module.specs.inner.Reading.{Reads, Lacks};
ghost use Rattle.wasmi_module.specs.Format.{Byte, IsBytes, IsConstant};
ghost use Rattle.wasmi_module.specs.Numbers.{IsU32};
ghost use Rattle.wasmi_module.specs.Views.{init_of};

use crate::error::{DecodeError, Expected};
use crate::module::Init;
use crate::reader::Reader;

impl<'a> Reader<'a> {
    // A constant instruction, and the instruction `end`.
    pub(crate) fn init(&mut self) -> Result<Init<'a>, DecodeError>
        ensures { MatchResult result (λ init. Reads (IsConstant (init_of init) ⋅ Byte 11) self.old self.new) (λ _. Lacks (λ init. IsConstant init ⋅ Byte 11) self.old) }
    {
        let init = self.constant()?;
        let offset = self.offset();
        if self.byte()? != 0x0b {
            return Err(Expected::End.at(offset));
        }
        Ok(init)
    }

    // A constant instruction.
    fn constant(&mut self) -> Result<Init<'a>, DecodeError>
        ensures { MatchResult result (λ init. Reads (IsConstant (init_of init)) self.old self.new) (λ _. Lacks IsConstant self.old) }
    {
        let offset = self.offset();
        match self.byte()? {
            0x41 => {
                let number = self.i32()?;
                Ok(Init::I32(number))
            }
            0x42 => {
                let number = self.i64()?;
                Ok(Init::I64(number))
            }
            0x43 => {
                let bytes = self.bytes(4)?;
                Ok(Init::F32(bytes))
            }
            0x44 => {
                let bytes = self.bytes(8)?;
                Ok(Init::F64(bytes))
            }
            0xfd => {
                let bytes = self.v128()?;
                Ok(Init::V128(bytes))
            }
            0xd0 => {
                let ty = self.ref_type()?;
                Ok(Init::RefNull(ty))
            }
            0xd2 => {
                let index = self.u32()?;
                Ok(Init::RefFunc(index))
            }
            0x23 => {
                let index = self.u32()?;
                Ok(Init::GlobalGet(index))
            }
            _ => Err(Expected::Constant.at(offset)),
        }
    }

    // What follows the first byte of a constant vector.
    fn v128(&mut self) -> Result<&'a [u8], DecodeError>
        ensures { MatchResult result (λ bytes. Reads (IsU32 12 ⋅ IsBytes 16 bytes.now) self.old self.new) (λ _. Lacks (λ bytes. IsU32 12 ⋅ IsBytes 16 bytes) self.old) }
    {
        let offset = self.offset();
        if self.u32()? != 12 {
            return Err(Expected::Constant.at(offset));
        }
        let bytes = self.bytes(16)?;
        Ok(bytes)
    }
}
