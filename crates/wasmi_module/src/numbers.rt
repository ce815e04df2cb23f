//! Numbers in LEB128.
ghost use Rattle.std.specs.Prelude.{◌≡◌, ◌+◌, ◌*◌, ◌/◌, ◌^◌, ◌<◌, ◌≤◌, IfOk, OnErr, MatchResult, pos, ◌+ℤ◌, ◌<ℤ◌, ◌≤ℤ◌};
ghost use Rattle.wasmi_module.specs.Numbers.{IsUnsigned, IsU32, IsSigned, IsI32, IsI64};
ghost use Rattle.wasmi_module.specs.inner.Reading.{Reads, Lacks};

use crate::error::{DecodeError, Expected};
use crate::reader::Reader;

impl Reader<'_> {
    // A number below 2^32.
    pub(crate) fn u32(&mut self) -> Result<u32, DecodeError>
        ensures { MatchResult result (λ n. Reads (IsU32 n) self.old self.new) (λ _. Lacks IsU32 self.old) }
    {
        let number = self.unsigned(1 << 32)?;
        Ok(number as u32)
    }

    // A signed number of 32 bits.
    pub(crate) fn i32(&mut self) -> Result<i32, DecodeError>
        ensures number { IfOk result (λ n. Reads (IsI32 n) self.old self.new) }
        ensures lacks { OnErr result (Lacks IsI32 self.old) }
        ensures above { IfOk result (λ n. pos 0 ≤ℤ (n +ℤ pos (2 ^ 31))) }
        ensures below { IfOk result (λ n. n <ℤ pos (2 ^ 31)) }
    {
        let number = self.signed(1 << 31)?;
        Ok(number as i32)
    }

    // A signed number of 64 bits.
    pub(crate) fn i64(&mut self) -> Result<i64, DecodeError>
        ensures number { IfOk result (λ n. Reads (IsI64 n) self.old self.new) }
        ensures lacks { OnErr result (Lacks IsI64 self.old) }
        ensures above { IfOk result (λ n. pos 0 ≤ℤ (n +ℤ pos (2 ^ 63))) }
        ensures below { IfOk result (λ n. n <ℤ pos (2 ^ 63)) }
    {
        self.signed(1 << 63)
    }

    // A number below `limit`.
    fn unsigned(&mut self, limit: u64) -> Result<u64, DecodeError>
        requires { limit ≤ 2 ^ 32 }
        ensures number { IfOk result (λ n. Reads (IsUnsigned limit n) self.old self.new) }
        ensures lacks { OnErr result (Lacks (IsUnsigned limit) self.old) }
        ensures below { IfOk result (λ n. n < limit) }
    {
        let offset = self.offset();
        let byte = self.byte()? as u64;
        if byte < 128 && byte < limit {
            return Ok(byte);
        }
        if byte < 128 || limit <= 128 {
            return Err(Expected::Number.at(offset));
        }
        let high = self.unsigned(limit / 128)?;
        Ok(high * 128 + (byte - 128))
    }

    // A number from `-half` on, and below `half`.
    fn signed(&mut self, half: u64) -> Result<i64, DecodeError>
        requires { half ≤ 2 ^ 63 }
        ensures number { IfOk result (λ n. Reads (IsSigned half n) self.old self.new) }
        ensures lacks { OnErr result (Lacks (IsSigned half) self.old) }
        ensures above { IfOk result (λ n. pos 0 ≤ℤ (n +ℤ pos half)) }
        ensures below { IfOk result (λ n. n <ℤ pos half) }
    {
        let offset = self.offset();
        let byte = self.byte()?;
        if byte < 64 && (byte as u64) < half {
            return Ok(byte as i64);
        }
        if 64 <= byte && byte < 128 && (128 - byte as u64) <= half {
            return Ok(byte as i64 - 128);
        }
        if byte < 128 || half <= 64 {
            return Err(Expected::Number.at(offset));
        }
        let high = self.signed(half / 128)?;
        Ok(high * 128 + (byte as i64 - 128))
    }
}
