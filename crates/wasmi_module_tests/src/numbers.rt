//! Numbers of each length: those beside a power of two, in as few bytes as they take.
use crate::or_abort::OrAbort;
use std::alloc::{AllocError, Global};
use std::process::Abort;
use wasmi_module::{Init, decode};
use wasmi_vectors::assert_equal;

// Seven bits a byte, the lowest first.
fn written(alloc: Global, number: i64, is_signed: bool) -> Result<Vec<u8>, AllocError> {
    let mut bytes = Vec::new(alloc);
    let mut left = number;
    for _ in 0..10 {
        let low = (left & 127) as u8;
        left >>= 7;
        let end = if is_signed && low >= 64 { -1 } else { 0 };
        if left == end {
            bytes.push(low)?;
            break;
        }
        bytes.push(low | 128)?;
    }
    Ok(bytes)
}

// A module of a section, in which a number stands between what comes before it and behind.
fn module_of(alloc: Global, section: u8, parts: [&[u8]; 3]) -> Result<Vec<u8>, AllocError> {
    let mut bytes = Vec::new(alloc);
    bytes.extend_from_slice(b"\0asm\x01\0\0\0")?;
    bytes.push(section)?;
    let mut len: u8 = 0;
    for part in parts {
        len = len.wrapping_add(u8::try_from(part.len()).unwrap_or(0));
    }
    bytes.push(len)?;
    for part in parts {
        bytes.extend_from_slice(part)?;
    }
    Ok(bytes)
}

// The first value of the one global of a module.
fn global(rt: &impl Abort, alloc: Global, head: &[u8], number: i64) -> Option<i64> {
    let written = written(alloc, number, true).or_abort(rt);
    let bytes = module_of(alloc, 6, [head, &written, b"\x0b"]).or_abort(rt);
    let module = decode(alloc, bytes.as_slice()).or_abort(rt);
    match module.globals.first()?.init {
        Init::I32(value) => Some(i64::from(value)),
        Init::I64(value) => Some(value),
        _ => None,
    }
}

// The least size of the one table of a module.
fn table(rt: &impl Abort, alloc: Global, number: i64) -> Option<u32> {
    let written = written(alloc, number, false).or_abort(rt);
    let bytes = module_of(alloc, 4, [b"\x01\x70\0", &written, b""]).or_abort(rt);
    let module = decode(alloc, bytes.as_slice()).or_abort(rt);
    Some(module.tables.first()?.limits.min)
}

#[test]
fn numbers_beside_each_power_of_two(rt: HostRuntime) {
    for bit in 0..64u32 {
        let power = 1i64.wrapping_shl(bit);
        let less = power.wrapping_sub(1);
        for number in [
            power,
            less,
            power.wrapping_neg(),
            less.wrapping_neg().wrapping_sub(2),
        ] {
            assert_equal!(rt; global(&rt, rt.alloc(), b"\x01\x7e\0\x42", number), Some(number));
            if i32::try_from(number).is_ok() {
                assert_equal!(rt; global(&rt, rt.alloc(), b"\x01\x7f\0\x41", number), Some(number));
            }
            if let Ok(least) = u32::try_from(number) {
                assert_equal!(rt; table(&rt, rt.alloc(), number), Some(least));
            }
        }
    }
}
