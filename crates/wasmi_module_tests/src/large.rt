//! Long names and empty ones, many items, a large section that is stepped over, and a count of items that aren't there.
use crate::or_abort::OrAbort;
use std::alloc::{AllocError, Global};
use wasmi_module::{DecodeError, Expected, decode};
use wasmi_vectors::assert_equal;
use wasmi_vectors::logged::Logged;
use wasmi_vectors::observed::Log;

// A module of one section: its number and its size, what it begins with, then so many times the same, and its end.
fn module_of(
    alloc: Global,
    head: &[u8],
    count: u32,
    item: &[u8],
    tail: &[u8],
) -> Result<Vec<u8>, AllocError> {
    let mut bytes = Vec::new(alloc);
    bytes.extend_from_slice(b"\0asm\x01\0\0\0")?;
    bytes.extend_from_slice(head)?;
    for _ in 0..count {
        bytes.extend_from_slice(item)?;
    }
    bytes.extend_from_slice(tail)?;
    Ok(bytes)
}

#[test]
fn a_name_of_a_megabyte(rt: HostRuntime) {
    let head = b"\x02\xc9\x84\x3d\x01\xc0\x84\x3d";
    let bytes = module_of(rt.alloc(), head, 1_000_000, b"m", b"\x01f\x02\0\0").or_abort(&rt);
    let module = decode(rt.alloc(), bytes.as_slice()).or_abort(&rt);
    for import in &module.imports {
        assert_equal!(rt; (import.module.len(), import.field), (1_000_000, "f"));
    }
    assert_equal!(rt; module.imports.len(), 1);
}

#[test]
fn as_many_types_as_two_bytes_count_and_one(rt: HostRuntime) {
    let head = b"\x01\x83\x80\x0c\x80\x80\x04";
    let bytes = module_of(rt.alloc(), head, 65_536, b"\x60\0\0", b"").or_abort(&rt);
    let module = decode(rt.alloc(), bytes.as_slice()).or_abort(&rt);
    assert_equal!(rt; module.types.len(), 65_536);
}

#[test]
fn a_custom_section_of_a_megabyte(rt: HostRuntime) {
    let head = b"\0\xe0\x91\x43\x01a";
    let bytes = module_of(rt.alloc(), head, 1_099_998, b"\xff", b"\x05\x03\x01\0\x02").or_abort(
        &rt,
    );
    let module = decode(rt.alloc(), bytes.as_slice()).or_abort(&rt);
    assert_equal!(rt; module.memories.len(), 1);
}

// Of 2^32 - 1 functions, of which none follows: no memory is asked for them.
#[test]
fn items_that_are_not_there_take_no_memory(rt: HostRuntime) {
    let log = Log::new();
    let bytes = b"\0asm\x01\0\0\0\x03\x06\xff\xff\xff\xff\x0f\0";
    let error = decode(Logged::new(rt.alloc(), &log), bytes).err();
    let expected = DecodeError::Malformed {
        offset: 15,
        expected: Expected::TypeIndex,
    };
    assert_equal!(rt; (error, log.bytes() < 100), (Some(expected), true));
}

// The most pages that a memory may have, and -1 in two bytes.
#[test]
fn numbers_at_their_ends(rt: HostRuntime) {
    let bytes =
        b"\0asm\x01\0\0\0\x05\x06\x01\x01\x01\x80\x80\x04\x06\x07\x01\x7f\0\x41\xff\x7f\x0b";
    let module = decode(rt.alloc(), bytes).or_abort(&rt);
    let text = format!(in rt.alloc(); "{:?} {:?}", module.memories, module.globals).or_abort(&rt);
    assert!(rt; text.as_str().contains("max: Some(65536)") && text.as_str().contains("I32(-1)"));
}

// A module of a memory that is exported under no name, 38 names of a byte, and one more.
fn exports(alloc: Global, last: u8) -> Result<Vec<u8>, AllocError> {
    let mut bytes = Vec::new(alloc);
    bytes.extend_from_slice(b"\0asm\x01\0\0\0\x05\x03\x01\0\x02\x07\xa0\x01\x28\0\x02\0")?;
    for name in b' '..b'F' {
        bytes.extend_from_slice(&[1, name, 2, 0])?;
    }
    bytes.extend_from_slice(&[1, last, 2, 0])?;
    Ok(bytes)
}

#[test]
fn many_exports_have_names_of_their_own(rt: HostRuntime) {
    let bytes = exports(rt.alloc(), b'~').or_abort(&rt);
    let module = decode(rt.alloc(), bytes.as_slice()).or_abort(&rt);
    let mut names = module.exports.iter().map(|export| export.name);
    assert_equal!(rt; (names.next(), names.next(), names.next_back(), names.len()), (Some(""), Some(" "), Some("~"), 37));
    for last in [b' ', b'E'] {
        let bytes = exports(rt.alloc(), last).or_abort(&rt);
        let error = DecodeError::Malformed {
            offset: bytes.len(),
            expected: Expected::FreshName,
        };
        assert_equal!(rt; decode(rt.alloc(), bytes.as_slice()).err(), Some(error));
    }
}
