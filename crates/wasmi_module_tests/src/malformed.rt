//! Bytes that are no module: where that shows, and what was expected there.
use std::alloc::Global;
use std::process::Abort;
use wasmi_module::{DecodeError, Expected, decode};
use wasmi_vectors::assert_equal;

// Each of these is refused there, for that.
fn refused(rt: &impl Abort, alloc: Global, cases: &[(&[u8], usize, Expected)]) {
    for (bytes, offset, expected) in cases {
        let error = DecodeError::Malformed {
            offset: *offset,
            expected: *expected,
        };
        assert_equal!(rt; decode(alloc, bytes).err(), Some(error), at bytes);
    }
}

#[test]
fn headers_and_sections(rt: HostRuntime) {
    refused(
        &rt,
        rt.alloc(),
        &[
            (b"", 0, Expected::Bytes),
            (b"\0as", 0, Expected::Bytes),
            (b"\0asn\x01\0\0\0", 0, Expected::Magic),
            (b"\0asm\x01\0\0", 4, Expected::Bytes),
            (b"\0asm\x02\0\0\0", 4, Expected::Version),
            // A section that isn't known, one behind a later one, one twice.
            (b"\0asm\x01\0\0\0\x0d\0", 8, Expected::Section),
            (
                b"\0asm\x01\0\0\0\x02\x01\0\x01\x01\0",
                11,
                Expected::Section,
            ),
            (
                b"\0asm\x01\0\0\0\x01\x01\0\x01\x01\0",
                11,
                Expected::Section,
            ),
            (
                b"\0asm\x01\0\0\0\x0a\x01\0\x0c\x01\0",
                11,
                Expected::Section,
            ),
            (
                b"\0asm\x01\0\0\0\x0b\x01\0\x07\x01\0",
                11,
                Expected::Section,
            ),
            // Too much in a section, too little, and a section that ends behind the bytes.
            (b"\0asm\x01\0\0\0\x01\x02\0\0", 11, Expected::SectionEnd),
            (b"\0asm\x01\0\0\0\x01\x01\x01\x60\0\0", 11, Expected::Byte),
            (b"\0asm\x01\0\0\0\x01\x05\0", 10, Expected::Bytes),
            (b"\0asm\x01\0\0\0\0\x02\0", 10, Expected::Bytes),
            (b"\0asm\x01\0\0\0\0", 9, Expected::Byte),
        ],
    );
}

#[test]
fn numbers(rt: HostRuntime) {
    refused(
        &rt,
        rt.alloc(),
        &[
            // The fifth byte has a bit too many, or isn't the last.
            (
                b"\0asm\x01\0\0\0\x01\x80\x80\x80\x80\x10",
                13,
                Expected::Number,
            ),
            (
                b"\0asm\x01\0\0\0\x01\x80\x80\x80\x80\x80\0",
                13,
                Expected::Number,
            ),
            // The fifth byte of 2^31, of -2^31 - 1, and one that isn't the last.
            (
                b"\0asm\x01\0\0\0\x06\x0a\x01\x7f\0A\x80\x80\x80\x80\x08\x0b",
                18,
                Expected::Number,
            ),
            (
                b"\0asm\x01\0\0\0\x06\x0a\x01\x7f\0A\xff\xff\xff\xff\x77\x0b",
                18,
                Expected::Number,
            ),
            (
                b"\0asm\x01\0\0\0\x06\x0b\x01\x7f\0A\x80\x80\x80\x80\x80\0\x0b",
                18,
                Expected::Number,
            ),
            // The tenth byte of 2^63, and of -2^63 - 1.
            (
                b"\0asm\x01\0\0\0\x06\x0f\x01~\0B\x80\x80\x80\x80\x80\x80\x80\x80\x80\x01\x0b",
                23,
                Expected::Number,
            ),
            (
                b"\0asm\x01\0\0\0\x06\x0f\x01~\0B\xff\xff\xff\xff\xff\xff\xff\xff\xff\x7e\x0b",
                23,
                Expected::Number,
            ),
        ],
    );
}

#[test]
fn names_and_types(rt: HostRuntime) {
    refused(
        &rt,
        rt.alloc(),
        &[
            (
                b"\0asm\x01\0\0\0\x02\x06\x01\x01\xff\0\0\0",
                12,
                Expected::Name,
            ),
            (
                b"\0asm\x01\0\0\0\x02\x06\x01\x02\xc3a\0\0",
                12,
                Expected::Name,
            ),
            (
                b"\0asm\x01\0\0\0\x01\x04\x01\x5f\0\0",
                11,
                Expected::FuncType,
            ),
            (
                b"\0asm\x01\0\0\0\x01\x05\x01\x60\x01\x7a\0",
                13,
                Expected::ValType,
            ),
            (
                b"\0asm\x01\0\0\0\x04\x04\x01\x7f\0\0",
                11,
                Expected::RefType,
            ),
            (
                b"\0asm\x01\0\0\0\x04\x04\x01\x70\x02\0",
                12,
                Expected::Limits,
            ),
            (
                b"\0asm\x01\0\0\0\x04\x05\x01\x70\x01\x02\x01",
                14,
                Expected::Max,
            ),
            (
                b"\0asm\x01\0\0\0\x05\x05\x01\0\x81\x80\x04",
                11,
                Expected::Pages,
            ),
            (
                b"\0asm\x01\0\0\0\x05\x06\x01\x01\0\x81\x80\x04",
                11,
                Expected::Pages,
            ),
            (
                b"\0asm\x01\0\0\0\x06\x06\x01\x7f\x02A\0\x0b",
                12,
                Expected::Mutability,
            ),
            (b"\0asm\x01\0\0\0\x02\x05\x01\0\0\x04\0", 13, Expected::Kind),
            (b"\0asm\x01\0\0\0\x07\x04\x01\0\x04\0", 12, Expected::Kind),
            (
                b"\0asm\x01\0\0\0\x06\x05\x01\x7f\0\x01\x0b",
                13,
                Expected::Constant,
            ),
            (
                b"\0asm\x01\0\0\0\x06\x07\x01\x7b\0\xfd\x0d\0\x0b",
                14,
                Expected::Constant,
            ),
            (
                b"\0asm\x01\0\0\0\x06\x06\x01\x7f\0A\0\x0c",
                15,
                Expected::End,
            ),
        ],
    );
}

#[test]
fn indices_and_names_of_exports(rt: HostRuntime) {
    refused(
        &rt,
        rt.alloc(),
        &[
            (
                b"\0asm\x01\0\0\0\x02\x05\x01\0\0\0\0",
                13,
                Expected::TypeIndex,
            ),
            (b"\0asm\x01\0\0\0\x03\x02\x01\0", 11, Expected::TypeIndex),
            (
                b"\0asm\x01\0\0\0\x06\x06\x01\x7f\0#\x01\x0b",
                16,
                Expected::InitIndex,
            ),
            (
                b"\0asm\x01\0\0\0\x06\x06\x01\x70\0\xd2\0\x0b",
                16,
                Expected::InitIndex,
            ),
            (
                b"\0asm\x01\0\0\0\x07\x04\x01\0\0\0",
                13,
                Expected::ItemIndex,
            ),
            (
                b"\0asm\x01\0\0\0\x05\x03\x01\0\0\x07\x04\x01\0\x02\x01",
                18,
                Expected::ItemIndex,
            ),
            (
                b"\0asm\x01\0\0\0\x05\x03\x01\0\0\x07\x04\x01\0\x03\0",
                18,
                Expected::ItemIndex,
            ),
            (
                b"\0asm\x01\0\0\0\x05\x03\x01\0\0\x07\x09\x02\x01a\x02\0\x01a\x02\0",
                24,
                Expected::FreshName,
            ),
        ],
    );
}
