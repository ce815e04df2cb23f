//! Many files, many types, and what a report asks for.
use crate::modules::{CONTROL, FIRST_TWO, SELF};
use crate::or_abort::OrAbort;
use std::alloc::{AllocError, Global};
use wasmi_link_lib::{File, LinkError, link};
use wasmi_module::{DecodeError, Expected};
use wasmi_vectors::assert_equal;
use wasmi_vectors::logged::Logged;
use wasmi_vectors::observed::Log;

const EMPTY: &[u8] = b"\0asm\x01\0\0\0";

// So many files of one name, of which one is no module.
fn files(alloc: Global, count: usize, other: usize) -> Result<Vec<File<'static>>, AllocError> {
    let mut files = Vec::new(alloc);
    for number in 0..count {
        files.push(File {
            path: "m.wasm",
            bytes: if number == other { b"\0asm" } else { EMPTY },
        })?;
    }
    Ok(files)
}

#[test]
fn many_files(rt: HostRuntime) {
    let all = files(rt.alloc(), 65_537, 65_537).or_abort(&rt);
    let outcome = link(rt.alloc(), &all).or_abort(&rt);
    let text = "65537 modules, 0 types of 0, 1 names, 0 imports: 0 found, 0 missing, 0 differs\n";
    assert_equal!(rt; outcome.text.as_str(), text);
    let error = DecodeError::Malformed {
        offset: 4,
        expected: Expected::Bytes,
    };
    for place in [0, 16, 299] {
        let refused = link(rt.alloc(), &files(rt.alloc(), 300, place).or_abort(&rt)).err();
        assert_equal!(rt; refused, Some(LinkError::NotAModule(place, error)), at place);
    }
}

#[test]
fn types_of_a_megabyte(rt: HostRuntime) {
    let mut bytes = Vec::new(rt.alloc());
    bytes.extend_from_slice(EMPTY).or_abort(&rt);
    // The size of the section, and how many types it has.
    bytes
        .extend_from_slice(b"\x01\x93\x8b\x40\xb0\xae\x15")
        .or_abort(&rt);
    for _ in 0..350_000 {
        bytes.extend_from_slice(b"\x60\0\0").or_abort(&rt);
    }
    let file = File {
        path: "m.wasm",
        bytes: bytes.as_slice(),
    };
    let outcome = link(rt.alloc(), &[file]).or_abort(&rt);
    let text = "1 modules, 1 types of 350000, 1 names, 0 imports: 0 found, 0 missing, 0 differs\n";
    assert_equal!(rt; outcome.text.as_str(), text);
}

// Of three small modules a few kilobytes.
#[test]
fn small_modules_ask_for_little_memory(rt: HostRuntime) {
    let log = Log::new();
    let files = [SELF, FIRST_TWO, CONTROL].map(|bytes| File {
        path: "m.wasm",
        bytes,
    });
    let lines = link(Logged::new(rt.alloc(), &log), &files)
        .or_abort(&rt)
        .text
        .len();
    assert!(rt;
        lines > 100 && log.bytes() < 8_000,
        "{lines} {}",
        log.bytes()
    );
}

// Of twice as many modules, which import as they go, twice as many bytes and some.
#[test]
fn memory_is_linear_in_the_report(rt: HostRuntime) {
    let mut bytes = [0, 0];
    for (turn, count) in [200, 400].into_iter().enumerate() {
        let mut files = Vec::new(rt.alloc());
        for _ in 0..count {
            files
                .push(File {
                    path: "m.wasm",
                    bytes: SELF,
                })
                .or_abort(&rt);
        }
        let log = Log::new();
        let outcome = link(Logged::new(rt.alloc(), &log), &files).or_abort(&rt);
        assert!(rt; outcome.text.len() > count);
        bytes[turn] = log.bytes();
    }
    assert!(rt; bytes[1] < bytes[0].saturating_mul(3), "{bytes:?}");
}
