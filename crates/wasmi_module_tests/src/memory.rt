//! Memory: each request of a decoding refused in turn.
use crate::bytes::RARE;
use crate::or_abort::OrAbort;
use wasmi_module::{DecodeError, Expected, decode};
use wasmi_vectors::assert_equal;
use wasmi_vectors::logged::Logged;
use wasmi_vectors::observed::Log;

#[test]
fn each_request_is_refused_in_turn(rt: HostRuntime) {
    let mut refused = 0u64;
    for nth in 1..40 {
        let log = Log::new();
        {
            let heap = Logged::new(rt.alloc(), &log);
            log.refuse_once(nth);
            match decode(heap, RARE) {
                Ok(module) => assert_equal!(rt; module.exports.len(), 10),
                Err(error) => {
                    assert_equal!(rt; error, DecodeError::NoMemory);
                    refused = refused.wrapping_add(1);
                }
            }
        }
        assert_equal!(rt; log.amiss(), 0);
    }
    // Six of three types, and one each of imports, functions, tables, globals and exports.
    assert_equal!(rt; refused, 11);
}

// A module without items asks for nothing, however its sections are.
#[test]
fn nothing_is_asked_for_an_empty_module(rt: HostRuntime) {
    let log = Log::new();
    {
        let heap = Logged::new(rt.alloc(), &log);
        log.refuse_from(1);
        let decoded = decode(
            heap,
            b"\0asm\x01\0\0\0\0\x02\x01a\x07\x01\0\x0a\x03\x01\x02\0",
        );
        assert_equal!(rt; decoded.is_ok(), true);
    }
    assert_equal!(rt; (log.requests(), log.amiss()), (0, 0));
}

// The names of few exports are compared each with each, those of many by a set, for which memory is asked.
#[test]
fn the_names_of_exports_differ(rt: HostRuntime) {
    for count in [16u8, 17, 31] {
        let mut bytes = Vec::new(rt.alloc());
        bytes
            .extend_from_slice(b"\0asm\x01\0\0\0\x01\x04\x01\x60\0\0\x02\x07\x01\x01m\x01f\0\0\x07")
            .or_abort(&rt);
        bytes.push(count * 4 + 1).or_abort(&rt);
        bytes.push(count).or_abort(&rt);
        for name in 0..count {
            bytes
                .extend_from_slice(&[1, b'A' + name, 0, 0])
                .or_abort(&rt);
        }
        let log = Log::new();
        let heap = Logged::new(rt.alloc(), &log);
        let exports = decode(heap, bytes.as_slice()).or_abort(&rt).exports.len();
        assert_equal!(rt; (exports, log.requests() > 3), (count as usize, count > 16));
        let last = bytes.len() - 3;
        bytes[last] = b'A';
        let error = DecodeError::Malformed {
            offset: bytes.len(),
            expected: Expected::FreshName,
        };
        assert_equal!(rt; decode(rt.alloc(), bytes.as_slice()).err(), Some(error));
    }
}
