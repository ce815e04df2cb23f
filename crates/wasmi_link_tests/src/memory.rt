//! Memory, and files that are no modules.
use crate::modules::{CONTROL, FIRST_TWO, SELF};
use crate::or_abort::OrAbort;
use wasmi_arena::ArenaError;
use wasmi_link_lib::{File, LinkError, link};
use wasmi_module::{DecodeError, Expected};
use wasmi_vectors::assert_equal;
use wasmi_vectors::logged::Logged;
use wasmi_vectors::observed::Log;

const TEXT: &str = "\
    self: func self.f () -> (): self\n\
    self: memory self.loop 1..: missing\n\
    self: func two.f () -> i32: two\n\
    self: global a\\u{a}b.\\u{0}\\u{1f} \\u{7f}\\u{80}\\u{9f}\u{a0}\u{e9}:  mut f32: missing\n\
    two: func self.again () -> (): self\n\
    3 modules, 2 types of 4, 9 names, 5 imports: 3 found, 2 missing, 0 differs\n";

// A call that is refused memory fails, and the call again gives the report.
#[test]
fn each_request_is_refused_in_turn(rt: HostRuntime) {
    let files = [
        File {
            path: "self.wasm",
            bytes: SELF,
        },
        File {
            path: "two.wasm",
            bytes: FIRST_TWO,
        },
        File {
            path: "control.wasm",
            bytes: CONTROL,
        },
    ];
    let mut refused = 0u64;
    for nth in 1..200 {
        let log = Log::new();
        {
            let heap = Logged::new(rt.alloc(), &log);
            log.refuse_once(nth);
            if let Err(error) = link(heap, &files) {
                assert_equal!(rt; error, LinkError::Refused(ArenaError::OutOfSystemMemory), at nth);
                refused = refused.wrapping_add(1);
            }
            log.refuse_none();
            let outcome = link(heap, &files).or_abort(&rt);
            assert_equal!(rt; outcome.text.as_str(), TEXT, at nth);
        }
        assert_equal!(rt; log.amiss(), 0, at nth);
    }
    // Not each request that comes is one that a call fails without, and 200 are more than come.
    assert_equal!(rt; 20 < refused && refused < 190, true, at refused);
}

#[test]
fn the_first_file_that_is_no_module(rt: HostRuntime) {
    let files = [
        File {
            path: "libs/self.wasm",
            bytes: SELF,
        },
        File {
            path: "libs/two.wasm",
            bytes: b"\0asm\x01\0\0\0\x02\x05\x01\0\0\x04\0",
        },
        File {
            path: "three.wasm",
            bytes: b"",
        },
    ];
    let malformed = DecodeError::Malformed {
        offset: 13,
        expected: Expected::Kind,
    };
    let error = LinkError::NotAModule(1, malformed);
    assert_equal!(rt; link(rt.alloc(), &files).err(), Some(error));
    let text = format!(in rt.alloc();
        "{error}; {}",
        LinkError::Refused(ArenaError::OutOfSystemMemory)
    );
    assert_equal!(rt; text.or_abort(&rt).as_str(), "file 1: offset 13: \
        expected the byte 00, 01, 02 or 03 of a kind; ran out of system memory");
}
