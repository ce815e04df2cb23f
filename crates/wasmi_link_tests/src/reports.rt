//! Reports, as a whole.
use crate::modules::{ASKS, CONTROL, FIRST_TWO, GIVES, SECOND_TWO, SELF};
use crate::or_abort::OrAbort;
use std::alloc::Global;
use std::process::Abort;
use wasmi_link_lib::{File, link};
use wasmi_vectors::assert_equal;

// Compares the report on these files, by path and bytes, and its exit status.
fn reported(rt: &impl Abort, alloc: Global, files: &[(&str, &[u8])], text: &str, status: u8) {
    let mut inputs = Vec::new(alloc);
    for (path, bytes) in files {
        inputs
            .push(File {
                path: *path,
                bytes: *bytes,
            })
            .or_abort(rt);
    }
    let outcome = link(alloc, &inputs).or_abort(rt);
    assert_equal!(rt; outcome.text.as_str(), text);
    assert_equal!(rt; outcome.status, status);
}

// Each kind of item, with a type that matches, with others, and with another kind; no such export, no such module.
#[test]
fn kinds_types_and_limits(rt: HostRuntime) {
    let text = "\
        asks: func gives.f (i32 i64) -> f32: gives\n\
        asks: func gives.f (i64 i32) -> f32: gives has (i32 i64) -> f32\n\
        asks: func gives.f (i32 i64) -> f64: gives has (i32 i64) -> f32\n\
        asks: func gives.two () -> (i32 f64): gives\n\
        asks: func gives.two () -> i32: gives has () -> (i32 f64)\n\
        asks: func gives.none () -> (): gives\n\
        asks: func gives.none () -> externref: gives has () -> ()\n\
        asks: memory gives.m2 2..: gives\n\
        asks: memory gives.m33 2..: gives\n\
        asks: memory gives.m1 2..: gives has 1..\n\
        asks: memory gives.m24 2..4: gives\n\
        asks: memory gives.m33 2..4: gives\n\
        asks: memory gives.m25 2..4: gives has 2..5\n\
        asks: memory gives.m2 2..4: gives has 2..\n\
        asks: memory gives.m14 2..4: gives has 1..4\n\
        asks: table gives.t funcref 1..1: gives\n\
        asks: table gives.t funcref 0..: gives\n\
        asks: table gives.t funcref 2..2: gives has funcref 1..1\n\
        asks: table gives.t externref 1..1: gives has funcref 1..1\n\
        asks: table gives.x externref 4..8: gives\n\
        asks: table gives.x externref 4..7: gives has externref 4..8\n\
        asks: global gives.g i32: gives\n\
        asks: global gives.g mut i32: gives has i32\n\
        asks: global gives.g i64: gives has i32\n\
        asks: global gives.v mut v128: gives\n\
        asks: global gives.v v128: gives has mut v128\n\
        asks: func gives.m2 () -> (): gives has memory 2..\n\
        asks: table gives.v funcref 0..: gives has global mut v128\n\
        asks: memory gives.none 0..: gives has func () -> ()\n\
        asks: global gives.x mut funcref: gives has table externref 4..8\n\
        asks: func gives.absent (f32 f64 v128 funcref) -> externref: missing\n\
        asks: memory nobody.f 1..4: missing\n\
        asks: global nobody.f externref: missing\n\
        2 modules, 8 types of 11, 17 names, 33 imports: 12 found, 3 missing, 18 differs\n";
    let files = [("asks.wasm", ASKS), ("libs/gives.wasm", GIVES)];
    reported(&rt, rt.alloc(), &files, text, 1);
}

// A module asks itself; another one exports what it imports; of two modules of one name the first counts, and both ask.
// Names have control characters, a colon, a space and others.
#[test]
fn modules_of_one_name_and_names_with_control_characters(rt: HostRuntime) {
    let files = [
        ("self.wasm", SELF),
        ("first/two.wasm", FIRST_TWO),
        ("second/two.wasm", SECOND_TWO),
        ("a\nb.wasm", CONTROL),
    ];
    let text = "\
        self: func self.f () -> (): self\n\
        self: memory self.loop 1..: missing\n\
        self: func two.f () -> i32: two\n\
        self: global a\\u{a}b.\\u{0}\\u{1f} \\u{7f}\\u{80}\\u{9f}\u{a0}\u{e9}:  mut f32: a\\u{a}b\n\
        two: func self.again () -> (): self\n\
        4 modules, 3 types of 5, 8 names, 5 imports: 4 found, 1 missing, 0 differs\n";
    reported(&rt, rt.alloc(), &files, text, 1);
}

// The other order: of two modules of one name the other one comes first. A module without anything, and no module.
#[test]
fn small_reports(rt: HostRuntime) {
    let empty = b"\0asm\x01\0\0\0".as_slice();
    let swapped = [("second/two.wasm", SECOND_TWO), ("two", FIRST_TWO)];
    let alone = [("/usr/lib/x.wasm", empty)];
    let cases = [
        (
            &swapped[..],
            "two: func self.again () -> (): missing\n\
            2 modules, 3 types of 3, 5 names, 1 imports: 0 found, 1 missing, 0 differs\n",
            1,
        ),
        (
            &alone[..],
            "1 modules, 0 types of 0, 1 names, 0 imports: 0 found, 0 missing, 0 differs\n",
            0,
        ),
        (
            &alone[..0],
            "0 modules, 0 types of 0, 0 names, 0 imports: 0 found, 0 missing, 0 differs\n",
            0,
        ),
    ];
    for (files, text, status) in cases {
        reported(&rt, rt.alloc(), files, text, status);
    }
}
