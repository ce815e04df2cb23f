//! Readers and writers of a script that go byte by byte or fail.
use std::io::ErrorKind;
use wasmi_script_lib::{ScriptError, exit_status, run};
use wasmi_vectors::assert_equal;
use wasmi_vectors::streams::{Fault, Sink, Source, Trickle};

// The reader gives one byte a read. It fails at no read, the first, the second, or that of the end.
#[test]
fn a_read_fails(rt: HostRuntime) {
    for (text, fails_at, wanted, written, status) in [
        (
            "a x\ng 0\nlast",
            0,
            Ok(()),
            "key 0\ntext x\nbad line 3\n",
            0,
        ),
        ("", 0, Ok(()), "", 0),
        ("a x\n", 1, Err(ScriptError::ReadFailed), "", 1),
        ("a x\n", 2, Err(ScriptError::ReadFailed), "", 1),
        ("a x\n", 5, Err(ScriptError::ReadFailed), "", 1),
        ("a x\n", 6, Ok(()), "key 0\n", 0),
    ] {
        let mut source = Source::new(text.as_bytes(), fails_at);
        let mut sink = Sink::new(rt.alloc(), 0);
        let outcome = run(rt.alloc(), &mut source, &mut sink);
        assert_equal!(rt; (outcome, exit_status(outcome)), (wanted, status), at fails_at);
        assert_equal!(rt; sink.bytes.as_slice(), written.as_bytes(), at fails_at);
    }
}

#[test]
fn bytes_that_are_no_text(rt: HostRuntime) {
    let mut source = Source::new(b"\xff\n", 0);
    let mut sink = Sink::new(rt.alloc(), 0);
    let outcome = run(rt.alloc(), &mut source, &mut sink);
    assert_equal!(rt; (outcome, exit_status(outcome)), (Err(ScriptError::NotUtf8), 2));
    assert!(rt; sink.bytes.is_empty());
}

// The writer takes one byte a write. It fails at the first, the second, the fourth, or when it is flushed.
#[test]
fn a_write_fails(rt: HostRuntime) {
    for (text, fails_at, fault, flush_fails, written) in [
        ("a x\n", 1, Fault::Fails, false, ""),
        ("a x\n", 2, Fault::Fails, false, "k"),
        ("a x\n", 4, Fault::Fails, false, "key"),
        ("a x\n", 4, Fault::TakesNothing, false, "key"),
        ("a x\n", 0, Fault::Fails, true, "key 0\n"),
        ("", 0, Fault::Fails, true, ""),
    ] {
        let mut source = Source::new(text.as_bytes(), 0);
        let mut sink = Sink::new(rt.alloc(), fails_at);
        sink.fault = fault;
        sink.flush_fails = flush_fails;
        let outcome = run(rt.alloc(), &mut source, &mut sink);
        let failed = (Err(ScriptError::WriteFailed), 1);
        assert_equal!(rt; (outcome, exit_status(outcome)), failed, at fails_at);
        assert_equal!(rt; sink.bytes.as_slice(), written.as_bytes(), at fails_at);
    }
}

// An interrupted read ends the program. A read has room for a page at least.
#[test]
fn reads_are_large_and_not_tried_again(rt: HostRuntime) {
    let mut source = Source::new(b"a x\n", 2);
    source.error = ErrorKind::Interrupted;
    let mut sink = Sink::new(rt.alloc(), 0);
    let outcome = run(rt.alloc(), &mut source, &mut sink);
    assert_equal!(rt; (outcome, source.reads), (Err(ScriptError::ReadFailed), 2));
    assert!(rt; source.least_room >= 4096);
}

#[test]
fn many_reads(rt: HostRuntime) {
    let mut source = Trickle { left: 1_048_577 };
    let mut sink = Sink::new(rt.alloc(), 0);
    assert_equal!(rt; run(rt.alloc(), &mut source, &mut sink), Ok(()));
    assert_equal!(rt; (source.left, sink.bytes.as_slice()), (0, b"bad line 1\n".as_slice()));
}
