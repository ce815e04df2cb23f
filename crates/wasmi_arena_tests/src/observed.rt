//! The allocator of the tests: it counts and refuses what it says.
use std::ptr::null_mut;
use wasmi_vectors::assert_equal;
use wasmi_vectors::observed::{Log, Observed};

#[test]
fn all_requests_are_refused_from_one_on(rt: HostRuntime) {
    let log = Log::new();
    {
        let handle = Observed::new(rt.alloc(), &log);
        let first = Box::new(handle.clone().expect(&rt, ""), 1u64).expect(&rt, "");
        log.refuse_from(2);
        let second = Box::new(handle.clone().expect(&rt, ""), 2u32).expect(&rt, "");
        assert!(rt; Box::new(handle.clone().expect(&rt, ""), 3u64).is_err());
        assert!(rt; Box::new(handle.clone().expect(&rt, ""), 4u64).is_err());
        log.refuse_none();
        let fifth = Box::new(handle, 5u64).expect(&rt, "");
        assert_equal!(rt; (*first, *second, *fifth, log.returned()), (1, 2, 5, 0));
    }
    assert_equal!(rt; (log.requests(), log.bytes(), log.given(), log.amiss()), (5, 36, 3, 0));
}

// Two handles are told of one block, which the second is said to have taken back.
#[test]
fn a_block_that_comes_to_another_handle_is_misplaced(rt: HostRuntime) {
    let log = Log::new();
    let one = Observed::new(rt.alloc(), &log);
    let other = one.clone().expect(&rt, "");
    assert!(rt; one.gives(Ok(null_mut())).is_ok());
    other.takes_back();
    assert_equal!(rt; log.misplaced(), 1);
    drop(other);
    assert_equal!(rt; log.misplaced(), 1);
    drop(one);
    assert_equal!(rt; (log.given(), log.returned(), log.misplaced()), (1, 1, 2));
}
