//! Many entries: each is found, cloned, and visited once by a closure that keeps a state.
use crate::refused::holds;
use crate::table::{Call, Done, Hash, HashOfSet, Made, Make, More, Number, Tree, TreeOfSet};
use std::alloc::Global;
use std::process::Abort;
use wasmi_vectors::assert_equal;
use wasmi_vectors::observed::{Log, Observed};

const MANY: u32 = 131_072;

// The keys from 0 on go in by three calls, and `retain` takes 7 out. Whether it went over ascending keys.
fn ascends<'l, T: Made<'l>>(rt: &impl Abort, alloc: Global, log: &'l Log, second: Call) -> bool {
    let keys: Vec<u32> = (MANY / 2..MANY).collect(alloc).expect(rt, "");
    let more = More::new(&keys);
    let mut table = T::empty(Observed::new(alloc, log));
    for key in 0..MANY / 2 {
        let call = if key < MANY / 4 { Call::Insert } else { second };
        table.ask(call, key, key, &more).expect(rt, "");
    }
    assert_equal!(*rt; table.ask(Call::Extend, 0, 0, &more), Ok(Done));
    let clone = table.make(&table, Observed::new(alloc, log), Make::Clone, &more);
    let mut copy = clone.expect(rt, "");
    let all = [(0, MANY), (0, 0)];
    assert!(*rt; holds(&mut table, all) && holds(&mut copy, all));
    more.counted();
    assert_equal!(*rt; table.ask(Call::Retain, 7, 0, &more), Ok(Done));
    assert_equal!(*rt; (more.counted(), table.ask(Call::Len, 0, 0, &more)), (131_072, Ok(Number(131_071))));
    let (sum, is_ascending) = more.visited();
    assert_equal!(*rt; sum, 8_589_869_056);
    is_ascending
}

#[test]
fn many_keys_are_found_and_visited_once(rt: HostRuntime) {
    let log = Log::new();
    assert!(rt; ascends::<Tree<'_>>(&rt, rt.alloc(), &log, Call::OrInsert));
    assert!(rt; ascends::<TreeOfSet<'_>>(&rt, rt.alloc(), &log, Call::Replace));
    ascends::<Hash<'_>>(&rt, rt.alloc(), &log, Call::OrInsert);
    ascends::<HashOfSet<'_>>(&rt, rt.alloc(), &log, Call::Replace);
    assert_equal!(rt; log.amiss(), 0);
}
