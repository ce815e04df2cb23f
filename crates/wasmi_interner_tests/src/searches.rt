//! Binary searches, in lists that are too long to be kept.
ghost use Rattle.std.specs.Prelude.{◌+◌, ◌<◌, ◌^◌};

use std::cmp::Ordering;
use wasmi_interner::{Probe, Steps, search};
use wasmi_vectors::assert_equal;

// A sorted list: so many items are less than what is searched, then it may be there, and so many are
// greater.
#[derive(Drop)]
struct Sorted {
    less: usize,
    is_there: bool,
    greater: usize,
    looks: Steps,
}

impl Probe for Sorted {
    ghost use Rattle.wasmi_interner.specs.Search.{sorted_orders};

    ghost orders = { λ sorted. sorted_orders sorted.less sorted.is_there sorted.greater };

    ghost looks = { λ sorted. sorted.looks };

    fn look(&mut self, at: usize) -> Ordering {
        self.looks.tick();
        if at < self.less {
            Ordering::Less
        } else if self.is_there && at == self.less {
            Ordering::Equal
        } else {
            Ordering::Greater
        }
    }
}

// What a search in such a list answers, and how often it looks.
fn searched(less: usize, is_there: bool, greater: usize) -> (Result<usize, usize>, u64)
    requires { less + greater < 2 ^ 63 }
{
    let mut sorted = Sorted {
        less,
        is_there,
        greater,
        looks: Steps::new(),
    };
    let found = search(less + usize::from(is_there) + greater, &mut sorted);
    (found, sorted.looks.count())
}

#[test]
fn what_is_searched_is_found_in_few_looks(rt: HostRuntime) {
    // So many items less, whether it is there, so many greater, and the fewest and the most looks.
    let places: [(u32, bool, u32, u64, u64); 6] = [
        (0, false, 0, 0, 0),
        (0, true, 0, 1, 1),
        (3, true, 3, 1, 3),
        (617, false, 383, 1, 10),
        (617, true, 382, 1, 10),
        (4294967295, true, 0, 1, 33),
    ];
    for (less, is_there, greater, fewest, most) in places {
        let less = less as usize;
        let (found, looks) = searched(less, is_there, greater as usize);
        let place = if is_there { Ok(less) } else { Err(less) };
        assert_equal!(rt; found, place, at (less, greater));
        assert!(rt; fewest <= looks && looks <= most, "{looks} looks");
    }
}
