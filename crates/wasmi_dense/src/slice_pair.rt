//! Two items of a slice at once.
ghost use Rattle.std.specs.Prelude.{◌≡◌, ◌≢◌, ◌<◌, length, slice_get, slice_set, Some};
ghost use Rattle.std.specs.Borrow.{sem, LendsBoth, Array};

// Two items of a slice, of which the first lies before the second.
fn pair_in_order<T>(items: &mut [T], low: usize, high: usize) -> (&mut T, &mut T)
    requires order { low < high }
    requires in_bounds { high < length items.old }
    ensures* writes_back { sem 𝓛 (LendsBoth (Array T.row 0) T.row T.row items.entry result
        (λ x y. slice_set (slice_set items.old low x) high y)) }
    ensures first { slice_get items.old low ≡ Some result.0.now }
    ensures second { slice_get items.old high ≡ Some result.1.now }
{
    let (front, back) = items.split_at_mut(high);
    (&mut front[low], &mut back[0])
}

// Two items of a slice, in the order of their places. Constant time.
pub(crate) fn pair_within<T>(items: &mut [T], one: usize, other: usize) -> (&mut T, &mut T)
    requires apart { one ≢ other }
    requires first { one < length items.old }
    requires second { other < length items.old }
    ensures* writes_back { sem 𝓛 (LendsBoth (Array T.row 0) T.row T.row items.entry result
        (λ x y. slice_set (slice_set items.old one x) other y)) }
    ensures first { slice_get items.old one ≡ Some result.0.now }
    ensures second { slice_get items.old other ≡ Some result.1.now }
{
    if one < other {
        pair_in_order(items, one, other)
    } else {
        let (low, high) = pair_in_order(items, other, one);
        (high, low)
    }
}
