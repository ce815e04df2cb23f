//! A binary search.
ghost use Rattle.std.specs.Prelude.{◌≡◌, ℕ, ◌+◌, ◌-◌, ◌<◌, ◌≤◌, ◌^◌, List, length, IfErr, Some, slice_get};
ghost use Rattle.std.specs.declared.cmp.Ordering.{Ordering};
ghost use Rattle.wasmi_interner.specs.BinaryDigits.{digits};
ghost use Rattle.wasmi_interner.specs.Search.{IsSearchable, IsFound};

use std::cmp::Ordering;

/// A list that [`search`] looks into: it tells how the item at a place compares with what is sought.
pub trait Probe {
    /// How each item compares with what is sought, from the first to the last.
    ghost orders: { Self → List Ordering };

    /// How many times an item was looked at.
    ghost looks: { Self → ℕ };

    /// Compares the item at a place with what is sought: `Less` where the item is less.
    fn look(&mut self, at: usize) -> Ordering
        requires within { at < length (orders self.old) }
        requires countable { looks self.old < 2 ^ 64 - 1 }
        ensures order { slice_get (orders self.old) at ≡ Some result }
        ensures kept { orders self.new ≡ orders self.old }
        ensures counted { looks self.new ≡ looks self.old + 1 };
}

/// A binary search in a list of `len` items, without allocation.
///
/// Returns the place of the item that is `Equal`, or as an error the place where it belongs: the number
/// of items that are `Less`. It looks at most as often as `len` has binary digits, so ten times at
/// 1000 items. Where nothing is `Equal` it looks at most once less often than `len + 1` has, so nine times at
/// least.
pub fn search<P: Probe>(len: usize, probe: &mut P) -> Result<usize, usize>
    requires whole { len ≡ length (P.orders probe.old) }
    requires in_order { IsSearchable (P.orders probe.old) }
    requires countable { P.looks probe.old ≤ 2 ^ 63 }
    ensures found { IsFound (P.orders probe.old) result }
    ensures kept { P.orders probe.new ≡ P.orders probe.old }
    ensures few_looks { P.looks probe.new ≤ P.looks probe.old + digits len }
    ensures looked { 0 < len → P.looks probe.old < P.looks probe.new }
    ensures many_looks { IfErr result (λ _. P.looks probe.old + digits (len + 1) ≤ P.looks probe.new + 1) }
{
    let mut low = 0;
    let mut left = len;
    while 0 < left {
        let half = half_of(left);
        match probe.look(low + half) {
            Ordering::Less => low += left - half,
            Ordering::Equal => return Ok(low + half),
            Ordering::Greater => {}
        }
        left = half;
    }
    Err(low)
}

// The greatest number that is less than another one, and one less than a power of two. Each look into so many places
// leaves as many on both sides, so a search of them that finds nothing takes as many looks wherever the item belongs.
#[inline]
fn half_of(len: usize) -> usize
    requires { 0 < len }
    ensures less { result < len }
    ensures half { len ≤ result + result + 1 }
    ensures digit { digits result + 1 ≤ digits len }
{
    (1 << len.ilog2()) - 1
}
