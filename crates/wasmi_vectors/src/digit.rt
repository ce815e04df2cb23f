//! Keys that are equal and not the same.
ghost use Rattle.std.specs.Prelude.{Some, refl};
ghost use Rattle.std.specs.Cmp.{on_equiv, on_per, on_po, on_total, partial_equiv_from_equiv, partial_order_from_total};
ghost use Rattle.std.specs.Cmp.Rules.{hashing};
ghost use Rattle.std.specs.Hash as fed;
ghost use Rattle.std.specs.Iterator.{IsFinite};
ghost use Rattle.std.specs.Ordering.{eq_by_cmp, nat_cmp};
ghost use Rattle.std.proofs.Common.{rules};
ghost use Rattle.std.proofs.lemmas.Cmp.{eq_by_cmp_equiv, nat_cmp_total};

use std::cmp::Ordering;
use std::hash::{Hash, Hasher};

/// A place of a number with a digit in it, which equals any digit in the same place.
#[derive(Clone, Copy)]
pub struct Digit {
    place: u32,
    digit: u32,
}

impl PartialEq for Digit {
    ghost eq = { λ a b. eq_by_cmp nat_cmp a.place b.place };

    ghost laws = { on_per (λ x. x.place) (partial_equiv_from_equiv (eq_by_cmp_equiv nat_cmp_total)) };

    fn eq(&self, other: &Self) -> bool {
        self.place.cmp(&other.place) == Ordering::Equal
    }
}

impl Eq for Digit {
    ghost laws = { on_equiv (λ x. x.place) (eq_by_cmp_equiv nat_cmp_total) };
}

impl PartialOrd for Digit {
    ghost partial_cmp = { λ a b. Some (nat_cmp a.place b.place) };

    ghost laws = { on_po (λ x. x.place) (partial_order_from_total nat_cmp_total) };

    fn partial_cmp(&self, other: &Self) -> Option<Ordering> {
        Some(self.cmp(other))
    }
}

impl Ord for Digit {
    ghost cmp = { λ a b. nat_cmp a.place b.place };

    ghost total = { on_total (λ x. x.place) nat_cmp_total };

    ghost matches_partial_cmp = { λ a b. refl };

    ghost matches_eq = { λ a b. refl };

    fn cmp(&self, other: &Self) -> Ordering {
        self.place.cmp(&other.place)
    }
}

impl Hash for Digit {
    ghost hash_input = { λ x. fed.u32 x.place };

    ghost respects_eq = { Prim.search (hashing, rules) };

    fn hash<H: Hasher>(&self, state: &mut H) {
        self.place.hash(state);
    }
}

/// The same digit in three places, from this one on.
pub fn three(first: u32, digit: u32) -> [Digit; 3] {
    [0, 1, 2].map(|more| Digit {
        place: first.wrapping_add(more),
        digit,
    })
}

impl Digit {
    // What it adds to a number.
    fn worth(&self) -> u32 {
        self.digit.wrapping_mul(10u32.wrapping_pow(self.place))
    }
}

/// The number that these digits make.
pub fn number<'a, I: Iterator<Item = &'a Digit>>(digits: I) -> u32
    requires { I.can_next digits × IsFinite (I.remaining digits) }
{
    let mut sum: u32 = 0;
    for digit in digits {
        sum = sum.wrapping_add(digit.worth());
    }
    sum
}
