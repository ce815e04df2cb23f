//! A loan of the items in a run of buckets.
ghost use Rattle.std.specs.Prelude.{List, Option};
ghost use base.Fml.{GName, ftrue};
ghost use Rattle.wasmi_arena.specs.Bucket.{Bucket};
ghost use Rattle.wasmi_arena.specs.inner.Loan.{loan_owns};

mod pairs;
mod parts;

use crate::Bucket;
use std::alloc::Allocator;
use std::marker::{Model, PhantomData};

/// The right to write the items in a run of buckets that lie side by side, and nothing else of them.
///
/// Whatever is written, each bucket keeps its slots and its number of items, so the vector agrees again
/// when the loan ends.
pub struct ItemsLoan<'a, T, A: Allocator> {
    pub(crate) start: *mut Option<Bucket<T, A>>,
    pub(crate) marker: PhantomData<&'a mut Option<Bucket<T, A>>>,
    // The buckets as they were lent.
    ghost buckets: { List (Option (Bucket T)) },
    // The name of the loan, and that of the first one, which it was cut off.
    ghost name: { GName },
    ghost whole: { GName },
}

impl<'a, T, A: Allocator> Model for ItemsLoan<'a, T, A> {
    ghost also_owns = { λ l. loan_owns T.row A.row A.Allocator 'a l.start l.buckets l.name };

    ghost also_shares = { λ _ _ _. ftrue };
}

impl<'a, T, A: Allocator> Drop for ItemsLoan<'a, T, A> {
    fn drop(self) {
        let ItemsLoan {
            start: _,
            marker: _,
        } = self;
    }
}
