//! A key that counts its comparisons, hashes, clones and drops.
ghost use Rattle.std.specs.Prelude.{Some, refl};
ghost use Rattle.std.specs.Cmp.{on_equiv, on_per, on_po, on_total, partial_equiv_from_equiv, partial_order_from_total};
ghost use Rattle.std.specs.Cmp.Rules.{hashing};
ghost use Rattle.std.specs.Hash as fed;
ghost use Rattle.std.specs.Ordering.{eq_by_cmp, nat_cmp};
ghost use Rattle.std.proofs.Common.{rules};
ghost use Rattle.std.proofs.lemmas.Cmp.{eq_by_cmp_equiv, nat_cmp_total};

use std::alloc::AllocError;
use std::cell::Cell;
use std::cmp::Ordering;
use std::hash::{Hash, Hasher};

/// How often the keys that note it here were compared, hashed, cloned and dropped.
#[derive(Drop)]
pub struct Notes {
    compared: Cell<u64>,
    hashed: Cell<u64>,
    cloned: Cell<u64>,
    dropped: Cell<u64>,
}

impl Notes {
    pub fn new() -> Notes {
        Notes {
            compared: Cell::new(0),
            hashed: Cell::new(0),
            cloned: Cell::new(0),
            dropped: Cell::new(0),
        }
    }

    /// The number of comparisons since it was asked for last.
    pub fn compared(&self) -> u64 {
        self.compared.replace(0)
    }

    /// The number of hashes since it was asked for last.
    pub fn hashed(&self) -> u64 {
        self.hashed.replace(0)
    }

    /// The number of clones since it was asked for last.
    pub fn cloned(&self) -> u64 {
        self.cloned.replace(0)
    }

    /// The number of keys dropped since it was asked for last.
    pub fn dropped(&self) -> u64 {
        self.dropped.replace(0)
    }
}

fn count(cell: &Cell<u64>) {
    cell.set(cell.get().wrapping_add(1));
}

/// A number that notes its comparisons, its hashes, its clones and its drop.
pub struct Noted<'a> {
    number: u32,
    notes: &'a Notes,
}

impl<'a> Noted<'a> {
    pub fn new(number: u32, notes: &'a Notes) -> Noted<'a> {
        Noted { number, notes }
    }
}

impl Clone for Noted<'_> {
    fn clone(&self) -> Result<Self, AllocError> {
        count(&self.notes.cloned);
        Ok(Noted::new(self.number, self.notes))
    }
}

impl Drop for Noted<'_> {
    fn drop(self) {
        count(&self.notes.dropped);
        let Noted {
            number: _,
            notes: _,
        } = self;
    }
}

impl PartialEq for Noted<'_> {
    ghost eq = { λ a b. eq_by_cmp nat_cmp a.number b.number };

    ghost laws = { on_per (λ x. x.number) (partial_equiv_from_equiv (eq_by_cmp_equiv nat_cmp_total)) };

    fn eq(&self, other: &Self) -> bool {
        self.cmp(other) == Ordering::Equal
    }
}

impl Eq for Noted<'_> {
    ghost laws = { on_equiv (λ x. x.number) (eq_by_cmp_equiv nat_cmp_total) };
}

impl PartialOrd for Noted<'_> {
    ghost partial_cmp = { λ a b. Some (nat_cmp a.number b.number) };

    ghost laws = { on_po (λ x. x.number) (partial_order_from_total nat_cmp_total) };

    fn partial_cmp(&self, other: &Self) -> Option<Ordering> {
        Some(self.cmp(other))
    }
}

impl Ord for Noted<'_> {
    ghost cmp = { λ a b. nat_cmp a.number b.number };

    ghost total = { on_total (λ x. x.number) nat_cmp_total };

    ghost matches_partial_cmp = { λ a b. refl };

    ghost matches_eq = { λ a b. refl };

    fn cmp(&self, other: &Self) -> Ordering {
        count(&self.notes.compared);
        self.number.cmp(&other.number)
    }
}

impl Hash for Noted<'_> {
    ghost hash_input = { λ x. fed.u32 x.number };

    ghost respects_eq = { Prim.search (hashing, rules) };

    fn hash<H: Hasher>(&self, state: &mut H) {
        count(&self.notes.hashed);
        self.number.hash(state);
    }
}
