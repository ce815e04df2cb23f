//! Texts by their lengths first.
ghost use Rattle.std.specs.Prelude.{◌≡◌, nat_eq, Some};
ghost use Rattle.std.specs.Cmp.Lexicographic.{pointwise, nat_list_eq_equiv};
ghost use Rattle.std.proofs.Common.{rules};
ghost use Rattle.wasmi_interner.specs.LenOrder.{len_cmp, text_of};
ghost use Rattle.wasmi_interner.specs.LenOrderLaws.{len_cmp_total, len_ties, len_po, texts_per};
ghost use Rattle.std.specs.Cmp.{on_per, on_equiv, on_po, on_total};

use std::cmp::Ordering;

/// A text that is compared by its length first: fewer bytes are less, and texts of one length are
/// compared byte by byte.
///
/// Most texts differ in length, so that most comparisons read no byte.
#[derive(Debug, Copy, Clone)]
pub struct LenOrder<'a> {
    text: &'a str,
}

impl<'a> LenOrder<'a> {
    /// The text, to be compared by its length first. Constant time.
    #[inline]
    pub fn new(text: &'a str) -> Self
        ensures { text_of result ≡ text.now }
    {
        LenOrder { text }
    }

    /// The text. Constant time.
    #[inline]
    pub fn as_str(self) -> &'a str
        ensures { result.now ≡ text_of self.entry }
    {
        self.text
    }
}

impl PartialEq for LenOrder<'_> {
    ghost eq = { λ a b. pointwise nat_eq (text_of a) (text_of b) };

    ghost laws = { on_per text_of texts_per };

    fn eq(&self, other: &Self) -> bool {
        self.text == other.text
    }
}

impl Eq for LenOrder<'_> {
    ghost laws = { on_equiv text_of nat_list_eq_equiv };
}

impl PartialOrd for LenOrder<'_> {
    ghost partial_cmp = { λ a b. Some (len_cmp (text_of a) (text_of b)) };

    ghost laws = { on_po text_of len_po };

    fn partial_cmp(&self, other: &Self) -> Option<Ordering> {
        Some(self.cmp(other))
    }
}

impl Ord for LenOrder<'_> {
    ghost cmp = { λ a b. len_cmp (text_of a) (text_of b) };

    ghost total = { on_total text_of len_cmp_total };

    ghost matches_partial_cmp = { Prim.search rules };

    ghost matches_eq = { λ a b. len_ties (text_of a) (text_of b) };

    fn cmp(&self, other: &Self) -> Ordering {
        match self.text.len().cmp(&other.text.len()) {
            Ordering::Equal => self.text.cmp(other.text),
            order => order,
        }
    }
}
