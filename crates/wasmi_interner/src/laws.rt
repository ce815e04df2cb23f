//! Laws of the length order, of symbols and interned texts, and of the steps of a search, as contracts of functions.
ghost use Rattle.std.specs.Prelude.{◌≡◌, ◌↔◌, ◌==◌, ◌<◌, ◌≤◌, ◌^◌, ◌∷◌, ◌++◌, [], ℕ, List, false, fold, length, map, position, IsTrue, None, Some, slice_get, slice_index_or};
ghost use Rattle.std.specs.Cmp.{IsTotalOrder};
ghost use Rattle.std.specs.Cmp.Lexicographic.{slice_cmp};
ghost use Rattle.std.specs.Hash as fed;
ghost use Rattle.std.specs.List.{All};
ghost use Rattle.std.specs.Ordering.{nat_cmp};
ghost use Rattle.std.specs.Str.{bytes_eq};
ghost use Rattle.wasmi_interner.specs.BinaryDigits.{digits};
ghost use Rattle.wasmi_interner.specs.Interner.{symbol_of, AreDistinctTexts, Interns};
ghost use Rattle.wasmi_interner.specs.LenOrder.{len_cmp, text_of};

use crate::{LenOrder, Sym};
use std::cmp::Ordering;
use std::hash::{Hash, Hasher};

/// The length order is a total order of texts. Two texts are equal in it only if they are the same. Of two
/// texts that differ in length the shorter is less, and texts of one length are compared byte by byte.
pub fn length_order()
    ensures total { IsTotalOrder len_cmp }
    ensures equal { (x y : List ℕ) → (len_cmp x y ≡ Ordering.Equal) ↔ (x ≡ y) }
    ensures same_length { (x y : List ℕ) → length x ≡ length y → len_cmp x y ≡ slice_cmp nat_cmp x y }
    ensures shorter { (x y : List ℕ) → length x < length y → len_cmp x y ≡ Ordering.Less }
{}

/// Two texts under the length order are equal where their bytes are the same.
pub fn equal_in_length_order(a: &LenOrder, b: &LenOrder) -> bool
    ensures { IsTrue result ↔ (text_of a.now ≡ text_of b.now) }
{
    a == b
}

/// `LenOrder` compares two texts in the length order.
pub fn ordered_by_length(a: &LenOrder, b: &LenOrder) -> Ordering
    ensures equal { (result ≡ Ordering.Equal) ↔ (text_of a.now ≡ text_of b.now) }
    ensures shorter { length (text_of a.now) < length (text_of b.now) → result ≡ Ordering.Less }
    ensures longer { length (text_of b.now) < length (text_of a.now) → result ≡ Ordering.Greater }
    ensures same_length { length (text_of a.now) ≡ length (text_of b.now)
        → result ≡ slice_cmp nat_cmp (text_of a.now) (text_of b.now) }
{
    a.cmp(b)
}

/// Two symbols are equal where their numbers are.
pub fn equal_symbols(a: Sym, b: Sym) -> bool
    ensures { IsTrue result ↔ (a ≡ b) }
{
    a == b
}

/// Two symbols are compared as their numbers are.
pub fn ordered_symbols(a: Sym, b: Sym) -> Ordering
    ensures { result ≡ nat_cmp a b }
{
    a.cmp(&b)
}

/// A hasher is fed the number of a symbol, and nothing else.
pub fn hashed_symbols<H: Hasher>(symbol: Sym, state: &mut H)
    ensures { state.new ≡ fold H.write state.old (fed.u32 symbol) }
{
    symbol.hash(state);
}

/// The symbol of an interned text resolves to the text, and interning the text again gives the same symbol
/// and adds nothing.
pub fn interned_texts()
    ensures resolves { (old : List (List ℕ)) (text : List ℕ) (symbol : ℕ) (new : List (List ℕ))
        → Interns old text symbol new → slice_get new symbol ≡ Some text }
    ensures again { (old : List (List ℕ)) (text : List ℕ) (symbol : ℕ) (new : List (List ℕ))
        (other : ℕ) (newer : List (List ℕ)) → Interns old text symbol new → Interns new text other newer
        → (other ≡ symbol) × (newer ≡ new) }
{}

/// A text that wasn't there is found at the end once it was put there, and its symbol is the number of texts
/// before. Other texts keep their symbols.
pub fn appended_texts()
    ensures last { (texts : List (List ℕ)) (text : List ℕ) → symbol_of texts text ≡ None
        → symbol_of (texts ++ text ∷ []) text ≡ Some (length texts) }
    ensures kept { (texts : List (List ℕ)) (text other : List ℕ) (symbol : ℕ)
        → symbol_of texts other ≡ Some symbol → symbol_of (texts ++ text ∷ []) other ≡ Some symbol }
{}

/// Among distinct texts the symbol of a text is the one position at which it stands.
pub fn symbols_of_distinct_texts()
    ensures reads { (texts : List (List ℕ)) (text : List ℕ) (symbol : ℕ)
        → symbol_of texts text ≡ Some symbol → slice_get texts symbol ≡ Some text }
    ensures stands { (texts : List (List ℕ)) (text : List ℕ) (symbol : ℕ) → AreDistinctTexts texts
        → slice_get texts symbol ≡ Some text → symbol_of texts text ≡ Some symbol }
{}

/// Among distinct texts, to search symbols is to search texts: what a symbol reads is a text exactly where it is that
/// text's symbol, and never where the text has none. So in the texts of some symbols a text stands first where its
/// symbol stands first among these.
pub fn searched_by_symbols()
    ensures test { (texts : List (List ℕ)) (text : List ℕ) (symbol k : ℕ) → AreDistinctTexts texts
        → symbol_of texts text ≡ Some symbol → k < length texts
        → bytes_eq text (slice_index_or texts k []) ≡ (symbol == k) }
    ensures no_symbol { (texts : List (List ℕ)) (text : List ℕ) (k : ℕ) → AreDistinctTexts texts
        → symbol_of texts text ≡ None → k < length texts → bytes_eq text (slice_index_or texts k []) ≡ false }
    ensures position { (texts : List (List ℕ)) (text : List ℕ) (symbol : ℕ) (symbols : List ℕ) → AreDistinctTexts texts
        → symbol_of texts text ≡ Some symbol → All (λ k. k < length texts) symbols
        → position (bytes_eq text) (map (λ k. slice_index_or texts k []) symbols) ≡ position (λ k. symbol == k) symbols }
{}

/// As many binary digits as a number has, which is below 2^64, so many has the least power of two above it
/// as its exponent.
pub fn binary_digits()
    ensures above { (n : ℕ) → n < 2 ^ 64 → n < 2 ^ digits n }
    ensures least { (n d : ℕ) → n < 2 ^ d → digits n ≤ d }
{}
