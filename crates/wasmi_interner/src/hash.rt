//! The hash of a text.
ghost use Rattle.std.specs.Prelude.{◌≡◌};
ghost use Rattle.wasmi_interner.specs.inner.Hash.{hash_of};

use std::hash::{FoldHasher, Hasher};

// The upper half of the standard library's fast hash, whose seed is fixed: whoever picks the texts can make them
// collide. Nothing but speed rests on what it is.
#[inline]
pub(crate) fn hash_of_text(text: &str) -> u32
    ensures { result ≡ hash_of text.now }
{
    let mut hasher = FoldHasher::default();
    hasher.write(text.as_bytes());
    (hasher.finish() >> 32) as u32
}
