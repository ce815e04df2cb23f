//! All code of the workspace that reads or writes through a raw pointer.
//!
//! A bucket's memory (`block`) has no safe type. An open bucket (`option`) and two items that change places (`swap`)
//! are found without a test of what a proof knows. A vector's items (`lend`, `loan`) are lent in parts that safe code
//! can't tell apart.

// Where the value of an `Option` lies, which must have one: behind the tag, a byte that each `Option` has here, at the
// next place that is aligned for it (`SomeMemory.antt`). Rust promises no such layout.
macro_rules! behind_tag {
    ($option:expr, $pointer:tt, $value:ty) => {
        (($option as *$pointer u8).add(align_of::<$value>()) as *$pointer $value)
    };
}

// Where the block of an open bucket begins.
macro_rules! block_of {
    ($first:expr, $bucket:expr) => {
        (*behind_tag!($first.add($bucket), mut, Bucket<T, A>))
            .ptr
            .start
    };
}

pub(crate) mod block;
mod lend;
pub(crate) mod loan;
pub(crate) mod option;
mod swap;
