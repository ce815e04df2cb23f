//! A call stack, whose last frame is the one that runs.
ghost use Rattle.std.specs.Prelude.{◌≡◌, IfSome, IfNone, Some};
ghost use Rattle.wasmi_collections.specs.HeadVec.{last_item, with_last};

use std::alloc::Allocator;
use std::mem;
use wasmi_collections::HeadVec;

/// Puts a frame in the place of the one that runs, and returns that one. Without one the frame is dropped.
pub fn tail_call<T: Drop, A: Allocator>(frames: &mut HeadVec<T, A>, frame: T) -> Option<T>
    ensures was { result ≡ last_item frames.old.items }
    ensures runs { IfSome result (λ _. frames.new.items ≡ with_last frames.old.items frame) }
    ensures none { IfNone result (frames.new ≡ frames.old) }
{
    match frames.last_mut() {
        Some(last) => Some(mem::replace(last, frame)),
        None => None,
    }
}
