//! An allocator for tests whose handles are copied. It writes to a log and refuses requests as `Observed` does.
ghost use Rattle.std.specs.Prelude.{◌≡◌, ⊤};
ghost use Rattle.std.specs.contracts.impls.GlobalAllocator.TheImpl.{ghosts};

use crate::observed::Log;
use std::alloc::{AllocError, Allocator, Global};

/// A handle on `Global` that writes to a log. Its copies are one handle: a block is misplaced only where
/// no block of the log is out.
pub struct Logged<'a> {
    heap: Global,
    log: &'a Log,
}

impl Clone for Logged<'_> {
    ghost is_clone = { λ handle copy. copy ≡ handle };

    ghost is_infallible = { λ _. ⊤ };

    fn clone(&self) -> Result<Self, AllocError> {
        self.log.counts_a_clone();
        Ok(*self)
    }
}

impl Copy for Logged<'_> {}

impl<'a> Logged<'a> {
    /// A handle.
    pub fn new(heap: Global, log: &'a Log) -> Logged<'a> {
        Logged { heap, log }
    }

    // Writes a request down, and answers whether it is refused.
    fn refuses(&self, size: usize) -> bool {
        self.log.refuses(size)
    }

    // Writes down whether a block was given, and hands the answer on.
    fn gives(&self, answer: Result<*mut u8, AllocError>) -> Result<*mut u8, AllocError>
        ensures { result ≡ answer }
    {
        if answer.is_ok() {
            self.log.gives();
        }
        answer
    }

    // Writes down that a block came back.
    fn takes_back(&self) {
        self.log.takes_back(self.log.returned() < self.log.given());
    }
}

unsafe impl Allocator for Logged<'_> {
    ghost dealloc_token = { λ handle. ghosts.dealloc_token handle.heap };

    fn allocate(&self, size: usize, align: usize) -> Result<*mut u8, AllocError> {
        if self.refuses(size) {
            return Err(AllocError);
        }
        self.gives(self.heap.allocate(size, align))
    }

    unsafe fn deallocate(&self, ptr: *mut u8, size: usize, align: usize) {
        self.takes_back();
        self.heap.deallocate(ptr, size, align);
    }
}
