//! An allocator for tests, over `Global`. It writes down what its handles were asked for, and refuses
//! the requests that a test names, or to be cloned.
//!
//! A container that grows by the trait's own `grow` asks for a new block and returns the old one.
ghost use Rattle.std.specs.Prelude.{◌≡◌};
ghost use Rattle.std.specs.contracts.impls.GlobalAllocator.TheImpl.{ghosts};

use std::alloc::{AllocError, Allocator, Global};
use std::cell::Cell;

// Requests are numbered from 1 over the life of a log.
#[derive(Clone, Copy)]
enum Refusals {
    None,
    Once(u64),
    From(u64),
}

/// What the handles of one test were asked for, and which of the coming requests they refuse.
#[derive(Drop)]
pub struct Log {
    refusals: Cell<Refusals>,
    clones_refused: Cell<bool>,
    clones: Cell<u64>,
    handles: Cell<u64>,
    requests: Cell<u64>,
    bytes: Cell<u64>,
    given: Cell<u64>,
    returned: Cell<u64>,
    misplaced: Cell<u64>,
}

impl Log {
    /// An empty log, which refuses nothing.
    pub fn new() -> Log {
        Log {
            refusals: Cell::new(Refusals::None),
            clones_refused: Cell::new(false),
            clones: Cell::new(0),
            handles: Cell::new(0),
            requests: Cell::new(0),
            bytes: Cell::new(0),
            given: Cell::new(0),
            returned: Cell::new(0),
            misplaced: Cell::new(0),
        }
    }

    /// Refuses the `nth` request from now and all after it; the next request is the first.
    pub fn refuse_from(&self, nth: u64) {
        self.refusals.set(Refusals::From(self.coming(nth)));
    }

    /// Refuses the `nth` request from now alone; the next request is the first.
    pub fn refuse_once(&self, nth: u64) {
        self.refusals.set(Refusals::Once(self.coming(nth)));
    }

    /// Refuses to clone an `Observed` from now on; a `Logged` is cloned all the same.
    pub fn refuse_clones(&self) {
        self.clones_refused.set(true);
    }

    /// Refuses no request and no clone from now on.
    pub fn refuse_none(&self) {
        self.refusals.set(Refusals::None);
        self.clones_refused.set(false);
    }

    /// The number of clones of handles, refused ones too.
    pub fn clones(&self) -> u64 {
        self.clones.get()
    }

    /// The number of requests, refused ones too.
    pub fn requests(&self) -> u64 {
        self.requests.get()
    }

    /// The sum of the bytes of all requests, refused ones too.
    pub fn bytes(&self) -> u64 {
        self.bytes.get()
    }

    /// The number of blocks that were given.
    pub fn given(&self) -> u64 {
        self.given.get()
    }

    /// The number of blocks that came back.
    pub fn returned(&self) -> u64 {
        self.returned.get()
    }

    /// The number of blocks that came back to a handle with none out, and of those that a handle still
    /// had out when it was dropped.
    pub fn misplaced(&self) -> u64 {
        self.misplaced.get()
    }

    /// The number of blocks that are out or were misplaced, and of `Observed` handles that are there: 0
    /// once each block came back as it should, and each such handle was dropped.
    pub fn amiss(&self) -> u64 {
        let out = self.given().abs_diff(self.returned());
        out.saturating_add(self.misplaced())
            .saturating_add(self.handles.get())
    }

    // Writes a request down, and answers whether it is refused.
    pub(crate) fn refuses(&self, size: usize) -> bool {
        add(&self.bytes, size as u64);
        add(&self.requests, 1);
        let number = self.requests();
        match self.refusals.get() {
            Refusals::None => false,
            Refusals::Once(refused) => number == refused,
            Refusals::From(first) => first <= number,
        }
    }

    // Writes down that a handle was cloned.
    pub(crate) fn counts_a_clone(&self) {
        add(&self.clones, 1);
    }

    // Writes down that a handle was dropped.
    fn drops_a_handle(&self) {
        self.handles.set(self.handles.get().wrapping_sub(1));
    }

    // Writes down that a block was given.
    pub(crate) fn gives(&self) {
        add(&self.given, 1);
    }

    // Writes down that a block came back, and whether it was out.
    pub(crate) fn takes_back(&self, was_out: bool) {
        add(&self.returned, 1);
        if !was_out {
            add(&self.misplaced, 1);
        }
    }

    fn coming(&self, nth: u64) -> u64 {
        self.requests.get().saturating_add(nth)
    }
}

/// A handle on `Global` that writes to a log. A clone writes to the same log, and is another handle:
/// it has no blocks out.
pub struct Observed<'a> {
    heap: Global,
    log: &'a Log,
    out: Cell<u64>,
}

impl<'a> Observed<'a> {
    /// A handle with no blocks out.
    pub fn new(heap: Global, log: &'a Log) -> Observed<'a> {
        add(&log.handles, 1);
        Observed {
            heap,
            log,
            out: Cell::new(0),
        }
    }

    // Writes a request down, and answers whether it is refused.
    fn refuses(&self, size: usize) -> bool {
        self.log.refuses(size)
    }

    /// Writes down whether a block was given, and hands the answer on.
    pub fn gives(&self, answer: Result<*mut u8, AllocError>) -> Result<*mut u8, AllocError>
        ensures { result ≡ answer }
    {
        if answer.is_ok() {
            self.log.gives();
            add(&self.out, 1);
        }
        answer
    }

    /// Writes down that a block came back.
    pub fn takes_back(&self) {
        let out = self.out.get();
        self.log.takes_back(out != 0);
        self.out.set(out.saturating_sub(1));
    }
}

fn add(count: &Cell<u64>, more: u64) {
    count.set(count.get().wrapping_add(more));
}

impl Clone for Observed<'_> {
    fn clone(&self) -> Result<Self, AllocError> {
        self.log.counts_a_clone();
        if self.log.clones_refused.get() {
            return Err(AllocError);
        }
        Ok(Observed::new(self.heap, self.log))
    }
}

impl Drop for Observed<'_> {
    fn drop(self) {
        add(&self.log.misplaced, self.out.get());
        self.log.drops_a_handle();
        let Observed {
            heap: _,
            log: _,
            out: _,
        } = self;
    }
}

unsafe impl Allocator for Observed<'_> {
    ghost dealloc_token = { λ handle. ghosts.dealloc_token handle.heap };

    fn allocate(&self, size: usize, align: usize) -> Result<*mut u8, AllocError> {
        if self.refuses(size) {
            return Err(AllocError);
        }
        self.gives(self.heap.allocate(size, align))
    }

    unsafe fn deallocate(&self, ptr: *mut u8, size: usize, align: usize) {
        self.takes_back();
        self.heap.deallocate(ptr, size, align);
    }
}
