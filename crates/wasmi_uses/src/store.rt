//! A store that hands out typed handles.
ghost use Rattle.std.specs.Prelude.{◌≡◌, [], ◌∷◌, ◌++◌, length, IfOk, OnOk, OnErr, option_copied, slice_get, Some};

use std::alloc::Global;
use std::marker::Model;
use wasmi_arena::{ArenaError, StableArena, TypedKey};

/// What a [`FuncId`] is the handle of.
pub enum Funcs {}

/// The handle of a function. A handle of another type doesn't read a function.
///
/// A contract sees the number that it holds, which is its position in the store.
pub type FuncId = TypedKey<Funcs>;

/// Functions of one type, each under its handle. A contract sees the list of them.
#[derive(Drop)]
pub struct FuncStore<Func> {
    funcs: StableArena<FuncId, Func>,
}

impl<Func> Model for FuncStore<Func> {
    ghost use Rattle.std.specs.Prelude.{List};

    ghost Value = { List Func };

    ghost view = { λ store. store.funcs };
}

impl<Func> FuncStore<Func> {
    /// A store without functions.
    pub fn new(alloc: Global) -> Self
        ensures { result ≡ [] }
    {
        FuncStore {
            funcs: StableArena::new(alloc),
        }
    }

    /// How many functions there are. Constant time.
    pub fn count(&self) -> usize
        ensures { result ≡ length self.now }
    {
        self.funcs.len()
    }

    /// Puts a function at the end, and returns its handle. Handles are 0, 1, 2 and so on, without gaps.
    pub fn put(&mut self, func: Func) -> Result<FuncId, ArenaError>
    where
        Func: Drop,
        ensures dense { IfOk result (λ id. id ≡ length self.old) }
        ensures reads { IfOk result (λ id. slice_get self.new id ≡ Some func) }
        ensures ok { OnOk result (self.new ≡ self.old ++ func ∷ []) }
        ensures err { OnErr result (self.new ≡ self.old) }
    {
        self.funcs.alloc(func)
    }

    /// The function of a handle, or `None` if none was put under it. Constant time.
    pub fn get(&self, id: FuncId) -> Option<&Func>
        ensures { option_copied result ≡ slice_get self.now id }
    {
        self.funcs.get(id).ok()
    }
}
