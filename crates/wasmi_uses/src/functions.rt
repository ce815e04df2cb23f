//! A table of functions by name: an interner, a hashed map and an arena behind one contract.
ghost use Rattle.std.specs.Prelude.{◌≡◌, ◌⊎◌, ℕ, [], false, IfOk, IfErr, IfSome, IfNone, OnErr, Ok, Some, option_copied, option_map, slice_get};
ghost use Rattle.wasmi_uses.specs.Functions.{name_at, IsFree, Defines};

use std::alloc::Global;
use std::marker::Model;
use wasmi_arena::{ArenaError, TypedKey};
use wasmi_collections::string_interner::Sym;
use wasmi_collections::{Arena, StringInterner, hashed};

/// The key of a function in its table. A contract sees the number that it holds.
pub type FunctionKey = TypedKey<Function>;

/// What a table keeps of a function: the symbol of its name, and its value.
#[derive(Drop)]
pub struct Function {
    symbol: Sym,
    value: u64,
}

/// Functions under keys 0, 1, 2 and so on, no two of one name. A contract sees a list of names and values.
#[derive(Drop)]
pub struct Functions {
    names: StringInterner,
    by_name: hashed::Map<Sym, FunctionKey>,
    functions: Arena<FunctionKey, Function>,
}

impl Model for Functions {
    ghost use Rattle.std.specs.Prelude.{ℕ, List, map};
    ghost use Rattle.wasmi_uses.specs.Functions.{shown, symbols_of, IsSound};

    ghost Value = { List (List ℕ × ℕ) };

    ghost view = { λ table. map (shown table.names) table.functions.items };

    ghost invariant = { λ table. IsSound ⟦<Sym as PartialEq>⟧.eq table.names table.by_name.entries
        (symbols_of table.functions.items) };
}

#[tactic(auto, using(crate::proofs::FunctionLemmas::seen))]
impl Functions {
    /// A table without functions, which asks `alloc` for memory when one comes.
    pub fn new(alloc: Global) -> Self
        ensures { result ≡ [] }
    {
        Functions {
            names: StringInterner::new(alloc),
            by_name: hashed::Map::new(alloc),
            functions: Arena::new(alloc),
        }
    }

    /// Defines a function, and returns its key and `true`. A name that is there keeps its function, whose
    /// key comes with `false`; that never fails. After an error the functions are as before. It is
    /// `OutOfSystemMemory`, or after 2^32 names, with those that were refused, also `NotEnoughKeys`.
    pub fn define(&mut self, name: &str, value: u64) -> Result<(FunctionKey, bool), ArenaError>
        ensures ok { IfOk result (λ defined. Defines self.old name.now value defined self.new) }
        ensures there { (key : ℕ) → name_at self.old key ≡ Some name.now → result ≡ Ok (key, false) }
        ensures err { OnErr result (self.new ≡ self.old) }
        ensures errors { IfErr result (λ error. (error ≡ ArenaError.NotEnoughKeys)
            ⊎ (error ≡ ArenaError.OutOfSystemMemory)) }
    {
        if let Some((key, _)) = self.find(name) {
            return Ok((key, false));
        }
        // First, so that `alloc` can't fail once the map has the key.
        self.functions.reserve(1)?;
        let key = self.functions.next_key()?;
        let symbol = self.names.get_or_intern(name)?;
        self.by_name.insert(symbol, key)?;
        self.functions.alloc(Function { symbol, value })?;
        Ok((key, true))
    }

    /// The key and the value of the function of a name, if there is one.
    pub fn find(&self, name: &str) -> Option<(FunctionKey, u64)>
        ensures found { IfSome result (λ found. slice_get self.now found.0 ≡ Some (name.now, found.1)) }
        ensures absent { IfNone result (IsFree self.now name.now) }
        ensures alone { (key : ℕ) → name_at self.now key ≡ Some name.now
            → IfSome result (λ found. found.0 ≡ key) }
    {
        let symbol = self.names.get(name)?;
        let key = *self.by_name.get(&symbol)?;
        Some((key, self.get(key)?))
    }

    /// The name of the function under a key, if there is one.
    pub fn name_of(&self, key: FunctionKey) -> Option<&str>
        ensures { option_copied result ≡ name_at self.now key }
    {
        self.names.resolve(self.functions.get(key).ok()?.symbol)
    }

    /// The value of the function under a key, if there is one.
    pub fn get(&self, key: FunctionKey) -> Option<u64>
        ensures { result ≡ option_map (λ function. function.1) (slice_get self.now key) }
    {
        Some(self.functions.get(key).ok()?.value)
    }
}
