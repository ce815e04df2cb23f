//! A compiler's tables: names and constants, each once, and functions with their names and lines.
ghost use Rattle.std.specs.Prelude.{ℕ, List, ◌≡◌, ◌<◌, ◌≤◌, ◌==◌, length, position, IfOk, OnErr, IfSome, IfNone, Ok, Some, slice_get};
ghost use Rattle.wasmi_collections.specs.Interner.{symbol_of};
ghost use Rattle.wasmi_dense.specs.Components.{component_at};

use crate::store::FuncId;
use std::alloc::Global;
use wasmi_arena::ArenaError;
use wasmi_collections::string_interner::Sym;
use wasmi_collections::{Arena, ComponentVec, DedupArena, StringInterner};

/// What a compiler keeps of a module.
#[derive(Drop)]
pub struct Tables {
    pub names: StringInterner,
    pub constants: DedupArena<u32, u64>,
    /// The name of each function.
    pub funcs: Arena<FuncId, Sym>,
    /// The line on which a function stands, where that is known.
    pub lines: ComponentVec<FuncId, u32>,
}

impl Tables {
    /// Tables in which nothing is.
    pub fn new(alloc: Global) -> Self {
        Tables {
            names: StringInterner::new(alloc),
            constants: DedupArena::new(alloc),
            funcs: Arena::new(alloc),
            lines: ComponentVec::new(alloc),
        }
    }

    /// Declares a function on a line, and returns its handle and the symbol of its name. The handle reads
    /// the symbol and the line, and the symbol the name. After an error the name may be there, and the
    /// function without its line.
    pub fn declare(&mut self, name: &str, line: u32) -> Result<(FuncId, Sym), ArenaError>
        ensures func { IfOk result (λ declared. slice_get self.new.funcs.items declared.0 ≡ Some declared.1) }
        ensures line { IfOk result (λ declared. component_at self.new.lines declared.0 ≡ Some line) }
        ensures name { IfOk result (λ declared. slice_get self.new.names declared.1 ≡ Some name.now) }
        ensures known { IfOk result (λ declared. symbol_of self.new.names name.now ≡ Some declared.1) }
        ensures kept { (other : List ℕ) (symbol : ℕ) → symbol_of self.old.names other ≡ Some symbol
            → symbol_of self.new.names other ≡ Some symbol }
        ensures again { (symbol : ℕ) → symbol_of self.old.names name.now ≡ Some symbol
            → IfOk result (λ declared. declared.1 ≡ symbol) }
        ensures constants { self.new.constants ≡ self.old.constants }
    {
        let symbol = self.names.get_or_intern(name)?;
        let func = self.funcs.alloc(symbol)?;
        self.lines.set(func, line)?;
        Ok((func, symbol))
    }

    /// The name and the line of a function, if it was declared.
    pub fn name_and_line(&self, func: FuncId) -> Option<(Sym, Option<u32>)>
        ensures symbol { IfSome result (λ there. slice_get self.now.funcs.items func ≡ Some there.0) }
        ensures line { IfSome result (λ there. there.1 ≡ component_at self.now.lines func) }
        ensures absent { IfNone result (length self.now.funcs.items ≤ func) }
    {
        match self.funcs.get(func) {
            Ok(symbol) => Some((*symbol, self.lines.get(func).copied())),
            Err(_) => None,
        }
    }

    /// The slot of a constant: the one that it had, or a new one. After an error nothing has changed.
    pub fn constant(&mut self, constant: u64) -> Result<u32, ArenaError>
        ensures slot { IfOk result (λ slot.
            position (λ other. constant == other) self.new.constants.handed ≡ Some slot) }
        ensures within { IfOk result (λ slot. slot < length self.new.constants.items) }
        ensures there { (slot : ℕ) → position (λ other. constant == other) self.old.constants.handed ≡ Some slot
            → result ≡ Ok slot }
        ensures err { OnErr result (self.new.constants ≡ self.old.constants) }
    {
        self.constants.alloc(constant)
    }

    /// Two functions that are called the same: their symbols, which are one.
    pub fn declare_twice(&mut self, name: &str) -> Result<(Sym, Sym), ArenaError>
        ensures { IfOk result (λ symbols. symbols.0 ≡ symbols.1) }
    {
        let (_, symbol) = self.declare(name, 1)?;
        let (_, again) = self.declare(name, 2)?;
        Ok((symbol, again))
    }

    /// A constant twice: its slots, which are one.
    pub fn constant_twice(&mut self, constant: u64) -> Result<(u32, u32), ArenaError>
        ensures { IfOk result (λ slots. slots.0 ≡ slots.1) }
    {
        let slot = self.constant(constant)?;
        let again = self.constant(constant)?;
        Ok((slot, again))
    }
}
