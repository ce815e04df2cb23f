//! A symbol table with linear look-up.
ghost use Rattle.std.specs.Prelude.{◌≡◌, ◌≢◌, ◌↔◌, ◌⊎◌, ℕ, List, [], ◌∷◌, ◌++◌, IfOk, IfSome, IfNone, OnOk, OnErr, slice_get, Some, string_bytes, ◌<◌, ◌^◌};
ghost use Rattle.std.specs.List.{position};
ghost use Rattle.std.specs.Str.{bytes_eq};
ghost use Rattle.wasmi_uses.specs.Names.{AreDistinct};

use std::alloc::Global;
use std::marker::Model;
use wasmi_arena::{ArenaError, ArenaKey, StableArena, StableVec};

/// Names, no two of which are equal, each under its symbol. A contract sees the list of them, as bytes.
#[derive(Drop)]
pub struct Symbols {
    names: StableArena<u32, String>,
}

impl Model for Symbols {
    ghost use Rattle.std.specs.Prelude.{ℕ, List, map, string_bytes};
    ghost use Rattle.wasmi_uses.specs.Names.{AreDistinct};

    ghost Value = { List (List ℕ) };

    ghost view = { λ symbols. map string_bytes symbols.names };

    ghost invariant = { λ symbols. AreDistinct (map string_bytes symbols.names) };
}

impl Symbols {
    /// A table without names.
    pub fn new(alloc: Global) -> Self
        ensures { result ≡ [] }
    {
        Symbols {
            names: StableArena::new(alloc),
        }
    }

    /// The symbol of a name, if it has one. Linear in the number of names.
    pub fn find(&self, name: &str) -> Option<u32>
        ensures found { IfSome result (λ symbol. slice_get self.now symbol ≡ Some name.now) }
        ensures absent { IfNone result ((symbol : ℕ) → slice_get self.now symbol ≢ Some name.now) }
    {
        match first_position(self.names.items(), name) {
            Some(position) => u32::from_usize(position),
            None => None,
        }
    }

    /// The symbol of a name. A name that has none gets the next one. Linear in the number of names.
    pub fn intern(&mut self, alloc: Global, name: &str) -> Result<u32, ArenaError>
        ensures symbol { IfOk result (λ symbol. slice_get self.new symbol ≡ Some name.now) }
        ensures names { OnOk result ((self.new ≡ self.old)
            ⊎ (self.new ≡ self.old ++ name.now ∷ [])) }
        ensures kept { (symbol : ℕ) (known : List ℕ) → slice_get self.old symbol ≡ Some known
            → slice_get self.new symbol ≡ Some known }
        ensures distinct { AreDistinct self.new }
        ensures err { OnErr result (self.new ≡ self.old) }
    {
        match self.find(name) {
            Some(symbol) => Ok(symbol),
            None => self.names.alloc(String::from_str(alloc, name)?),
        }
    }
}

/// Interns two names. They have one symbol exactly where they are equal.
pub fn intern_both(
    symbols: &mut Symbols,
    alloc: Global,
    a: &str,
    b: &str,
) -> Result<(u32, u32), ArenaError>
    ensures { IfOk result (λ pair. (pair.0 ≡ pair.1) ↔ (a.now ≡ b.now)) }
{
    let first = symbols.intern(alloc, a)?;
    let second = symbols.intern(alloc, b)?;
    Ok((first, second))
}

// The first position at which a name stands.
fn first_position(names: &StableVec<String>, name: &str) -> Option<usize>
    ensures first { result ≡ position (λ known. bytes_eq (string_bytes known) name.now) names.now }
    ensures bound { IfSome result (λ i. i < 2 ^ 32) }
{
    names.iter().position(|known| known.as_str() == name)
}
