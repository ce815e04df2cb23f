//! How many items of each kind a module has.
ghost use Rattle.std.specs.Prelude.{◌≡◌};
ghost use Rattle.wasmi_module.specs.Valid.{count_of};

use crate::module::Kind;

/// How many items a module has to refer to, those that it imports and its own.
#[derive(Clone, Copy, Debug)]
pub struct Counts {
    /// Types of functions.
    pub types: usize,
    /// Functions.
    pub functions: usize,
    /// Tables.
    pub tables: usize,
    /// Memories.
    pub memories: usize,
    /// Globals.
    pub globals: usize,
}

impl Counts {
    // How many there are of a kind.
    pub(crate) fn of(&self, kind: Kind) -> usize
        ensures { result ≡ count_of self.now kind }
    {
        match kind {
            Kind::Func => self.functions,
            Kind::Table => self.tables,
            Kind::Memory => self.memories,
            Kind::Global => self.globals,
        }
    }
}
