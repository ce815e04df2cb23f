//! Whether an export is what an import asks for.
ghost use Rattle.std.specs.Prelude.{◌≡◌, ◌↔◌, IsTrue};
ghost use Rattle.wasmi_module.specs.Matching.{LimitsMatch, TableMatches, MemoryMatches};

use crate::module::{GlobalType, Limits, MemoryType, TableType};

impl Limits {
    /// Whether what has the limits `given` is what is asked for by these. Constant time.
    pub fn admits(&self, given: &Limits) -> bool
        ensures { IsTrue result ↔ LimitsMatch self.now given.now }
    {
        match (self.max, given.max) {
            (None, _) => self.min <= given.min,
            (Some(most), Some(max)) => self.min <= given.min && max <= most,
            (Some(_), None) => false,
        }
    }
}

impl TableType {
    /// Whether a table of the type `given` is what is asked for by this one. Constant time.
    pub fn admits(&self, given: &TableType) -> bool
        ensures { IsTrue result ↔ TableMatches self.now given.now }
    {
        self.element == given.element && self.limits.admits(&given.limits)
    }
}

impl MemoryType {
    /// Whether a memory of the type `given` is what is asked for by this one. Constant time.
    pub fn admits(&self, given: &MemoryType) -> bool
        ensures { IsTrue result ↔ MemoryMatches self.now given.now }
    {
        self.limits.admits(&given.limits)
    }
}

impl GlobalType {
    /// Whether a global of the type `given` is what is asked for by this one. Constant time.
    pub fn admits(&self, given: &GlobalType) -> bool
        ensures { IsTrue result ↔ (self.now ≡ given.now) }
    {
        self == given
    }
}
