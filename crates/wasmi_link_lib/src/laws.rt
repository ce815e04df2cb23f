//! What the definitions imply, each law as a function that does nothing.
ghost use Rattle.std.specs.Prelude.{◌≡◌, ◌↔◌, IsTrue, List, ℕ};
ghost use Rattle.wasmi_link_lib.specs.Lines.{ItemType};
ghost use Rattle.wasmi_link_lib.specs.Linking.{matches, Matches};

/// The tests by which linking is defined say when types match, as the specification of WebAssembly has it.
pub fn matching_types()
    ensures { (asked given : ItemType) → IsTrue (matches asked given) ↔ Matches asked given }
{}
