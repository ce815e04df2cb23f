//! Laws of runs of an interner.
ghost use Rattle.std.specs.Prelude.{◌≡◌, ◌↔◌, ◌-◌, ℕ, List, filter_map, length, map, Some, slice_get};
ghost use Rattle.std.specs.List.{range_with_len};
ghost use Rattle.wasmi_collections.specs.InternerSteps.{InternStep, text_to_intern};
ghost use Rattle.wasmi_collections.specs.NewKeys.{new_numbers, symbol_replied};
ghost use Rattle.wasmi_collections.specs.Runs.{IsRun};
ghost use Rattle.wasmi_collections.specs.declared.run.interner.InternCommand.{InternCommand};
ghost use Rattle.wasmi_collections.specs.declared.run.interner.InternReply.{InternReply};

/// Of two commands of a run that intern texts, and that were replied to with symbols, the symbols are equal
/// exactly where the texts are.
pub fn equal_symbols_of_equal_texts()
    ensures { (old : List (List ℕ)) (commands : List InternCommand) (replies : List InternReply)
        (new : List (List ℕ)) → IsRun InternStep (λ texts. texts) old commands replies new
        → (i j : ℕ) (one other : List ℕ) (s t : ℕ)
        → slice_get (map text_to_intern commands) i ≡ Some (Some one)
        → slice_get (map text_to_intern commands) j ≡ Some (Some other)
        → slice_get replies i ≡ Some (InternReply.Sym s)
        → slice_get replies j ≡ Some (InternReply.Sym t)
        → (s ≡ t) ↔ (one ≡ other) }
{}

/// The symbols that a run of an interner gives to new texts are the numbers from its old length on, in order: the j-th
/// is the old length plus j.
pub fn symbols_of_new_texts()
    ensures { (old new : List (List ℕ)) (commands : List InternCommand) (replies : List InternReply)
        → IsRun InternStep (λ texts. texts) old commands replies new
        → new_numbers (length old) (filter_map symbol_replied replies)
        ≡ range_with_len (length old) (length new - length old) }
{}
