//! What the definitions imply, each law as a function that does nothing.
ghost use Rattle.std.specs.Prelude.{◌≡◌, ◌^◌, ◌<◌, ◌++◌, ◌∷◌, [], ℕ, List, negsuc};
ghost use Rattle.wasmi_module.specs.Modules.{Module};
ghost use Rattle.wasmi_module.specs.Sections.{IsWritten};
ghost use Rattle.wasmi_module.specs.Numbers.{IsUnsigned, IsU32, IsI32};

/// No writing of a number begins that of another, and no text is the writing of two.
pub fn numbers_read_once()
    ensures { (limit m n : ℕ) (a b x y : List ℕ) → IsUnsigned limit m a → IsUnsigned limit n b
        → a ++ x ≡ b ++ y → (a ≡ b) × (m ≡ n) }
{}

/// Worked examples: 624485 is E5 8E 26; 3 is also 83 00; 2^32 - 1 is FF FF FF FF 0F.
pub fn numbers_by_example()
    ensures plain { IsU32 624485 (229 ∷ 142 ∷ 38 ∷ []) }
    ensures padded { IsU32 3 (131 ∷ 0 ∷ []) }
    ensures greatest { IsU32 4294967295 (255 ∷ 255 ∷ 255 ∷ 255 ∷ 15 ∷ []) }
    // A bit too many; a sixth byte.
    ensures wide { (n : ℕ) → ¬ (IsU32 n (255 ∷ 255 ∷ 255 ∷ 255 ∷ 31 ∷ [])) }
    ensures long { (n : ℕ) → ¬ (IsU32 n (128 ∷ 128 ∷ 128 ∷ 128 ∷ 128 ∷ 0 ∷ [])) }
    // -123456 is C0 BB 78, and -1 is 7F.
    ensures negative { IsI32 (negsuc 123455) (192 ∷ 187 ∷ 120 ∷ []) }
    ensures minus_one { IsI32 (negsuc 0) (127 ∷ []) }
{}

/// Bytes are a writing of one module at most: what `decode` returns is the only one.
pub fn module_written_once()
    ensures { (m n : Module) (bytes : List ℕ) → IsWritten m bytes → IsWritten n bytes → m ≡ n }
{}
