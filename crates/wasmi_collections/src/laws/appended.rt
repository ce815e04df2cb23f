//! Laws of values that go to the end of a list.
ghost use Rattle.std.specs.Prelude.{◌≡◌, ◌∷◌, ◌++◌, [], ℕ, List, length, position, None, Some};

/// A value that wasn't there is found at the end once it was put there, and others are found where they were.
pub fn appended_values<T: Eq>()
    ensures last { (values : List T) (value : T) → position (T.eq value) values ≡ None
        → position (T.eq value) (values ++ value ∷ []) ≡ Some (length values) }
    ensures kept { (values more : List T) (value : T) (place : ℕ)
        → position (T.eq value) values ≡ Some place
        → position (T.eq value) (values ++ more) ≡ Some place }
{}
