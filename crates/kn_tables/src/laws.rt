//! Setting one variable in an index leaves all others as they are, for those who reason about tables by indices.
ghost use Rattle.std.specs.Prelude.{◌≡◌, ◌==◌, ℕ, Bool, if◌then◌else◌};
ghost use Rattle.kn_tables.specs.Indices.{has_bit, index_with};

/// A law over the definitions, and no code: the index that gives a variable a value gives every other
/// variable the value that it had.
pub fn an_index_with_a_value()
    ensures { (i : ℕ) (j : ℕ) (value : Bool) (k : ℕ) → has_bit (index_with i j value) k ≡ (if k == j then value else has_bit i k) }
{}
