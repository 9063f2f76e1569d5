//! What holds of numbers, as a call that does nothing: its contract is the law.
ghost use Rattle.std.specs.Prelude.{◌≡◌, ℕ, Bool, List, map, position, All, ◌==◌};
ghost use Rattle.index_layout.specs.Numbers.{number_in};

/// Where a number tells each key from the others, the key has the place of its number.
pub fn numbered_by_code<T>()
    ensures { (same : T → T → Bool) (code : T → ℕ) (key : T) (keys : List T)
        → All (λ k. same key k ≡ (code key == code k)) keys
        → number_in (map code keys) (code key) ≡ position (same key) keys }
{}
