//! Laws of the definitions that the contracts cite. Their functions do nothing: the contract is the law.
ghost use Rattle.std.specs.Prelude.{◌≡◌, ◌≤◌, ◌<◌, ◌<ℤ◌, ◌≤ℤ◌, ◌^◌, ◌++◌, ℕ, ℤ, pos, neg_ℤ, List, length, Ok};
ghost use Rattle.leb_codec.specs.declared.form.Form.{Form};
ghost use Rattle.leb_codec.specs.declared.form.Form.TheVariants.{U32, S32, S33, S64};
ghost use Rattle.leb_codec.specs.Spelling.{magnitude, signed_value, Spells};
ghost use Rattle.leb_codec.specs.Reading.{number_at};
ghost use Rattle.leb_codec.specs.Shortest.{u32 as computed_u32, u32_padded, s32 as computed_s32, s32_padded, s64 as computed_s64};

/// The bytes computed for a u32 spell it, and no spelling of it is shorter.
pub fn shortest_u32()
    ensures spells { (n : ℕ) → n < 2 ^ 32 → Spells magnitude U32 (computed_u32 n) n }
    ensures shortest { (n : ℕ) (bytes : List ℕ) → Spells magnitude U32 bytes n
        → length (computed_u32 n) ≤ length bytes }
{}

/// The bytes computed for an s32 spell it, and no spelling of it is shorter.
pub fn shortest_s32()
    ensures spells { (n : ℤ) → neg_ℤ (pos (2 ^ 31)) ≤ℤ n → n <ℤ pos (2 ^ 31)
        → Spells signed_value S32 (computed_s32 n) n }
    ensures shortest { (n : ℤ) (bytes : List ℕ) → Spells signed_value S32 bytes n
        → length (computed_s32 n) ≤ length bytes }
{}

/// The bytes computed for an s64 spell it, and no spelling of it is shorter.
pub fn shortest_s64()
    ensures spells { (n : ℤ) → neg_ℤ (pos (2 ^ 63)) ≤ℤ n → n <ℤ pos (2 ^ 63)
        → Spells signed_value S64 (computed_s64 n) n }
    ensures shortest { (n : ℤ) (bytes : List ℕ) → Spells signed_value S64 bytes n
        → length (computed_s64 n) ≤ length bytes }
{}

/// The padded bytes computed for a u32 spell it, and are five.
pub fn padded_u32()
    ensures spells { (n : ℕ) → n < 2 ^ 32 → Spells magnitude U32 (u32_padded n) n }
    ensures five { (n : ℕ) → length (u32_padded n) ≡ 5 }
{}

/// The padded bytes computed for an s32 spell it, and are five.
pub fn padded_s32()
    ensures spells { (n : ℤ) → neg_ℤ (pos (2 ^ 31)) ≤ℤ n → n <ℤ pos (2 ^ 31)
        → Spells signed_value S32 (s32_padded n) n }
    ensures five { (n : ℤ) → length (s32_padded n) ≡ 5 }
{}

/// No spelling has two values, and none begins another.
pub fn one_value()
    ensures unsigned { (form : Form) (a b r q : List ℕ) (n m : ℕ)
        → Spells magnitude form a n → Spells magnitude form b m → a ++ r ≡ b ++ q → (a ≡ b) × (n ≡ m) }
    ensures signed { (form : Form) (a b r q : List ℕ) (n m : ℤ)
        → Spells signed_value form a n → Spells signed_value form b m → a ++ r ≡ b ++ q → (a ≡ b) × (n ≡ m) }
{}

/// What is spelled is read, whatever follows.
pub fn read_again()
    ensures unsigned { (form : Form) (bytes rest : List ℕ) (n : ℕ)
        → Spells magnitude form bytes n → number_at magnitude form (bytes ++ rest) ≡ Ok (n, length bytes) }
    ensures signed { (form : Form) (bytes rest : List ℕ) (n : ℤ)
        → Spells signed_value form bytes n → number_at signed_value form (bytes ++ rest) ≡ Ok (n, length bytes) }
{}

/// A number that is spelled lies in the range of its form, so one that is read does.
pub fn spelled_in_range()
    ensures of_u32 { (n : ℕ) (bytes : List ℕ) → Spells magnitude U32 bytes n → n < 2 ^ 32 }
    ensures of_s32 { (n : ℤ) (bytes : List ℕ) → Spells signed_value S32 bytes n
        → (neg_ℤ (pos (2 ^ 31)) ≤ℤ n) × (n <ℤ pos (2 ^ 31)) }
    ensures of_s33 { (n : ℤ) (bytes : List ℕ) → Spells signed_value S33 bytes n
        → (neg_ℤ (pos (2 ^ 32)) ≤ℤ n) × (n <ℤ pos (2 ^ 32)) }
    ensures of_s64 { (n : ℤ) (bytes : List ℕ) → Spells signed_value S64 bytes n
        → (neg_ℤ (pos (2 ^ 63)) ≤ℤ n) × (n <ℤ pos (2 ^ 63)) }
{}
