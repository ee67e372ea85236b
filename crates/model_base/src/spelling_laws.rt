// What holds of every spelling. A caller learns it by calling a function that does nothing.
ghost use Rattle.std.specs.Prelude.{◌≡◌, ◌<◌, ◌≤◌, ◌^◌, ℕ, List, ◌++◌, length, slice_index};
ghost use Rattle.model_base.specs.Spelling.{spelling32, spelling64};

/// No spelling is the front of another, and none spells two numbers.
pub fn one_spelling()
    ensures thirty_two { (m n : ℕ) (x y : List ℕ) → m < 2 ^ 32 → n < 2 ^ 32
        → spelling32 m ++ x ≡ spelling32 n ++ y → (m ≡ n) × (x ≡ y) }
    ensures sixty_four { (m n : ℕ) (x y : List ℕ) → m < 2 ^ 64 → n < 2 ^ 64
        → spelling64 m ++ x ≡ spelling64 n ++ y → (m ≡ n) × (x ≡ y) }
{}

/// How long a spelling is, and that it is of bytes.
pub fn spelling_lengths()
    ensures some32 { (n : ℕ) → n < 2 ^ 32 → 1 ≤ length (spelling32 n) }
    ensures most32 { (n : ℕ) → n < 2 ^ 32 → length (spelling32 n) ≤ 5 }
    ensures some64 { (n : ℕ) → n < 2 ^ 64 → 5 ≤ length (spelling64 n) }
    ensures most64 { (n : ℕ) → n < 2 ^ 64 → length (spelling64 n) ≤ 9 }
    ensures bytes32 { (n : ℕ) → n < 2 ^ 32 → (i : ℕ) → slice_index (spelling32 n) i < 256 }
    ensures bytes64 { (n : ℕ) → n < 2 ^ 64 → (i : ℕ) → slice_index (spelling64 n) i < 256 }
{}
