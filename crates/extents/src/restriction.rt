// Some, All, Min and Max: which elements they have, by what each is related to.
ghost use Rattle.std.specs.Prelude.{◌≡◌, Bool, ◌&&◌, ℕ, leb};
ghost use Rattle.rules.specs.Base.{all as all_of, any as any_of};
ghost use Rattle.rules.specs.Semantics.{elements_below, implies, count};
ghost use Rattle.states.specs.Masks.{mask_of};

// Whether one of the row is in the set.
pub fn some(row: u64, set: u64) -> bool
    ensures { (n : ℕ) (f g : ℕ → Bool) → row ≡ mask_of n f → set ≡ mask_of n g → result ≡ any_of (λ y. f y && g y) (elements_below n) }
{
    sets::both(row, set) != 0
}

// Whether all of the row are in the set.
pub fn all(row: u64, set: u64) -> bool
    ensures { (n : ℕ) (f g : ℕ → Bool) → row ≡ mask_of n f → set ≡ mask_of n g → result ≡ all_of (λ y. implies (f y) (g y)) (elements_below n) }
{
    sets::without(row, set) == 0
}

// Whether at least so many of the row are in the set.
pub fn at_least(number: u32, row: u64, set: u64) -> bool
    ensures { (n : ℕ) (f g : ℕ → Bool) → row ≡ mask_of n f → set ≡ mask_of n g → result ≡ leb number (count (λ y. f y && g y) (elements_below n)) }
{
    number <= sets::size(sets::both(row, set))
}

// Whether at most so many of the row are in the set.
pub fn at_most(number: u32, row: u64, set: u64) -> bool
    ensures { (n : ℕ) (f g : ℕ → Bool) → row ≡ mask_of n f → set ≡ mask_of n g → result ≡ leb (count (λ y. f y && g y) (elements_below n)) number }
{
    sets::size(sets::both(row, set)) <= number
}
