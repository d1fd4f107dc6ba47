// Sets of at most 64 elements, element x the digit x of one number.
// Clauses that repeat stay clauses: a type with a number's bound would be made at each read and opened at each use.
#![tactic(auto)]

pub mod kept;
pub mod places;
pub mod verdict;

ghost use Rattle.std.specs.Prelude.{◌≡◌, Bool, ◌&&◌, ◌||◌, not, true, ℕ, ◌<◌, ◌≤◌, ◌+◌, ◌/◌, ◌%◌, ◌^◌, eqb};
ghost use Rattle.rules.specs.Semantics.{count, same_truth};
ghost use Rattle.states.specs.Conditions.{rises};
ghost use Rattle.states.specs.Masks.{mask_of};
ghost use Rattle.states.specs.ChainLaws.{first_where};

// Whether x is in the set.
pub fn has(m: u64, x: u64) -> bool
    requires { x < 64 }
    ensures value { result ≡ eqb (m / 2 ^ x % 2) 1 }
    ensures by_index { (n : ℕ) (f : ℕ → Bool) → x < n → m ≡ mask_of n f → result ≡ f x }
{
    ((m >> x) & 1) == 1
}

// What both sets have.
pub fn both(a: u64, b: u64) -> u64
    ensures { (n : ℕ) (f g : ℕ → Bool) → a ≡ mask_of n f → b ≡ mask_of n g → result ≡ mask_of n (λ x. f x && g x) }
{
    a & b
}

// What one of them has.
pub fn either(a: u64, b: u64) -> u64
    ensures { (n : ℕ) (f g : ℕ → Bool) → a ≡ mask_of n f → b ≡ mask_of n g → result ≡ mask_of n (λ x. f x || g x) }
{
    a | b
}

// What one has and the other has not.
pub fn differ(a: u64, b: u64) -> u64
    ensures { (n : ℕ) (f g : ℕ → Bool) → a ≡ mask_of n f → b ≡ mask_of n g → result ≡ mask_of n (λ x. not (same_truth (f x) (g x))) }
{
    a ^ b
}

// What the first has and the second has not.
pub fn without(a: u64, b: u64) -> u64
    ensures { (n : ℕ) (f g : ℕ → Bool) → a ≡ mask_of n f → b ≡ mask_of n g → result ≡ mask_of n (λ x. f x && not (g x)) }
{
    a - (a & b)
}

// How many elements a set has.
pub fn size(a: u64) -> u32
    ensures { (n : ℕ) (f : ℕ → Bool) → a ≡ mask_of n f → result ≡ count f (rises 0 n) }
{
    u64::count_ones(a)
}

// All of the first n elements.
pub fn whole(n: u64) -> u64
    requires { n ≤ 64 }
    ensures { result ≡ mask_of n (λ _. true) }
{
    if n == 64 {
        return 18446744073709551615;
    }
    (1 << n) - 1
}

// With element x.
pub fn with(m: u64, x: u64) -> u64
    requires { x < 64 }
    ensures { (n : ℕ) (f : ℕ → Bool) → x < n → m ≡ mask_of n f → result ≡ mask_of n (λ y. f y || eqb y x) }
{
    m | (1 << x)
}

// A set of the x elements before x, and whether x is in it.
pub fn grown(m: u64, x: u64, b: bool) -> u64
    requires { x < 64 }
    ensures { (f : ℕ → Bool) → m ≡ mask_of x f → b ≡ f x → result ≡ mask_of (x + 1) f }
{
    if b {
        return m | (1 << x);
    }
    m
}

// The elements of the first n that pass the test. (A loop: the closure of a `fold` in a generic function, tried here, needs clauses of
// its own, which repeat `few` and `callable`.)
pub fn filtered<F: Fn(u32) -> bool>(n: u32, test: F) -> u64
    requires few { n ≤ 64 }
    requires callable { (x : ℕ) → x < n → F.pre test x }
    ensures { (f : ℕ → Bool) → ((x : ℕ) (b : Bool) → x < n → F.post test x b → b ≡ f x) → result ≡ mask_of n f }
{
    let mut m: u64 = 0;
    for x in 0..n {
        m = grown(m, x as u64, test(x));
    }
    m
}

// The least element of a set that has one.
pub fn least(m: u64) -> u64
    requires { 0 < m }
    ensures upper_bound { result ≤ 64 }
    ensures by_index { (n : ℕ) (f : ℕ → Bool) → n ≤ 64 → m ≡ mask_of n f → (result ≡ first_where f (rises 0 n)) × (result < n) }
{
    u64::trailing_zeros(m) as u64
}
