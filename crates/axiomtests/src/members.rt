// Sets of a list, by the list's numbers.
// Clauses that repeat stay clauses: `SetsIn` is about one moment of what is lent; a type with a number's bound would be made at each read
// and opened at each use. A run stays its first word and its count, as in the definitions.
ghost use Rattle.std.specs.Prelude.{◌≡◌, Bool, ℕ, ◌+◌, ◌<◌, ◌≤◌};
ghost use Rattle.words.specs.Words.{words};
ghost use Rattle.rules.specs.Base.{all, any};
ghost use Rattle.states.specs.State.{most_elements};
ghost use Rattle.states.specs.Masks.{mask_of};
ghost use Rattle.sets.specs.Places.{concepts_at, rows_at};
ghost use Rattle.axiomtests.specs.Lists.{number_of, numbers_from, numbers_of, member_set, unlike_at, clash_at, clashes_at, Clashing, Members, SetsIn};

use sets::places::{CONCEPTS, ROWS};

// The numbers stand from word `at` on, and the set of number m is set `first + step * m`.
#[derive(Clone, Copy)]
pub struct Sets {
    pub at: usize,
    pub count: u32,
    pub first: usize,
    pub step: usize,
}

impl Sets {
    // Of concepts.
    pub fn of_concepts(at: usize, count: u32) -> Sets
        ensures { result ≡ record { at = at; count = count; first = concepts_at; step = 1 } }
    {
        Sets {
            at,
            count,
            first: CONCEPTS,
            step: 1,
        }
    }

    // Of roles: what element x is related to.
    pub fn of_roles(at: usize, count: u32, x: u64) -> Sets
        requires { x < most_elements }
        ensures { result ≡ record { at = at; count = count; first = rows_at + x; step = 64 } }
    {
        Sets {
            at,
            count,
            first: ROWS + x as usize,
            step: 64,
        }
    }
}

// The set of number j.
fn member(scratch: &[u8], l: Sets, j: u32) -> u64
    requires { SetsIn scratch.now l × (j < l.count) }
    ensures { result ≡ member_set (words scratch.now) l j }
{
    let m = words::get_word(scratch, l.at + j as usize) as usize;
    sets::kept::get_set(scratch, l.first + l.step * m)
}

// The sets from the last number to the first, each joined to what is found behind it. (A loop: the closure of a `fold` in a generic
// function, tried here, needs clauses of its own, which repeat `there` and `callable`.)
fn folded<F: Fn(u64, u64) -> u64>(scratch: &[u8], l: Sets, end: u64, join: F) -> u64
    requires there { SetsIn scratch.now l }
    requires callable { (a b : ℕ) → F.pre join a b }
    ensures { (g : ℕ → ℕ) → end ≡ g l.count → ((j found r : ℕ) → j < l.count → found ≡ g (j + 1) → F.post join (member_set (words scratch.now) l j) found r → r ≡ g j) → result ≡ g 0 }
{
    let mut found = end;
    for j in (0..l.count).rev() {
        found = join(member(scratch, l, j), found);
    }
    found
}

// What some of them have.
pub fn some(scratch: &[u8], l: Sets) -> u64
    requires { SetsIn scratch.now l }
    ensures { (n : ℕ) (f : ℕ → ℕ → Bool) → Members n f (words scratch.now) l → result ≡ mask_of n (λ x. any (λ c. f c x) (numbers_of (words scratch.now) l)) }
{
    folded(scratch, l, 0, sets::either)
}

// What all of them have.
pub fn every(scratch: &[u8], l: Sets, size: u64) -> u64
    requires { SetsIn scratch.now l × (size ≤ 64) }
    ensures { (f : ℕ → ℕ → Bool) → Members size f (words scratch.now) l → result ≡ mask_of size (λ x. all (λ c. f c x) (numbers_of (words scratch.now) l)) }
{
    folded(scratch, l, sets::whole(size), sets::both)
}

// What one of them has and another has not.
pub fn unlike(scratch: &[u8], l: Sets, size: u64) -> u64
    requires { SetsIn scratch.now l × (size ≤ 64) }
    ensures { (f : ℕ → ℕ → Bool) → Members size f (words scratch.now) l → result ≡ mask_of size (λ x. unlike_at f (numbers_of (words scratch.now) l) x) }
{
    sets::without(some(scratch, l), every(scratch, l, size))
}

// What the set m of number a and that of number k have, if the numbers clash.
fn clash<F: Fn(u32, u32) -> bool>(
    scratch: &[u8],
    l: Sets,
    clashing: &F,
    a: u32,
    m: u64,
    k: u32,
) -> u64
    requires there { SetsIn scratch.now l × (k < l.count) }
    requires callable { (a b : ℕ) → F.pre clashing.now a b }
    ensures { (always : Bool) → Clashing (F.post clashing.now) always → (n : ℕ) (f : ℕ → ℕ → Bool) → Members n f (words scratch.now) l → m ≡ mask_of n (f a) → result ≡ mask_of n (clash_at always f a (number_of (words scratch.now) l k)) }
{
    let b = words::get_word(scratch, l.at + k as usize);
    if clashing(a, b) {
        return sets::both(m, member(scratch, l, k));
    }
    0
}

// What number j and a later one have, if they clash. (By `folded` over a closure the step does not close: `search` would have to guess
// what `clash` gave.)
fn clash_behind<F: Fn(u32, u32) -> bool>(scratch: &[u8], l: Sets, clashing: &F, j: u32) -> u64
    requires there { SetsIn scratch.now l × (j < l.count) }
    requires callable { (a b : ℕ) → F.pre clashing.now a b }
    ensures { (always : Bool) → Clashing (F.post clashing.now) always → (n : ℕ) (f : ℕ → ℕ → Bool) → Members n f (words scratch.now) l → result ≡ mask_of n (λ x. any (λ b. clash_at always f (number_of (words scratch.now) l j) b x) (numbers_from (words scratch.now) l (j + 1))) }
{
    let a = words::get_word(scratch, l.at + j as usize);
    let m = member(scratch, l, j);
    let mut found = 0;
    for k in (j + 1..l.count).rev() {
        found = sets::either(clash(scratch, l, clashing, a, m, k), found);
    }
    found
}

// What two of them have whose numbers clash. (A loop as in `folded`.)
pub fn clashes<F: Fn(u32, u32) -> bool>(scratch: &[u8], l: Sets, clashing: F) -> u64
    requires there { SetsIn scratch.now l }
    requires callable { (a b : ℕ) → F.pre clashing a b }
    ensures { (always : Bool) → Clashing (F.post clashing) always → (n : ℕ) (f : ℕ → ℕ → Bool) → Members n f (words scratch.now) l → result ≡ mask_of n (λ x. clashes_at always f (numbers_of (words scratch.now) l) x) }
{
    let mut found = 0;
    for j in (0..l.count).rev() {
        found = sets::either(clash_behind(scratch, l, &clashing, j), found);
    }
    found
}
