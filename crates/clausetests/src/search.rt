// The least elements that break a clause, by its tables. The last variable is one set; each one before it is a loop, of which the last two
// have functions of their own, without an array: they are what a test of many clauses does most. A place that nothing fits has no loop.
// Clauses that repeat stay clauses: each function asks for the length that it reads; a type with a number's bound would be made at each
// read and opened at each use.
ghost use Rattle.std.specs.Prelude.{◌≡◌, Bool, ℕ, ◌<◌, ◌≤◌, ◌+◌, ◌-◌, length};
ghost use Rattle.words.specs.Words.{words};
ghost use Rattle.rules.specs.Run.{scratch_bytes};
ghost use Rattle.states.specs.Masks.{mask_of};
ghost use Rattle.clausetests.specs.Fitting.{Twos, Tables};
ghost use Rattle.clausetests.specs.Search.{found_in, found_from, narrowed, search_by, Fits};

use crate::fitting;
use sets::kept;
use sets::places::VARS;

// The last variable, at place j, of the set m.
fn search_one(m: u64, j: u32) -> Option<[u32; 4]>
    requires { j < 4 }
    ensures { (n : ℕ) (two : ℕ → ℕ → ℕ → ℕ → Bool) (F : ℕ → ℕ → Bool) → n ≤ 64 → m ≡ mask_of n (F j) → found_from j 1 result ≡ search_by n two 1 j F }
{
    if m == 0 {
        return None;
    }
    let last = sets::least(m) as u32;
    let mut found = [0; 4];
    found[j as usize] = last;
    Some(found)
}

// The last two, at places j and j + 1, of the sets `here` and `last`.
fn search_two(scratch: &[u8], here: u64, last: u64, j: u32, size: u32) -> Option<[u32; 4]>
    requires { (j < 3) × (size ≤ 64) × (scratch_bytes ≤ length scratch.now) }
    ensures { (two : ℕ → ℕ → ℕ → ℕ → Bool) (F : ℕ → ℕ → Bool) → Twos size (j + 2) two (words scratch.now) → here ≡ mask_of size (F j) → last ≡ mask_of size (F (j + 1)) → found_from j 2 result ≡ search_by size two 2 j F }
{
    if here == 0 {
        return None;
    }
    for x in 0..size {
        if sets::has(here, x as u64) {
            let rest = sets::both(last, fitting::row(scratch, j, j + 1, x));
            if rest == 0 {
                continue;
            }
            if let Some(mut found) = search_one(rest, j + 1) {
                found[j as usize] = x;
                return Some(found);
            }
        }
    }
    None
}

// The last three, at places j, j + 1 and j + 2, of the sets `here`, `next` and `last`.
fn search_three(
    scratch: &[u8],
    here: u64,
    next: u64,
    last: u64,
    j: u32,
    size: u32,
) -> Option<[u32; 4]>
    requires { (j < 2) × (size ≤ 64) × (scratch_bytes ≤ length scratch.now) }
    ensures { (two : ℕ → ℕ → ℕ → ℕ → Bool) (F : ℕ → ℕ → Bool) → Twos size (j + 3) two (words scratch.now) → here ≡ mask_of size (F j) → next ≡ mask_of size (F (j + 1)) → last ≡ mask_of size (F (j + 2)) → found_from j 3 result ≡ search_by size two 3 j F }
{
    if here == 0 {
        return None;
    }
    for x in 0..size {
        if sets::has(here, x as u64) {
            let second = sets::both(next, fitting::row(scratch, j, j + 1, x));
            let third = sets::both(last, fitting::row(scratch, j, j + 2, x));
            if let Some(mut found) = search_two(scratch, second, third, j + 1, size) {
                found[j as usize] = x;
                return Some(found);
            }
        }
    }
    None
}

// The sets of the places behind j and before `end`, with x at place j.
fn narrowed(scratch: &[u8], mut fits: [u64; 4], j: u32, end: u32, x: u32) -> [u64; 4]
    requires { (j < end) × (end ≤ 4) × (x < 64) × (scratch_bytes ≤ length scratch.now) }
    ensures { (n : ℕ) (two : ℕ → ℕ → ℕ → ℕ → Bool) (F : ℕ → ℕ → Bool) → x < n → Twos n end two (words scratch.now) → Fits n (j + 1) end F fits → Fits n (j + 1) end (narrowed two j x F) result }
{
    for i in j + 1..end {
        fits[i as usize] = sets::both(fits[i as usize], fitting::row(scratch, j, i, x));
    }
    fits
}

// The least elements for the places from j on and before `end`, of the sets that fit there. (A loop: a closure in a cycle of calls would
// need clauses of its own.)
fn search_from(scratch: &[u8], fits: [u64; 4], j: u32, end: u32, size: u32) -> Option<[u32; 4]>
    requires { (j < end) × (end ≤ 4) × (size ≤ 64) × (scratch_bytes ≤ length scratch.now) }
    ensures { (two : ℕ → ℕ → ℕ → ℕ → Bool) (F : ℕ → ℕ → Bool) → Twos size end two (words scratch.now) → Fits size j end F fits → found_from j (end - j) result ≡ search_by size two (end - j) j F }
{
    let here = fits[j as usize];
    if here == 0 {
        return None;
    }
    if j + 1 == end {
        return search_one(here, j);
    }
    if j + 2 == end {
        return search_two(scratch, here, fits[(j + 1) as usize], j, size);
    }
    if j + 3 == end {
        return search_three(
            scratch,
            here,
            fits[(j + 1) as usize],
            fits[(j + 2) as usize],
            j,
            size,
        );
    }
    for x in 0..size {
        if sets::has(here, x as u64) {
            let rest = narrowed(scratch, fits, j, end, x);
            if let Some(mut found) = search_from(scratch, rest, j + 1, end, size) {
                found[j as usize] = x;
                return Some(found);
            }
        }
    }
    None
}

// The least elements for k variables, as many from the first on.
pub fn search(scratch: &[u8], k: u32, size: u32) -> Option<[u32; 4]>
    requires { (k ≤ 4) × (size ≤ 64) × (scratch_bytes ≤ length scratch.now) }
    ensures { (one : ℕ → ℕ → Bool) (two : ℕ → ℕ → ℕ → ℕ → Bool) → Tables size k one two (words scratch.now) → found_in k result ≡ search_by size two k 0 one }
{
    if k == 0 {
        return Some([0; 4]);
    }
    let fits = [
        kept::get_set(scratch, VARS),
        kept::get_set(scratch, VARS + 1),
        kept::get_set(scratch, VARS + 2),
        kept::get_set(scratch, VARS + 3),
    ];
    search_from(scratch, fits, 0, k, size)
}
