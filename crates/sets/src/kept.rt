// Sets in lent words, two words each, read and written by the table's words, which their clauses are about.
// Clauses that repeat stay clauses: each function asks for the length that it reads; a type with a number's bound would be made at each
// read and opened at each use.
ghost use Rattle.std.specs.Prelude.{◌≡◌, Bool, ℕ, ◌≤◌, ◌<◌, ◌+◌, ◌*◌, length};
ghost use Rattle.words.specs.Words.{words};
ghost use Rattle.rules.specs.Run.{scratch_bytes};
ghost use Rattle.states.specs.Masks.{mask_of};
ghost use Rattle.sets.specs.Kept.{set_at, set_put};
ghost use Rattle.sets.specs.Laid.{row_of, Rows};

use crate::places::ROWS;

pub fn get_set(s: &[u8], i: usize) -> u64
    requires { 8 * i + 8 ≤ length s.now }
    ensures { result ≡ set_at (words s.now) i }
{
    let low = words::get_word(s, 2 * i) as u64;
    let high = words::get_word(s, 2 * i + 1) as u64;
    low + 4294967296 * high
}

pub fn put_set(s: &mut [u8], i: usize, m: u64)
    requires { 8 * i + 8 ≤ length s.old }
    ensures { words s.new ≡ set_put (words s.old) i m }
{
    words::put_word(s, 2 * i, (m % 4294967296) as u32);
    words::put_word(s, 2 * i + 1, (m / 4294967296) as u32);
}

// What element x is related to by a role code.
pub fn row(scratch: &[u8], code: u32, x: u32) -> u64
    requires { (code < 2048) × (x < 64) × (scratch_bytes ≤ length scratch.now) }
    ensures { result ≡ row_of (words scratch.now) code x }
{
    let at = ROWS + 64 * (code as usize) + x as usize;
    get_set(scratch, at)
}

// The elements, of the first n, that are related to themselves.
pub fn loops(scratch: &[u8], code: u32, n: u32) -> u64
    requires { (code < 2048) × (n ≤ 64) × (scratch_bytes ≤ length scratch.now) }
    ensures { (f : ℕ → ℕ → Bool) → Rows (words scratch.now) code n f → result ≡ mask_of n (λ x. f x x) }
{
    crate::filtered(n, |x| crate::has(row(scratch, code, x), x as u64))
}
