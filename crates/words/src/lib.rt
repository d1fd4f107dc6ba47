// Words of four bytes, low byte first, in lent byte slices. Word i is bytes 4 * i to 4 * i + 3.
#![tactic(auto)]

ghost use Rattle.std.specs.Prelude.{◌≡◌, ◌+◌, ◌*◌, ◌≤◌, ◌%◌, get_or, length, set, take, drop, replicate};
ghost use Rattle.std.proofs.lemmas.List.Edits.{sets};
ghost use Rattle.words.specs.Words.{words};

// Word i.
pub fn get_word(s: &[u8], i: usize) -> u32
    requires { 4 * i + 4 ≤ length s.now }
    ensures { result ≡ get_or (words s.now) i 0 }
{
    let at = 4 * i;
    u32::from_le_bytes([s[at], s[at + 1], s[at + 2], s[at + 3]])
}

// Word i, 0 past the end.
pub fn word_or_zero(s: &[u8], i: usize) -> u32
    ensures { result ≡ get_or (words s.now) i 0 }
{
    if i < s.len() / 4 { get_word(s, i) } else { 0 }
}

// Word i becomes w.
pub fn put_word(s: &mut [u8], i: usize, w: u32)
    requires { 4 * i + 4 ≤ length s.old }
    ensures { words s.new ≡ set (words s.old) i w }
{
    let at = 4 * i;
    s[at..at + 4].copy_from_slice(&w.to_le_bytes());
}

// The words from `at` on become xs.
pub fn put_words(s: &mut [u8], at: usize, xs: &[u32])
    requires { 4 * (at + length xs.now) ≤ length s.old }
    ensures { words s.new ≡ sets (words s.old) at xs.now }
{
    for i in 0..xs.len() {
        put_word(s, at + i, xs[i]);
    }
}

// All zeros.
pub fn clear(s: &mut [u8])
    ensures { s.new ≡ replicate (length s.old) 0 }
{
    s.fill(0);
}

// Zeros in n words from word `at` on. This and the two below tell the part of a table in words: a slice of its bytes would be made by each
// caller of the same numbers times four.
pub fn clear_words(s: &mut [u8], at: usize, n: usize)
    requires { 4 * (at + n) ≤ length s.old }
    ensures { words s.new ≡ sets (words s.old) at (replicate n 0) }
{
    s[4 * at..4 * (at + n)].fill(0);
}

// The bytes of `run`. A loop: std's copy_from_slice is a call of memmove where the length is not known before, and an archive for C would
// need that from outside.
pub fn copy(s: &mut [u8], run: &[u8])
    requires { length s.old ≡ length run.now }
    ensures { s.new ≡ run.now }
{
    for i in 0..run.len() {
        s[i] = run[i];
    }
}

// The words of another table's part, from word `at` on.
pub fn copy_words(s: &mut [u8], at: usize, run: &[u8])
    requires { (4 * at + length run.now ≤ length s.old) × (length run.now % 4 ≡ 0) }
    ensures { words s.new ≡ sets (words s.old) at (words run.now) }
{
    let to = 4 * at;
    copy(&mut s[to..to + run.len()], run);
}

// n words from `from` on become those from `to` on, as they were; the two runs may overlap.
pub fn move_words(s: &mut [u8], from: usize, to: usize, n: usize)
    requires { (4 * (from + n) ≤ length s.old) × (4 * (to + n) ≤ length s.old) }
    ensures { words s.new ≡ sets (words s.old) to (take n (drop from (words s.old))) }
{
    s.copy_within(4 * from..4 * (from + n), 4 * to);
}
