// An atom's record: six words of a table, and back; runs of words compared.
// Clauses that repeat stay clauses: each function asks for the length that it reads; a type with a number's bound would be made at each
// read and opened at each use.
ghost use Rattle.std.specs.Prelude.{◌≡◌, ◌+◌, ◌*◌, ◌≤◌, ◌<◌, ◌^◌, length, take, drop};
ghost use Rattle.std.proofs.lemmas.List.Edits.{sets};
ghost use Rattle.words.specs.Words.{words};
ghost use Rattle.ir.specs.Records.{Fits, qualifier_word, qualifier_of, words_of, six, six_of, record_at, atom_at, read_words};
ghost use Rattle.ir.specs.Records.{unused_words, class_read, role_read, exists_read, at_most_read, at_least_read, equal_read};
ghost use Rattle.ir.specs.Records.{same_words};

use crate::atom::{Atom, Qualifier};
use crate::role::Role;

// kind, role code, class id + 1, number, two variables
#[derive(Clone, Copy)]
pub struct AtomWords(pub u32, pub u32, pub u32, pub u32, pub u32, pub u32);

// 0, or one more than the class. No From, here and at `encode`: each asks for a bound, which a From cannot; `qualifier_of` and `decode`
// are their other halves.
fn qualifier_word(q: Qualifier) -> u32
    requires { qualifier_word q < 2 ^ 32 }
    ensures { result ≡ qualifier_word q }
{
    match q {
        None => 0,
        Some(c) => c + 1,
    }
}

fn qualifier_of(w: u32) -> Qualifier
    ensures { result ≡ qualifier_of w }
{
    w.checked_sub(1)
}

pub fn encode(a: Atom) -> AtomWords
    requires { Fits a }
    ensures { result ≡ words_of a }
{
    match a {
        Atom::Class(k, v) => AtomWords(1, 0, k + 1, 0, v, 0),
        Atom::Role(r, u, v) => AtomWords(2, r.code(), 0, 0, u, v),
        Atom::Exists(r, k, v) => AtomWords(3, r.code(), k + 1, 0, v, 0),
        Atom::AtMost(r, q, n, v) => AtomWords(4, r.code(), qualifier_word(q), n, v, 0),
        Atom::AtLeast(r, q, n, v) => AtomWords(5, r.code(), qualifier_word(q), n, v, 0),
        Atom::Equal(u, v) => AtomWords(6, 0, 0, 0, u, v),
    }
}

// Whether three words are unused.
fn unused(a: u32, b: u32, c: u32) -> bool
    ensures { result ≡ unused_words a b c }
{
    a == 0 && b == 0 && c == 0
}

#[tactic(auto, unfolding(crate::specs::Records::class_read))]
fn read_class(w: AtomWords) -> Option<Atom>
    ensures { result ≡ class_read w.1 w.2 w.3 w.4 w.5 }
{
    if !unused(w.1, w.3, w.5) {
        return None;
    }
    let k = w.2.checked_sub(1)?;
    Some(Atom::Class(k, w.4))
}

#[tactic(auto, unfolding(crate::specs::Records::role_read))]
fn read_role(w: AtomWords) -> Option<Atom>
    ensures { result ≡ role_read w.1 w.2 w.3 w.4 w.5 }
{
    if !unused(w.2, w.3, 0) {
        return None;
    }
    Some(Atom::Role(Role::of_code(w.1), w.4, w.5))
}

#[tactic(auto, unfolding(crate::specs::Records::exists_read))]
fn read_exists(w: AtomWords) -> Option<Atom>
    ensures { result ≡ exists_read w.1 w.2 w.3 w.4 w.5 }
{
    if !unused(w.3, w.5, 0) {
        return None;
    }
    let k = w.2.checked_sub(1)?;
    Some(Atom::Exists(Role::of_code(w.1), k, w.4))
}

// As at_least_read but for the variant that it makes: a shared function would be told which.
#[tactic(auto, unfolding(crate::specs::Records::at_most_read))]
fn read_at_most(w: AtomWords) -> Option<Atom>
    ensures { result ≡ at_most_read w.1 w.2 w.3 w.4 w.5 }
{
    if w.5 != 0 {
        return None;
    }
    Some(Atom::AtMost(Role::of_code(w.1), qualifier_of(w.2), w.3, w.4))
}

#[tactic(auto, unfolding(crate::specs::Records::at_least_read))]
fn read_at_least(w: AtomWords) -> Option<Atom>
    ensures { result ≡ at_least_read w.1 w.2 w.3 w.4 w.5 }
{
    if w.5 != 0 {
        return None;
    }
    Some(Atom::AtLeast(Role::of_code(w.1), qualifier_of(w.2), w.3, w.4))
}

#[tactic(auto, unfolding(crate::specs::Records::equal_read))]
fn read_equal(w: AtomWords) -> Option<Atom>
    ensures { result ≡ equal_read w.1 w.2 w.3 w.4 w.5 }
{
    if !unused(w.1, w.2, w.3) {
        return None;
    }
    Some(Atom::Equal(w.4, w.5))
}

// The atom of six words; six that no atom has are none.
#[tactic(auto, unfolding(crate::specs::Records::read_of))]
pub fn decode(w: AtomWords) -> Option<Atom>
    ensures { result ≡ read_words w }
{
    let kind = w.0;
    match kind {
        1 => read_class(w),
        2 => read_role(w),
        3 => read_exists(w),
        4 => read_at_most(w),
        5 => read_at_least(w),
        6 => read_equal(w),
        _ => None,
    }
}

fn put_record(t: &mut [u8], i: usize, w: AtomWords)
    requires { 24 * i + 24 ≤ length t.old }
    ensures { words t.new ≡ sets (words t.old) (6 * i) (six_of w) }
{
    words::put_words(t, 6 * i, &[w.0, w.1, w.2, w.3, w.4, w.5]);
}

// Record i of a table becomes the atom.
pub fn put_atom(t: &mut [u8], i: usize, a: Atom)
    requires { (24 * i + 24 ≤ length t.old) × Fits a }
    ensures { words t.new ≡ sets (words t.old) (6 * i) (six a) }
{
    let w = encode(a);
    put_record(t, i, w);
}

fn get_record(t: &[u8], i: usize) -> AtomWords
    requires { 24 * i + 24 ≤ length t.now }
    ensures { result ≡ record_at (words t.now) i }
{
    let at = 6 * i;
    AtomWords(
        words::get_word(t, at),
        words::get_word(t, at + 1),
        words::get_word(t, at + 2),
        words::get_word(t, at + 3),
        words::get_word(t, at + 4),
        words::get_word(t, at + 5),
    )
}

// What record i of a table is.
pub fn get_atom(t: &[u8], i: usize) -> Option<Atom>
    requires { 24 * i + 24 ≤ length t.now }
    ensures { result ≡ atom_at (words t.now) i }
{
    decode(get_record(t, i))
}

// n words of s from word i on are those of t from word j on. Word by word: most atoms that are compared differ in their first words, and
// std compares slices by a call.
pub fn same_words(s: &[u8], i: usize, t: &[u8], j: usize, n: usize) -> bool
    requires { (4 * (i + n) ≤ length s.now) × (4 * (j + n) ≤ length t.now) }
    ensures { result ≡ same_words (take n (drop i (words s.now))) (take n (drop j (words t.now))) }
{
    (0..n).all(|k| words::get_word(s, i + k) == words::get_word(t, j + k))
}
