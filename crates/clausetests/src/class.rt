// A class's set: in the store, or beyond its room in the state's text.
// Clauses that repeat stay clauses: each function asks for the length that it reads.
ghost use Rattle.std.specs.Prelude.{◌≡◌, ◌&&◌, List, [], ◌∷◌, ◌++◌, ℕ, suc, ◌+◌, ◌*◌, ◌≤◌, length, get_or, drop, eqb};
ghost use Rattle.words.specs.Words.{words};
ghost use Rattle.rules.specs.Semantics.{Interpretation};
ghost use Rattle.states.specs.Masks.{mask_of};
ghost use Rattle.states.specs.ScanLaws.{scan_by, scanned};
ghost use Rattle.text.specs.Rows.{row_at};
ghost use Rattle.clausetests.specs.Given.{Given};
ghost use Rattle.clausetests.specs.ScanCode.{set_of};

use crate::State;
use sets::kept;

// With x, which is no element where it is not below size.
fn with_below(state: &State, m: u64, x: usize) -> u64
    ensures { (l : List ℕ) → m ≡ set_of state.now.size l → result ≡ set_of state.now.size (l ++ (x ∷ [])) }
{
    if x < state.size as usize {
        return sets::with(m, x as u64);
    }
    m
}

// The numbers behind the first two of a line. (Its place and its count, as the readers of `text` take them.)
fn line_set(state: &State, p: usize, n: usize) -> u64
    requires { p + 11 * n ≤ length state.now.text.now }
    ensures { result ≡ set_of state.now.size (drop 2 (row_at state.now.text.now p n)) }
{
    (2..n).fold(
        0,
        |m, k| with_below(state, m, text::field(state.text, p, n, k)),
    )
}

// The line is class c's.
fn is_line(text: &[u8], p: usize, n: usize, c: u32) -> bool
    requires { p + 11 * n ≤ length text.now }
    ensures { result ≡ eqb (get_or (row_at text.now p n) 0 0) 51 && eqb c (get_or (row_at text.now p n) 1 0) }
{
    text::entry(text, p, n, 0) == 51 && c as usize == text::entry(text, p, n, 1)
}

// Class c's line, from the line at `from` on.
fn scan_lines(state: &State, from: usize, c: u32) -> u64
    requires { from ≤ length state.now.text.now }
    ensures { result ≡ set_of state.now.size (scan_by (suc (length (drop from state.now.text.now))) (drop from state.now.text.now) c) }
{
    let text = state.text;
    let mut p = from;
    // a line says how long it is, so no range gives the lines
    while p < text.len() {
        let Some(n) = text::fields(text, p) else {
            return 0;
        };
        if is_line(text, p, n, c) {
            return line_set(state, p, n);
        }
        p = p + 11 * n + 1;
    }
    0
}

// In the whole text, from its second line on.
fn scan(state: &State, c: u32) -> u64
    ensures { result ≡ set_of state.now.size (scanned state.now.text.now c) }
{
    if state.text.len() == 0 {
        return 0;
    }
    let Some(n) = text::fields(state.text, 0) else {
        return 0;
    };
    scan_lines(state, 11 * n + 1, c)
}

// Class c's set.
pub fn class_set(state: &State, c: u32) -> u64
    ensures { (I : Interpretation) (roles : ℕ) (v : List ℕ) → Given I roles state.now.size state.now.text.now (words state.now.store.now) v → result ≡ mask_of I.size (I.class c) }
{
    let i = c as usize;
    if 8 * i + 8 <= state.store.len() {
        return kept::get_set(state.store, i);
    }
    scan(state, c)
}
