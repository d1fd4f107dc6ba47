// A reply and its tables beside what the data has. The tables stay each by itself, as clausify's entries take them: a struct would be
// taken apart at its one call.
use crate::data;
use clausify::numbers::Numbers;
use ir::answer::Refused;
use std::num;
use tables::read;

// Zeros from word `from` on.
pub fn is_clear(t: &[u8], from: usize) -> bool {
    (from..t.len() / 4).all(|i| words::get_word(t, i) == 0)
}

// Where the next number ends, if it is w.
fn meet(data: &[u8], at: usize, w: u32) -> Option<usize> {
    let x = data::number(data, at);
    (x.value == w).then_some(x.at)
}

// Where the next numbers end, if they are these.
fn meet_all(data: &[u8], from: usize, numbers: &[u32]) -> Option<usize> {
    numbers.iter().try_fold(from, |at, w| meet(data, at, *w))
}

// The ten numbers of line 43.
fn meet_numbers(data: &[u8], at: usize, n: Numbers) -> Option<usize> {
    meet_all(data, at, &n.words())
}

// How far the data is met, and the atom where the next clause's run begins.
#[derive(Clone, Copy)]
struct Walk {
    at: usize,
    first: u32,
}

// Clause i's record, which is not met where the table has none.
fn meet_clause(data: &[u8], clauses: &[u8], i: u32, w: Walk) -> Option<Walk> {
    if read::clause_room(clauses) <= i as usize || read::first_atom(clauses, i) != w.first {
        return None;
    }
    let body = read::body_count(clauses, i);
    let head = read::head_count(clauses, i);
    let at = meet_all(data, w.at, &[body, head])?;
    let first = num::wrapping_add_u32(num::wrapping_add_u32(w.first, body), head);
    Some(Walk { at, first })
}

fn meet_clauses(data: &[u8], clauses: &[u8], n: u32, at: usize) -> Option<Walk> {
    (0..n).try_fold(Walk { at, first: 0 }, |w, i| {
        meet_clause(data, clauses, i, w)
    })
}

// A word of an atom: it is not stored where it is 0.
fn meet_word(data: &[u8], at: usize, stored: bool, w: u32) -> Option<usize> {
    if stored {
        return meet(data, at, w);
    }
    (w == 0).then_some(at)
}

// Atom k's record: its kind, and a bit for each other word that is stored.
fn meet_atom(data: &[u8], atoms: &[u8], k: u32, from: usize) -> Option<usize> {
    let x = data::number(data, from);
    let start = 6 * (k as usize);
    if x.value / 32 != words::word_or_zero(atoms, start) {
        return None;
    }
    let mut at = x.at;
    let mut bits = x.value % 32;
    for j in 1..6 {
        at = meet_word(
            data,
            at,
            bits % 2 == 1,
            words::word_or_zero(atoms, start + j),
        )?;
        bits /= 2;
    }
    Some(at)
}

fn meet_atoms(data: &[u8], atoms: &[u8], n: u32, from: usize) -> Option<usize> {
    (0..n).try_fold(from, |at, k| meet_atom(data, atoms, k, at))
}

// Deferral i's record, likewise.
fn meet_deferral(data: &[u8], deferrals: &[u8], i: u32, at: usize) -> Option<usize> {
    if read::deferral_room(deferrals) <= i as usize {
        return None;
    }
    let line = read::deferral_line(deferrals, i);
    let kind = read::deferral_kind(deferrals, i);
    meet_all(data, at, &[line, kind])
}

fn meet_deferrals(data: &[u8], deferrals: &[u8], n: u32, from: usize) -> Option<usize> {
    (0..n).try_fold(from, |at, i| meet_deferral(data, deferrals, i, at))
}

// The numbers and records of an accepted deck: where they end, and how many atoms there are.
fn meet_accepted(
    data: &[u8],
    at: usize,
    n: Numbers,
    clauses: &[u8],
    atoms: &[u8],
    deferrals: &[u8],
) -> Option<Walk> {
    let a = meet(data, at, 0)?;
    let b = meet_numbers(data, a, n)?;
    let w = meet_clauses(data, clauses, n.stats.total, b)?;
    let c = meet_atoms(data, atoms, w.first, w.at)?;
    let d = meet_deferrals(data, deferrals, n.stats.deferred, c)?;
    Some(Walk {
        at: d,
        first: w.first,
    })
}

// The data from `at` to `end` says that the deck is accepted with these numbers and records; behind them the tables are zeros.
pub fn is_accepted(
    data: &[u8],
    at: usize,
    end: usize,
    n: Numbers,
    clauses: &[u8],
    atoms: &[u8],
    deferrals: &[u8],
) -> bool {
    match meet_accepted(data, at, n, clauses, atoms, deferrals) {
        Some(w) => {
            w.at == end
                && is_clear(clauses, read::CLAUSE * (n.stats.total as usize))
                && is_clear(atoms, 6 * (w.first as usize))
                && is_clear(deferrals, read::DEFERRAL * (n.stats.deferred as usize))
        }
        None => false,
    }
}

// It says that the deck is refused so; the tables are zeros.
pub fn is_refused(
    data: &[u8],
    at: usize,
    end: usize,
    e: Refused,
    clauses: &[u8],
    atoms: &[u8],
    deferrals: &[u8],
) -> bool {
    meet_all(data, at, &[e.refusal.number(), e.line]) == Some(end)
        && is_clear(clauses, 0)
        && is_clear(atoms, 0)
        && is_clear(deferrals, 0)
}
