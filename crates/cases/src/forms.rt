// The clauses that are due.
ghost use Rattle.std.specs.Prelude.{◌+◌, ◌^◌, ◌≤◌, ◌<◌, length};

use ir::atom::Atom;
use ir::record;
use ir::role::Role;
use tables::read;

// Atom k's record.
fn atom(atoms: &[u8], k: usize) -> Option<Atom> {
    if read::atom_room(atoms) <= k {
        return None;
    }
    record::get_atom(atoms, k)
}

// It is the class of the variable.
fn is_class(atoms: &[u8], k: usize, class: u32, variable: u32) -> bool {
    matches!(atom(atoms, k), Some(Atom::Class(c, v)) if c == class && v == variable)
}

// Role 0 from X to the variable.
fn is_role(atoms: &[u8], k: usize, variable: u32) -> bool {
    matches!(atom(atoms, k), Some(Atom::Role(Role::Named(0), 0, v)) if v == variable)
}

// The role from X to the variable, then the class of the variable.
fn is_some(atoms: &[u8], k: usize, class: u32, variable: u32) -> bool
    requires { k + 1 < 2 ^ 64 }
{
    is_role(atoms, k, variable) && is_class(atoms, k + 1, class, variable)
}

// A clause's record: its first atom, and the numbers of body and head atoms.
#[derive(Clone, Copy)]
struct Record {
    first: u32,
    body: u32,
    head: u32,
}

fn clause(clauses: &[u8], c: u32) -> Option<Record> {
    if read::clause_room(clauses) <= c as usize {
        return None;
    }
    Some(Record {
        first: read::first_atom(clauses, c),
        body: read::body_count(clauses, c),
        head: read::head_count(clauses, c),
    })
}

// The atoms from `first` on are these classes of X.
fn are_classes(atoms: &[u8], first: usize, classes: &[u32]) -> bool
    requires { first + length classes.now < 2 ^ 64 }
{
    classes
        .iter()
        .enumerate()
        .all(|(j, class)| is_class(atoms, first + j, *class, 0))
}

// The clause has these classes of X as its body and as its head.
fn is_classes(atoms: &[u8], k: Record, body: &[u32], head: &[u32]) -> bool {
    let first = k.first as usize;
    k.body as usize == body.len()
        && k.head as usize == head.len()
        && are_classes(atoms, first, body)
        && are_classes(atoms, first + body.len(), head)
}

// r(X,1) a(1) → b(X).
fn is_named(atoms: &[u8], k: Record, a: u32, b: u32) -> bool {
    let first = k.first as usize;
    k.body == 2 && k.head == 1 && is_some(atoms, first, a, 1) && is_class(atoms, first + 2, b, 0)
}

// How far a body of Somes is read: the next atom, and a bit for each Some, 1 where it is unfolded.
#[derive(Clone, Copy)]
struct Walk {
    at: usize,
    bits: u32,
}

// Some number i over the class: r(X, i + 1) and the class of i + 1, or, unfolded, the class of X.
fn step(atoms: &[u8], i: u32, class: u32, w: Walk) -> Option<Walk>
    requires { i < 1000 }
{
    if read::atom_room(atoms) <= w.at {
        return None;
    }
    if is_class(atoms, w.at, class, 0) {
        return Some(Walk {
            at: w.at + 1,
            bits: (w.bits << 1) | 1,
        });
    }
    is_some(atoms, w.at, class, i + 1).then_some(Walk {
        at: w.at + 2,
        bits: w.bits << 1,
    })
}

// The bits of a body of n Somes over the classes from a on, with b(X) as head.
fn bits(atoms: &[u8], k: Record, a: u32, n: u32, b: u32) -> Option<u32>
    requires { (a ≤ 1000) × (n ≤ 1000) }
{
    let first = k.first as usize;
    let from = Walk { at: first, bits: 0 };
    let w = (0..n).try_fold(from, |w, i| step(atoms, i, a + i, w))?;
    let is_met = w.at == first + k.body as usize && k.head == 1 && is_class(atoms, w.at, b, 0);
    is_met.then_some(w.bits)
}

// Class i's own clause r(X,1) i(1) → b(X), or what it unfolds to, i(X) → b(X).
fn single(atoms: &[u8], k: Record, i: u32, b: u32) -> Option<u32>
    requires { i ≤ 100 }
{
    if i < b && is_named(atoms, k, i, b) {
        return Some(4096 + 2 * i);
    }
    if i < b && is_classes(atoms, k, &[i], &[b]) {
        return Some(4097 + 2 * i);
    }
    None
}

// Of twelve Somes below b, unfolded or not, and of the single ones behind them: a number of its own for each clause.
fn unfolded(atoms: &[u8], k: Record, b: u32) -> Option<u32> {
    if let Some(m) = bits(atoms, k, 0, 12, b) {
        return Some(m);
    }
    (12..15).find_map(|i| single(atoms, k, i, b))
}

// Clause c is what is due there. (A case is its number, as in document 01.)
fn is_due(atoms: &[u8], k: Record, case: u32, c: u32) -> bool
    requires { c ≤ 65536 }
{
    match case {
        1 => is_classes(atoms, k, &[c], &[64]),
        2 => {
            (c < 65 && is_classes(atoms, k, &[66, c], &[]))
                || (c == 65 && is_classes(atoms, k, &[], &[65, 66]))
        }
        3 => is_classes(atoms, k, &[c / 8, 8 + c % 8], &[16]),
        5 => bits(atoms, k, 0, 7, 7) == Some(0),
        6 => (c == 0 && bits(atoms, k, 9, 8, 8) == Some(255))
            || (0 < c && is_named(atoms, k, c - 1, c + 8)),
        _ => false,
    }
}

// Which of the clauses that are due clause c is.
fn due(clauses: &[u8], atoms: &[u8], case: u32, c: u32) -> Option<u32> {
    if 65536 < c {
        return None;
    }
    let k = clause(clauses, c)?;
    match case {
        7 | 8 => unfolded(atoms, k, 13),
        9 => unfolded(atoms, k, 15),
        _ => is_due(atoms, k, case, c).then_some(c),
    }
}

// It was not met before.
fn mark(met: &mut [bool], i: u32) -> bool {
    let at = i as usize;
    let is_new = at < met.len() && !met[at];
    if is_new {
        met[at] = true;
    }
    is_new
}

// How many different clauses that are due are among the first n.
pub fn count(clauses: &[u8], atoms: &[u8], case: u32, n: u32, met: &mut [bool]) -> u32 {
    let mut sum: u32 = 0;
    for c in 0..n {
        if let Some(i) = due(clauses, atoms, case, c) {
            sum += u32::from(mark(met, i));
        }
    }
    sum
}
