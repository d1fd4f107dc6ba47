// One alternative of an antecedent, written as records of atoms.
// The bound of a number that is read from a word stays a clause: a type with it would be made at each read, to be taken apart again.
// `Fits` of an atom stays a clause: an enum holds no ghost field.
// A concept and a variable stay two numbers, as the rules have them; so do the variable, the next one and an alternative's number.
// Clauses that repeat stay clauses: each function asks for the length that it reads; `HasList` is about one moment of what is lent.
ghost use Rattle.std.specs.Prelude.{◌≡◌, ◌+◌, ◌*◌, ◌≤◌, ◌<◌, length, get_or};
ghost use Rattle.words.specs.Words.{words};
ghost use Rattle.ir.specs.Records.{Fits};
ghost use Rattle.ir.specs.Scratch.{axioms_at, hands_at};
ghost use Rattle.rules.specs.Deck.{most_roles};
ghost use Rattle.rules.specs.Pool.{most_concepts, most_members};
ghost use Rattle.pool.specs.Layout.{members_at, field};
ghost use Rattle.antecedents.specs.Stands.{HasList, list_in};
ghost use Rattle.antecedents.specs.Picks.{put_at};
ghost use Rattle.antecedents.specs.Writes.{Writable, WroteRole, Wrote, WroteList, chosen_of, PartIs};

use crate::{numbers, table};
use ir::atom::Atom;
use ir::record::put_atom;
use pool::layout::{AND, ATOMIC, NOMINAL, OR, SOME, TOP};
use pool::record;

// A disjunct: its id, its first variable and its own index.
#[derive(Clone, Copy)]
pub struct Chosen {
    pub id: u32,
    pub var: u32,
    pub index: u32,
}

// A part of an And: its id, the product of the sizes after it, its own index, the index of the rest, and the next variable.
#[derive(Clone, Copy)]
pub struct Part {
    pub id: u32,
    pub left: u32,
    pub digit: u32,
    pub rest: u32,
    pub next: u32,
}

// The atom at record `at`, if there is room; answers the next record.
fn put(scratch: &mut [u8], at: usize, a: Atom) -> usize
    requires { Fits a }
    ensures { (words scratch.new, result) ≡ put_at (words scratch.old) at a }
{
    if at < scratch.len() / 24 {
        put_atom(scratch, at, a);
        return at + 1;
    }
    at
}

// The role of concept c, in its canonical form.
fn put_role(scratch: &mut [u8], at: usize, c: u32, v: u32, y: u32) -> usize
    requires { (c < most_concepts) × (4 * hands_at ≤ length scratch.old) × (field (words scratch.old) c 1 < 2 * most_roles) }
    ensures { WroteRole (words scratch.old) c v y at (words scratch.new) result }
{
    let role = inverse::canon_role(scratch, record::role(scratch, c));
    put(scratch, at, Atom::Role(role, v, y))
}

// The disjunct among c's list that holds the k-th alternative.
fn disjunct(scratch: &[u8], c: u32, y: u32, k: u32) -> Option<Chosen>
    requires { (c < most_concepts) × (4 * axioms_at ≤ length scratch.now) × HasList (words scratch.now) c }
    ensures { result ≡ chosen_of (words scratch.now) (list_in (words scratch.now) c) y k }
{
    let start = record::child(scratch, c);
    let mut w = y;
    let mut j = k;
    for i in 0..record::number(scratch, c) {
        let x = record::member(scratch, start + i);
        let row = table::get_row(scratch, x);
        if j < row.size {
            return Some(Chosen {
                id: x,
                var: w,
                index: j,
            });
        }
        j -= row.size;
        w = w.saturating_add(row.vars);
    }
    None
}

// List member i as the next part.
fn next_part(scratch: &[u8], i: u32, r: u32, j: u32, y: u32) -> Part
    requires { (i < most_members) × (get_or (words scratch.now) (members_at + i) 0 < most_concepts) × (4 * axioms_at ≤ length scratch.now) }
    ensures { PartIs (words scratch.now) i r j y result }
{
    let id = record::member(scratch, i);
    let row = table::get_row(scratch, id);
    let left = numbers::quot(r, row.size);
    let digit = numbers::quot(j, left);
    let rest = numbers::rest(j, left);
    let next = y.saturating_add(row.vars);
    Part {
        id,
        left,
        digit,
        rest,
        next,
    }
}

// The parts of an And: the first is the most significant digit of k.
#[cycle(write_one_write_parts)]
fn write_parts(scratch: &mut [u8], base: u32, at: usize, c: u32, v: u32, y: u32, k: u32) -> usize
    requires { Writable scratch.old base c × (hands_at ≤ 6 * at) × HasList (words scratch.old) c }
    ensures { WroteList base (words scratch.old) c v y k at (words scratch.new) result }
{
    let start = record::child(scratch, c);
    let mut p = at;
    let mut w = y;
    let mut r = table::get_row(scratch, c).size;
    let mut j = k;
    for i in 0..record::number(scratch, c) {
        let q = next_part(scratch, start + i, r, j, w);
        p = write_one(scratch, base, p, q.id, v, w, q.digit);
        r = q.left;
        j = q.rest;
        w = q.next;
    }
    p
}

// The k-th alternative of c from record `at` on; `base` is the class of individual 0. Answers the next record.
#[cycle(write_one_write_parts)]
pub fn write_one(scratch: &mut [u8], base: u32, at: usize, c: u32, v: u32, y: u32, k: u32) -> usize
    requires { Writable scratch.old base c × (hands_at ≤ 6 * at) }
    ensures { Wrote base (words scratch.old) c v y k at (words scratch.new) result }
{
    // By the record's number, as pool's concept_at goes: read as an enum, a word that is none of the twelve would need an arm of its own
    // here.
    match record::kind(scratch, c) {
        TOP => at,
        ATOMIC => {
            let class = record::number(scratch, c);
            put(scratch, at, Atom::Class(class, v))
        }
        NOMINAL => {
            let class = base + record::number(scratch, c);
            put(scratch, at, Atom::Class(class, v))
        }
        AND => write_parts(scratch, base, at, c, v, y, k),
        OR => match disjunct(scratch, c, y, k) {
            Some(q) => write_one(scratch, base, at, q.id, v, q.var, q.index),
            None => at,
        },
        SOME => {
            let b = record::child(scratch, c);
            let p = put_role(scratch, at, c, v, y);
            let w = y.saturating_add(1);
            write_one(scratch, base, p, b, y, w, k)
        }
        _ => at,
    }
}
