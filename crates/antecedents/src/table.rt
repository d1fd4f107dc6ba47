// A row for each concept: how many alternatives it has and how many variables they take; filled from the least id up.
// The bound of a number that is read from a word stays a clause: a type with it would be made at each read, to be taken apart again.
// Clauses that repeat stay clauses: each function asks for the length that it reads; `HasList` and `Stands` are about one moment of what
// is lent.
ghost use Rattle.std.specs.Prelude.{◌≡◌, ◌+◌, ◌*◌, ◌≤◌, ◌<◌, length, set};
ghost use Rattle.words.specs.Words.{words};
ghost use Rattle.ir.specs.Scratch.{alternatives_at, axioms_at};
ghost use Rattle.rules.specs.Pool.{most_concepts};
ghost use Rattle.pool.specs.Layout.{concept_at};
ghost use Rattle.antecedents.specs.Counts.{is_conj, first_of};
ghost use Rattle.antecedents.specs.Stands.{Stands, HasList, list_in};
ghost use Rattle.antecedents.specs.Table.{size_in, vars_in, size_all, vars_all, size_of, vars_of};

use crate::numbers;
use ir::scratch::ALTERNATIVES;
use pool::joint::Joint;
use pool::layout::{AND, ATOMIC, NOMINAL, OR, SOME, TOP};
use pool::record;

#[derive(Clone, Copy)]
pub struct Row {
    pub size: u32,
    pub vars: u32,
}

pub fn get_row(scratch: &[u8], c: u32) -> Row
    requires { (c < most_concepts) × (4 * axioms_at ≤ length scratch.now) }
    ensures { (result.size ≡ size_in (words scratch.now) c) × (result.vars ≡ vars_in (words scratch.now) c) }
{
    let at = ALTERNATIVES + 2 * (c as usize);
    let size = words::get_word(scratch, at);
    let vars = words::get_word(scratch, at + 1);
    Row { size, vars }
}

// The row of c's list. A loop: a fold would make a row at each turn and open it at the next.
fn list_row(scratch: &[u8], c: u32, joint: Joint) -> Row
    requires { (c < most_concepts) × (4 * axioms_at ≤ length scratch.now) × HasList (words scratch.now) c }
    ensures { (result.size ≡ size_all (words scratch.now) (is_conj joint) (list_in (words scratch.now) c) (first_of (is_conj joint))) × (result.vars ≡ vars_all (words scratch.now) (list_in (words scratch.now) c) 0) }
{
    let start = record::child(scratch, c);
    let mut size = numbers::first(joint);
    let mut vars: u32 = 0;
    for i in 0..record::number(scratch, c) {
        let x = record::member(scratch, start + i);
        let row = get_row(scratch, x);
        size = numbers::join_size(joint, size, row.size);
        vars = vars.saturating_add(row.vars);
    }
    Row { size, vars }
}

pub fn row_of(scratch: &[u8], c: u32) -> Row
    requires { Stands scratch.now c × (4 * axioms_at ≤ length scratch.now) }
    ensures { (result.size ≡ size_of (words scratch.now) (concept_at (words scratch.now) c)) × (result.vars ≡ vars_of (words scratch.now) (concept_at (words scratch.now) c)) }
{
    // By the record's number, as pool's concept_at goes: read as an enum, a word that is none of the twelve would need an arm of its own
    // here.
    match record::kind(scratch, c) {
        TOP | ATOMIC | NOMINAL => Row { size: 1, vars: 0 },
        AND => list_row(scratch, c, Joint::And),
        OR => list_row(scratch, c, Joint::Or),
        SOME => {
            let row = get_row(scratch, record::child(scratch, c));
            Row {
                size: row.size,
                vars: row.vars.saturating_add(1),
            }
        }
        _ => Row { size: 0, vars: 0 },
    }
}

pub fn put_row(scratch: &mut [u8], c: u32, r: Row)
    requires { (c < most_concepts) × (4 * axioms_at ≤ length scratch.old) }
    ensures { words scratch.new ≡ set (set (words scratch.old) (alternatives_at + 2 * c) r.size) (alternatives_at + 2 * c + 1) r.vars }
{
    let at = ALTERNATIVES + 2 * (c as usize);
    words::put_word(scratch, at, r.size);
    words::put_word(scratch, at + 1, r.vars);
}
