// The concept lines become the pool's first records.
// Clauses that repeat stay clauses: each function asks for the length that it reads.
ghost use Rattle.std.specs.Prelude.{◌+◌, ◌*◌, ◌≤◌, ◌<◌, ℕ, length};
ghost use Rattle.words.specs.Words.{words};
ghost use Rattle.ir.specs.Scratch.{hands_at};
ghost use Rattle.ontology.specs.Lines.{table_of, ConceptRead, Pooled};

use crate::{lines, record, row};
use ir::counters::Counters;
use ir::scratch::STACK;
use pool::intern;

// Concept line i, behind the i before it.
fn load_concept(deck: &[u8], scratch: &mut [u8], k: &mut Counters, i: usize)
    requires { (4 * hands_at ≤ length scratch.old) × ConceptRead deck.now (table_of (words scratch.old)) i × Pooled deck.now (table_of (words scratch.old)) k.old i (words scratch.old) (words scratch.old) k.old }
    ensures { Pooled deck.now (table_of (words scratch.old)) k.old (i + 1) (words scratch.old) (words scratch.new) k.new }
{
    let line = lines::concept_line(scratch, i);
    let n = line.fields;
    row::put_row(deck, line.begin, n, scratch, STACK);
    let x = record::record_of(scratch, STACK, n as u32);
    intern::add(scratch, *k, x, STACK + 1);
    k.intern(x.count());
}

pub fn load_concepts(deck: &[u8], scratch: &mut [u8], k: &mut Counters, concepts: usize)
    requires { (4 * hands_at ≤ length scratch.old) × ((i : ℕ) → i < concepts → ConceptRead deck.now (table_of (words scratch.old)) i) × Pooled deck.now (table_of (words scratch.old)) k.old 0 (words scratch.old) (words scratch.old) k.old }
    ensures { Pooled deck.now (table_of (words scratch.old)) k.old concepts (words scratch.old) (words scratch.new) k.new }
{
    for i in 0..concepts {
        load_concept(deck, scratch, k, i);
    }
}
