// Which way emit_head goes.
// The bound of a number that is read from a word stays a clause: a type with it would be made at each read, to be taken apart again.
// Clauses that repeat stay clauses: `Reading` is about one moment of what is lent.
ghost use Rattle.std.specs.Prelude.{◌≡◌, ◌<◌, ◌≤◌};
ghost use Rattle.words.specs.Words.{words};
ghost use Rattle.pool.specs.Layout.{field, concept_at, pool_of};
ghost use Rattle.leaves.specs.Reading.{Reading, form_of};

use crate::read;
use ir::counters::Counters;
use pool::layout::{ALL, AND, NOT, OR, SOME};
use pool::record;

// Named: the filler of a restriction is named. Leaf: nothing is.
#[derive(Clone, Copy)]
pub enum Form {
    Leaf,
    And,
    Or,
    All,
    Named,
}

pub fn form_of(scratch: &[u8], k: Counters, c: u32) -> Form
    requires { Reading scratch.now k × (c < k.concepts) }
    ensures { result ≡ form_of (pool_of (words scratch.now) k.concepts) (concept_at (words scratch.now) c) }
{
    // By the record's number, as pool's concept_at goes: read as an enum, a word that is none of the twelve would need an arm of its own
    // here.
    match record::kind(scratch, c) {
        0..=NOT => Form::Leaf,
        AND => Form::And,
        OR => Form::Or,
        SOME => Form::Named,
        ALL => Form::All,
        _ => counted(scratch, k, c),
    }
}

// Of Min and Max.
fn counted(scratch: &[u8], k: Counters, c: u32) -> Form
    requires { Reading scratch.now k × (c < k.concepts) × (11 ≤ field (words scratch.now) c 0) }
    ensures { result ≡ form_of (pool_of (words scratch.now) k.concepts) (concept_at (words scratch.now) c) }
{
    // Two tests: the branches of one condition of both come to the proof as one case.
    if read::at_least_none(scratch, k, c) {
        return Form::Leaf;
    }
    if read::is_top(scratch, k, record::child(scratch, c)) {
        return Form::Leaf;
    }
    Form::Named
}
