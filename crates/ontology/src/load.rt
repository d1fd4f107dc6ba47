// The way of a deck's bytes into scratch.
// Clauses that repeat stay clauses: each function asks for the length that it reads.
ghost use Rattle.std.specs.Prelude.{◌≡◌, ◌*◌, ◌≤◌, length};
ghost use Rattle.words.specs.Words.{words};
ghost use Rattle.ir.specs.Scratch.{hands_at};
ghost use Rattle.rules.specs.Deck.{read_deck};
ghost use Rattle.ontology.specs.Lines.{table_in, Accepted, Declared, started};
ghost use Rattle.ontology.specs.Loads.{LoadedAs, loaded_of, read_of};

use crate::lines::{TABLE, TABLE_END};
use crate::{axiom_lines, concepts, keys};
use deck::state::State;
use ir::answer::Refused;
use ir::counters::Counters;
use pool::layout::{HEADS, POOL};

// The counters before the first concept.
fn begin(st: State, limit: u32) -> Counters
    requires { Declared st }
    ensures { result ≡ started st limit }
{
    Counters {
        visits: 0,
        limit,
        concepts: 0,
        members: 0,
        next_var: 1,
        next_class: (st.classes + st.individuals) as u32,
        clauses: 0,
        atoms: 0,
        deferrals: 0,
        line: (st.keys + st.concepts + 2) as u32,
        nominal_base: st.classes as u32,
        options: st.options as u32,
    }
}

// What the reader kept of a deck becomes records: the counters and the number of axioms.
fn load_lines(deck: &[u8], scratch: &mut [u8], st: State, limit: u32) -> (Counters, u32)
    requires { (4 * hands_at ≤ length scratch.old) × Accepted deck.now (table_in scratch.old) st }
    ensures { LoadedAs limit (read_deck deck.now) (words scratch.new) (read_of result) }
{
    let mut k = begin(st, limit);
    words::clear_words(scratch, HEADS, POOL - HEADS);
    concepts::load_concepts(deck, scratch, &mut k, st.concepts);
    keys::load_keys(deck, scratch, st);
    let axioms = st.axioms;
    axiom_lines::load_axioms(deck, scratch, axioms);
    let count = axioms as u32;
    (k, count)
}

// The deck, read and, where it is accepted, in scratch: the counters and the number of axioms.
pub fn load(deck: &[u8], scratch: &mut [u8], limit: u32) -> Result<(Counters, u32), Refused>
    requires { 4 * hands_at ≤ length scratch.old }
    ensures { LoadedAs limit (read_deck deck.now) (words scratch.new) (loaded_of result) }
{
    let st = deck::read(deck, &mut scratch[TABLE..TABLE_END])?;
    Ok(load_lines(deck, scratch, st, limit))
}
