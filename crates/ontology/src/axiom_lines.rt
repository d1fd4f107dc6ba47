// The axiom lines become axioms: their numbers, one line behind the other.
// Clauses that repeat stay clauses: each function asks for the length that it reads.
ghost use Rattle.std.specs.Prelude.{◌≡◌, ◌+◌, ◌*◌, ◌≤◌, ◌<◌, ℕ, length};
ghost use Rattle.words.specs.Words.{words};
ghost use Rattle.ir.specs.Scratch.{axioms_at, numbers_at, lines_at, stack_at};
ghost use Rattle.deck.specs.Records.{sum, axiom_fields, axiom_row_in, axioms_in};
ghost use Rattle.ontology.specs.Layout.{axioms_of, AxiomsHeld};
ghost use Rattle.ontology.specs.Lines.{Kept, table_of, AxiomRead, axiom_put};

use crate::{lines, row};
use ir::scratch::{AXIOMS, NUMBERS};

// Axiom line i, whose numbers begin at `at`; where they end.
fn load_axiom(deck: &[u8], scratch: &mut [u8], i: usize, at: usize) -> usize
    requires { (4 * stack_at ≤ length scratch.old) × AxiomRead deck.now (table_of (words scratch.old)) i × (numbers_at + at + axiom_fields (table_of (words scratch.old)) i ≤ lines_at) }
    ensures value { result ≡ at + axiom_fields (table_of (words scratch.old)) i }
    ensures scratch_after { words scratch.new ≡ axiom_put (words scratch.old) i at (axiom_row_in deck.now (table_of (words scratch.old)) i) }
{
    let line = lines::axiom_line(scratch, i);
    let n = line.fields;
    words::put_word(scratch, AXIOMS + 2 * i, at as u32);
    words::put_word(scratch, AXIOMS + 2 * i + 1, n as u32);
    row::put_row(deck, line.begin, n, scratch, NUMBERS + at);
    at + n
}

pub fn load_axioms(deck: &[u8], scratch: &mut [u8], axioms: usize)
    requires { (4 * stack_at ≤ length scratch.old) × ((i : ℕ) → i < axioms → AxiomRead deck.now (table_of (words scratch.old)) i) × (numbers_at + sum (axiom_fields (table_of (words scratch.old))) axioms ≤ lines_at) }
    ensures axioms_held { AxiomsHeld (words scratch.new) axioms }
    ensures axioms_after { axioms_of (words scratch.new) axioms ≡ axioms_in deck.now (table_of (words scratch.old)) axioms }
    ensures kept { Kept 0 axioms_at (words scratch.old) (words scratch.new) }
{
    let mut at: usize = 0;
    for i in 0..axioms {
        at = load_axiom(deck, scratch, i, at);
    }
}
