// An axiom: the numbers of its line, the first of which is its kind.
// Each word has its own function, by the name that its contract's definition has.
// Clauses that repeat stay clauses: each function asks for the length that it reads; a type with a number's bound would be made at each
// read and opened at each use.
ghost use Rattle.std.specs.Prelude.{◌≡◌, ◌+◌, ◌*◌, ◌≤◌, ◌<◌, length};
ghost use Rattle.words.specs.Words.{words};
ghost use Rattle.ir.specs.Scratch.{numbers_at, lines_at};
ghost use Rattle.rules.specs.Deck.{most_axioms};
ghost use Rattle.ontology.specs.Layout.{axiom_start, axiom_count, axiom_number};

use ir::scratch::{AXIOMS, NUMBERS};

// Where the numbers of axiom i begin.
pub fn start(scratch: &[u8], i: u32) -> u32
    requires { (i < most_axioms) × (4 * lines_at ≤ length scratch.now) }
    ensures { result ≡ axiom_start (words scratch.now) i }
{
    words::get_word(scratch, AXIOMS + 2 * (i as usize))
}

// How many they are.
pub fn count(scratch: &[u8], i: u32) -> u32
    requires { (i < most_axioms) × (4 * lines_at ≤ length scratch.now) }
    ensures { result ≡ axiom_count (words scratch.now) i }
{
    words::get_word(scratch, AXIOMS + 2 * (i as usize) + 1)
}

// Number j.
pub fn number(scratch: &[u8], i: u32, j: u32) -> u32
    requires { (i < most_axioms) × (4 * lines_at ≤ length scratch.now) × (numbers_at + axiom_start (words scratch.now) i + j < lines_at) }
    ensures { result ≡ axiom_number (words scratch.now) i j }
{
    let at = NUMBERS + start(scratch, i) as usize + j as usize;
    words::get_word(scratch, at)
}
