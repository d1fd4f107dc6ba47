// The reader's table in scratch: where each line of an accepted deck begins and how many numbers it has.
// Each of the two has its own function, by the name that its contract's definition has.
// Clauses that repeat stay clauses: each function asks for the length that it reads; a type with a number's bound would be made at each
// read and opened at each use.
ghost use Rattle.std.specs.Prelude.{◌≡◌, ◌*◌, ◌≤◌, ◌<◌, length};
ghost use Rattle.words.specs.Words.{words};
ghost use Rattle.ir.specs.Scratch.{stack_at};
ghost use Rattle.rules.specs.Deck.{most_concept_lines, most_axioms};
ghost use Rattle.ontology.specs.Lines.{table_of, concept_line, axiom_line};

use deck::row::Line;
use deck::table;

// The table's first byte and the one behind it: words LINES and STACK.
pub const TABLE: usize = 204800;

pub const TABLE_END: usize = 233472;

pub fn concept_line(scratch: &[u8], i: usize) -> Line
    requires { (i < most_concept_lines) × (4 * stack_at ≤ length scratch.now) }
    ensures { result ≡ concept_line (table_of (words scratch.now)) i }
{
    table::concept_line(&scratch[TABLE..TABLE_END], i)
}

pub fn axiom_line(scratch: &[u8], i: usize) -> Line
    requires { (i < most_axioms) × (4 * stack_at ≤ length scratch.now) }
    ensures { result ≡ axiom_line (table_of (words scratch.now)) i }
{
    table::axiom_line(&scratch[TABLE..TABLE_END], i)
}
