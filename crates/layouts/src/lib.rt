// A state read: its lines checked one after the other, each entered into the words that lay it out. A class's set stands in the
// store where it has room; what an element is related to stands in scratch, by role code. The store's classes beyond its room are
// found in the text later.
// Clauses that repeat stay clauses: each function asks for the length that it reads.
#![tactic(auto)]

pub mod check;
pub mod enter;
pub mod limits;
pub mod line;
pub mod numbers;

ghost use Rattle.std.specs.Prelude.{◌≡◌, [], suc, ◌≤◌, length, drop};
ghost use Rattle.words.specs.Words.{words};
ghost use Rattle.rules.specs.Deck.{Known};
ghost use Rattle.rules.specs.Run.{scratch_bytes};
ghost use Rattle.states.specs.State.{state, seen, state_by, read_state};
ghost use Rattle.states.specs.Test.{store_bytes};
ghost use Rattle.sets.specs.Places.{deck_words, line_at};
ghost use Rattle.sets.specs.Laid.{KeptTo};
ghost use Rattle.layouts.specs.Read.{Declares, known_of, StatedAs, ended_as};
ghost use Rattle.layouts.specs.Drawn.{Blank};

use crate::enter::At;
use crate::limits::Limits;
use ir::answer::Refused;
use ir::refusal::Refusal;
use sets::places;

// The first bad line of a state, from 1; 0 where an individual has no line, as the reply's row has it.
#[derive(Clone, Copy, PartialEq, Eq, Debug)]
pub struct BadLine {
    pub line: u32,
}

// Refusal 13, at the state's line.
impl From<BadLine> for Refused {
    ghost use Rattle.ir.specs.declared.refusal.Refusal.TheVariants.{BadState};

    ghost from_gives = { λ bad e. e ≡ record { refusal = BadState; line = bad.line } };

    fn from(bad: BadLine) -> Refused {
        Refused {
            refusal: Refusal::BadState,
            line: bad.line,
        }
    }
}

// Behind the last line: each individual must have had its own.
fn ended(size: u32, singles: u32, individuals: u32) -> Result<u32, BadLine>
    ensures { result ≡ ended_as size singles individuals }
{
    if singles == individuals {
        Ok(size)
    } else {
        Err(BadLine { line: 0 })
    }
}

// The lines from p on, behind the first.
fn read_lines(
    text: &[u8],
    store: &mut [u8],
    scratch: &mut [u8],
    m: Limits,
    size: u32,
    from: usize,
) -> Result<u32, BadLine>
    requires { Blank m size text.now store.old scratch.old from }
    ensures stated_as { StatedAs (known_of m) m (state_by (suc (length (drop from text.now))) (known_of m) m.fresh 2 (seen 50 0 (state size [] [] [])) (drop from text.now)) (words store.new) (words scratch.new) result }
    ensures kept_to { KeptTo line_at (words scratch.old) (words scratch.new) }
{
    let mut at = At {
        kind: 50,
        id: 0,
        singles: 0,
    };
    let mut p = from;
    let mut line: usize = 2;
    // a line says how long it is, so no range gives the lines
    while p < text.len() {
        let Some(next) = line::next_line(text, scratch, p, m, at, size) else {
            return Err(BadLine { line: line as u32 });
        };
        at = enter::enter(store, scratch, next.count, m, at, size);
        p = next.behind;
        line += 1;
    }
    ended(size, at.singles, m.individuals)
}

// How many elements the state has.
pub fn read_state(
    text: &[u8],
    store: &mut [u8],
    scratch: &mut [u8],
    m: Limits,
) -> Result<u32, BadLine>
    requires { (store_bytes ≤ length store.old) × (scratch_bytes ≤ length scratch.old) }
    ensures stated_as { (d : Known) → Declares d m → StatedAs d m (read_state d m.fresh text.now) (words store.new) (words scratch.new) result }
    ensures kept_to { KeptTo deck_words (words scratch.old) (words scratch.new) }
{
    let Some(first) = line::first_line(text, scratch) else {
        return Err(BadLine { line: 1 });
    };
    words::clear(store);
    words::clear_words(scratch, 2 * places::ROWS, 256 * (m.roles as usize));
    read_lines(text, store, scratch, m, first.size, first.behind)
}
