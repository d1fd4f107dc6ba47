// A concept line's record.
ghost use Rattle.std.specs.Prelude.{◌≡◌, ◌+◌, ◌*◌, ◌≤◌, ◌<◌, length, get_or};
ghost use Rattle.words.specs.Words.{words};
ghost use Rattle.ontology.specs.Lines.{record_for};

use pool::layout::{ATOMIC, MIN, NOT, SELF, SOME};
use pool::record::Record;

// Of the line's kind, the three words behind it, and the line's number of numbers. Kinds are the deck's numbers, in the order of
// the rule of this name: an enum would be made by a match over the same numbers.
fn record_for(kind: u32, a: u32, b: u32, c: u32, n: u32) -> Record
    requires { 0 < n }
    ensures { result ≡ record_for kind a b c n }
{
    if kind < ATOMIC {
        return Record::new(kind, 0, 0, 0);
    }
    if kind < SELF {
        return Record::new(kind, 0, a, 0);
    }
    if kind == SELF {
        return Record::new(kind, a, 0, 0);
    }
    if kind == NOT {
        return Record::new(kind, 0, 0, a);
    }
    if kind < SOME {
        return Record::new(kind, 0, n - 1, 0);
    }
    if kind < MIN {
        return Record::new(kind, a, 0, b);
    }
    Record::new(kind, b, a, c)
}

// Of the line whose n numbers are the words from `at` on: a first word and a count, as the rows of the definitions have them. (Four words
// are read whatever n is, so it is no slice of n.)
pub fn record_of(scratch: &[u8], at: usize, n: u32) -> Record
    requires { (0 < n) × (4 * (at + 4) ≤ length scratch.now) }
    ensures { result ≡ record_for (get_or (words scratch.now) at 0) (get_or (words scratch.now) (at + 1) 0) (get_or (words scratch.now) (at + 2) 0) (get_or (words scratch.now) (at + 3) 0) n }
{
    let kind = words::get_word(scratch, at);
    let a = words::get_word(scratch, at + 1);
    let b = words::get_word(scratch, at + 2);
    let c = words::get_word(scratch, at + 3);
    record_for(kind, a, b, c, n)
}
