// Option 4: the filler of a limit that is named anew waits, for its inclusion in the name.
// The bound of a number that is read from a word stays a clause: a type with it would be made at each read, to be taken apart again.
// Clauses that repeat stay clauses: each function asks for the length that it reads; `Reading` is about one moment of what is lent.
ghost use Rattle.std.specs.Prelude.{◌≡◌, ◌&&◌, ◌+◌, ◌*◌, ◌<◌, ◌≤◌, length};
ghost use Rattle.words.specs.Words.{words};
ghost use Rattle.ir.specs.Pick.{pick};
ghost use Rattle.ir.specs.Options.{equal_names};
ghost use Rattle.ir.specs.Scratch.{limits_at, limits_words};
ghost use Rattle.pool.specs.Layout.{concept_at};
ghost use Rattle.waiting.specs.Limits.{appended};
ghost use Rattle.leaves.specs.Classes.{is_max, anew};
ghost use Rattle.leaves.specs.Reading.{Reading};

use ir::counters::Counters;
use ir::options;
use pool::layout::{ATOMIC, MAX, NOMINAL, TOP};
use pool::record as concept;

// Whether a name of concept d is a fresh one.
fn named_anew(scratch: &[u8], k: Counters, d: u32) -> bool
    requires { Reading scratch.now k × (d < k.concepts) }
    ensures { result ≡ anew (concept_at (words scratch.now) d) }
{
    // By the record's number, as pool's concept_at goes: read as an enum, a word that is none of the twelve would need an arm of its own
    // here.
    match concept::kind(scratch, d) {
        TOP | ATOMIC | NOMINAL => false,
        _ => true,
    }
}

// Whether the filler d of restriction c waits.
fn waits(scratch: &[u8], k: Counters, c: u32, d: u32) -> bool
    requires { Reading scratch.now k × (c < k.concepts) × (d < k.concepts) }
    ensures { result ≡ (equal_names k.options && (is_max (concept_at (words scratch.now) c) && anew (concept_at (words scratch.now) d))) }
{
    // Three tests: the branches of three operands come to the proof as one case.
    if !options::equal_names(k.options) {
        return false;
    }
    if concept::kind(scratch, c) < MAX {
        return false;
    }
    named_anew(scratch, k, d)
}

// Where it does: under the name that it gets, which is the next fresh class.
pub fn wait(scratch: &mut [u8], k: Counters, c: u32, d: u32)
    requires { Reading scratch.old k × (c < k.concepts) × (d < k.concepts) × (4 * (limits_at + limits_words) ≤ length scratch.old) }
    ensures { let w = words scratch.old in
        words scratch.new ≡ pick (equal_names k.options && (is_max (concept_at w c) && anew (concept_at w d))) (appended w d k.next_class) w }
{
    if waits(scratch, k, c, d) {
        waiting::append(scratch, d, k.next_class);
    }
}
