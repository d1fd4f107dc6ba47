// Normal forms that are known: for each concept, and for its negation, one word: 0, or the id of its normal form and, times
// 2,048, the visits that made it. Made again, in a pool that has only grown, it takes as many visits and makes nothing.
// Clauses that repeat stay clauses: each function asks for the length that it reads.
ghost use Rattle.std.specs.Prelude.{◌≡◌, ◌+◌, ◌*◌, ◌≤◌, ◌<◌, length, get_or, OnErr};
ghost use Rattle.words.specs.Words.{words};
ghost use Rattle.ir.specs.Scratch.{hands_at};
ghost use Rattle.normalize.specs.Known.{form_at, read_form, revisited, kept_form};
ghost use Rattle.ir.specs.Answer.{answer};

use ir::counters::Counters;
use ir::refusal::Refusal;
use ir::scratch::NORMAL_FORMS;
use pool::layout::MOST_CONCEPTS;

// So many visits are too many for a word.
const MANY_VISITS: u32 = 2097152;

// A normal form's id, and the visits that made it.
#[derive(Clone, Copy)]
pub struct Form {
    pub id: u32,
    pub visits: u32,
}

// Its word. (`negated` is `form_at`'s own Bool; a type of ids below 2048 would be made at each use, to be taken apart here.)
fn place(c: u32, negated: bool) -> usize
    requires { c < 2048 }
    ensures { result ≡ form_at negated c }
{
    let at = NORMAL_FORMS + 2 * (c as usize);
    if negated { at + 1 } else { at }
}

// What is known of concept c.
pub fn form_of(scratch: &[u8], c: u32, negated: bool) -> Option<Form>
    requires { (c < 2048) × (4 * hands_at ≤ length scratch.now) }
    ensures { result ≡ read_form (get_or (words scratch.now) (form_at negated c) 0) }
{
    let word = words::get_word(scratch, place(c, negated));
    if word == 0 {
        return None;
    }
    Some(Form {
        id: word % MOST_CONCEPTS,
        visits: word / MOST_CONCEPTS,
    })
}

// A normal form that is known, after its visits.
pub fn revisit(k: &mut Counters, form: Form) -> Result<u32, Refusal>
    ensures answered { (answer k.new result) ≡ revisited k.old form }
    ensures kept { OnErr result (k.new ≡ k.old) }
{
    let visits = k.visits as usize + form.visits as usize;
    if visits > k.limit as usize {
        return Err(Refusal::VisitsSpent);
    }
    k.visits = visits as u32;
    Ok(form.id)
}

// The word of concept c becomes its normal form; it stays where the visits are too many for a word.
pub fn keep(scratch: &mut [u8], c: u32, negated: bool, form: Form)
    requires { (c < 2048) × (form.id < 2048) × (4 * hands_at ≤ length scratch.old) }
    ensures { words scratch.new ≡ kept_form (words scratch.old) (form_at negated c) form.id form.visits }
{
    if form.visits < MANY_VISITS {
        words::put_word(
            scratch,
            place(c, negated),
            MOST_CONCEPTS * form.visits + form.id,
        );
    }
}
