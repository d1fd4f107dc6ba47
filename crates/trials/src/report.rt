// A judgement in the store: the run's ten numbers, what is broken and the elements that show it; zeros on a refusal.
// Clauses that repeat stay clauses: each function asks for the length that it reads.
ghost use Rattle.std.specs.Prelude.{◌≡◌, List, [], ◌∷◌, ◌++◌, ℕ, ◌+◌, ◌*◌, ◌≤◌, length, replicate, take, drop};
ghost use Rattle.std.proofs.lemmas.List.Edits.{sets};
ghost use Rattle.words.specs.Words.{words};
ghost use Rattle.rules.specs.Run.{Accepted, scratch_bytes};
ghost use Rattle.states.specs.Test.{verdict_words, Lent, store_table};
ghost use Rattle.sets.specs.Verdicts.{shown, verdict_in};
ghost use Rattle.tables.specs.Drawn.{padded};
ghost use Rattle.clausify.specs.Answer.{ten_of};
ghost use Rattle.trials.specs.Judged.{said_in, tested_as};
ghost use Rattle.trials.specs.Tried.{told_trial};
ghost use Rattle.trials.specs.Entry.{tried_of};
ghost use Rattle.trials.specs.Tells.{NumberedAs};
ghost use Rattle.trials.specs.Stored.{front_words, most_shown, Shows, front_of, Counted, ReportThere};

use crate::judged::Verdict;
use clausify::numbers;
use clausify::numbers::Numbers;
use ir::answer::Refused;
use sets::places::SHOWN;

// Behind the ten numbers: what is broken, how many elements are shown, and these.
fn put_broken(front: &mut [u8], scratch: &[u8], n: u32, k: u32)
    requires { (length front.old ≡ 4 * front_words) × (k ≤ most_shown) × (scratch_bytes ≤ length scratch.now) }
    ensures { words front.new ≡ sets (words front.old) 10 (n ∷ k ∷ shown (words scratch.now) k) }
{
    words::put_word(front, 10, n);
    words::put_word(front, 11, k);
    let from = 4 * SHOWN;
    let to = 4 * (SHOWN + k as usize);
    words::copy_words(front, 12, &scratch[from..to]);
}

// The verdict behind the ten numbers of a front that was zeros.
fn put_verdict(front: &mut [u8], scratch: &[u8], v: Verdict)
    requires { (length front.old ≡ 4 * front_words) × Shows v × (scratch_bytes ≤ length scratch.now) }
    ensures { (l : List ℕ) → length l ≡ 10 → words front.old ≡ padded front_words l → words front.new ≡ padded front_words (l ++ verdict_words (verdict_in (words scratch.now) v)) }
{
    match v {
        Ok(()) => {}
        Err(b) => put_broken(front, scratch, b.at, b.shown),
    }
}

// The whole front, of zeros.
fn put_front(front: &mut [u8], scratch: &[u8], n: Numbers, v: Verdict)
    requires { (front.old ≡ replicate (length front.old) 0) × (length front.old ≡ 4 * front_words) × Shows v × (scratch_bytes ≤ length scratch.now) }
    ensures { words front.new ≡ padded front_words (front_of (words scratch.now) n.stats n.fresh_ids n.visits v) }
{
    numbers::put_ten(front, n);
    put_verdict(front, scratch, v);
}

// The store's bytes from its front to `to`.
const FRONT: usize = 564;

// Hands back what it reports.
pub fn report(
    told: Result<Verdict, Refused>,
    n: Numbers,
    store: &mut [u8],
    scratch: &[u8],
) -> Result<Verdict, Refused>
    requires { ReportThere store.old scratch.now told n.stats n.fresh_ids n.visits }
    ensures value { (a : Accepted) → Counted a n.stats n.fresh_ids n.visits → told_trial result ≡ tried_of (tested_as a (said_in (words scratch.now) told)) }
    ensures store_after { (a : Accepted) (t : Lent) → t.store ≡ length store.old → Counted a n.stats n.fresh_ids n.visits → store.new ≡ store_table t (tested_as a (said_in (words scratch.now) told)) }
    ensures numbered_as { NumberedAs (words store.new) n.stats n.fresh_ids (told_trial result) }
{
    words::clear(store);
    let v = told?;
    put_front(&mut store[0..FRONT], scratch, n, v);
    Ok(v)
}
