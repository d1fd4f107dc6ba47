// A run in cleared tables, and what a refusal leaves of it.
// Clauses that repeat stay clauses: tables that are read are no `Tables`.
ghost use Rattle.std.specs.Prelude.{◌≡◌, true, List, ℕ, length, replicate, Ok};
ghost use Rattle.words.specs.Words.{words};
ghost use Rattle.rules.specs.State.{Rooms};
ghost use Rattle.rules.specs.Run.{Run, sizes_ok, Accepted, accepted as accepted_run};
ghost use Rattle.tables.specs.Drawn.{Sized};
ghost use Rattle.run.specs.Ran.{Left};
ghost use Rattle.clausify.specs.Reply.{told_reply};
ghost use Rattle.clausify.specs.Entry.{lent, reply_of};
ghost use Rattle.clausify.specs.Answer.{LeftThere, Zeros, Answered};

use crate::numbers::Numbers;
use crate::sizes;
use ir::answer::Refused;
use ir::refusal::Refusal;
use run;
use run::Ran;
use statistics;

// The visits that a run may make.
const VISITS: u32 = 1000000;

// Zeros in the three tables.
pub fn blank(clauses: &mut [u8], atoms: &mut [u8], deferrals: &mut [u8])
    ensures clauses_after { clauses.new ≡ replicate (length clauses.old) 0 }
    ensures atoms_after { atoms.new ≡ replicate (length atoms.old) 0 }
    ensures deferrals_after { deferrals.new ≡ replicate (length deferrals.old) 0 }
{
    words::clear(clauses);
    words::clear(atoms);
    words::clear(deferrals);
}

// The numbers of a run that left these tables.
fn accepted(clauses: &[u8], atoms: &[u8], r: Ran) -> Numbers
    requires { LeftThere (words clauses.now) (words atoms.now) r.counters r.first r.decomposed × Sized (length clauses.now) (length atoms.now) 0 }
    ensures { (rooms : Rooms) (x : Accepted) (d : List ℕ) → Left rooms x r.counters r.first r.decomposed (words clauses.now) (words atoms.now) d → told_reply (Ok result) ≡ reply_of (accepted_run x) }
{
    let k = r.counters;
    let stats = statistics::clause_stats(clauses, atoms, k.clauses, k.deferrals, r.decomposed);
    Numbers {
        stats,
        fresh_ids: k.next_class - r.first,
        visits: k.visits,
    }
}

// The run in tables of zeros; a refusal leaves zeros.
fn settled(
    deck: &[u8],
    clauses: &mut [u8],
    atoms: &mut [u8],
    deferrals: &mut [u8],
    scratch: &mut [u8],
) -> Result<Numbers, Refused>
    requires { (sizes_ok (lent clauses.old atoms.old deferrals.old scratch.old) ≡ true) × Zeros clauses.old atoms.old deferrals.old }
    ensures { Answered (Run deck.now (lent clauses.old atoms.old deferrals.old scratch.old)) (lent clauses.old atoms.old deferrals.old scratch.old) (told_reply result) clauses.new atoms.new deferrals.new }
{
    match run::run(deck, scratch, clauses, atoms, deferrals, VISITS) {
        Ok(r) => Ok(accepted(clauses, atoms, r)),
        Err(e) => {
            blank(clauses, atoms, deferrals);
            Err(e)
        }
    }
}

// The reply and all but scratch; refusal 1 where the sizes do not fit.
pub fn answer(
    deck: &[u8],
    clauses: &mut [u8],
    atoms: &mut [u8],
    deferrals: &mut [u8],
    scratch: &mut [u8],
) -> Result<Numbers, Refused>
    ensures { Answered (Run deck.now (lent clauses.old atoms.old deferrals.old scratch.old)) (lent clauses.old atoms.old deferrals.old scratch.old) (told_reply result) clauses.new atoms.new deferrals.new }
{
    let fit = sizes::sizes_ok(clauses.len(), atoms.len(), deferrals.len(), scratch.len());
    blank(clauses, atoms, deferrals);
    if fit {
        settled(deck, clauses, atoms, deferrals, scratch)
    } else {
        Err(Refused::from(Refusal::WrongSize))
    }
}
