// clausify_with_stats beside one table more, whose size fits or not.
ghost use Rattle.std.specs.Prelude.{◌≡◌, length, replicate};
ghost use Rattle.rules.specs.Run.{Run, scratch_table};
ghost use Rattle.clausify.specs.Reply.{told_reply};
ghost use Rattle.clausify.specs.Reply as Reply;
ghost use Rattle.clausify.specs.Entry.{lent};
ghost use Rattle.clausify.specs.Answer.{Answered, run_if};

use crate::answer;
use crate::numbers::Numbers;
use ir::answer::Refused;
use ir::refusal::Refusal;

// Refusal 1, with zeros in every table.
fn refuse_sizes(
    clauses: &mut [u8],
    atoms: &mut [u8],
    deferrals: &mut [u8],
    scratch: &mut [u8],
) -> Result<Numbers, Refused>
    ensures value { told_reply result ≡ Reply.Refused 1 0 }
    ensures clauses_after { clauses.new ≡ replicate (length clauses.old) 0 }
    ensures atoms_after { atoms.new ≡ replicate (length atoms.old) 0 }
    ensures deferrals_after { deferrals.new ≡ replicate (length deferrals.old) 0 }
    ensures scratch_after { scratch.new ≡ replicate (length scratch.old) 0 }
{
    answer::blank(clauses, atoms, deferrals);
    words::clear(scratch);
    Err(Refused::from(Refusal::WrongSize))
}

// The answer, or 1 where the further table does not fit: `fit` is the definition's own Bool (`run_if`).
pub fn answer_if(
    fit: bool,
    deck: &[u8],
    clauses: &mut [u8],
    atoms: &mut [u8],
    deferrals: &mut [u8],
    scratch: &mut [u8],
) -> Result<Numbers, Refused>
    ensures fact { let t = lent clauses.old atoms.old deferrals.old scratch.old in
        let o = Run deck.now t in
        Answered (run_if fit o) t (told_reply result) clauses.new atoms.new deferrals.new }
    ensures scratch_after { let t = lent clauses.old atoms.old deferrals.old scratch.old in
        scratch.new ≡ scratch_table t }
{
    if fit {
        crate::clausify_with_stats(deck, clauses, atoms, deferrals, scratch)
    } else {
        refuse_sizes(clauses, atoms, deferrals, scratch)
    }
}
