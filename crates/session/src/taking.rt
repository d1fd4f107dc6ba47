// A taking: a run of the live deck.
ghost use Rattle.std.specs.Prelude.{◌≡◌, ◌&&◌, length, replicate};
ghost use Rattle.ir.specs.Pick.{pick};
ghost use Rattle.ir.specs.declared.refusal.Refusal.TheVariants.{WrongSize};
ghost use Rattle.rules.specs.Run.{scratch_table};
ghost use Rattle.clausify.specs.Reply.{told_reply};
ghost use Rattle.clausify.specs.Entry.{lent};
ghost use Rattle.clausify.specs.Answer.{Answered, run_if};
ghost use Rattle.session.specs.Session.{call_take};
ghost use Rattle.session.specs.Taking.{holds_deck};

use crate::form;
use clausify::fitted;
use clausify::numbers::Numbers;
use ir::answer::Refused;
use ir::refusal::Refusal;

// A run's refusal where the session holds a deck; 1 where it holds none, or a further table does not fit.
fn refusal(fit: bool, session: &[u8], scratch: &mut [u8], e: Refused) -> Refused
    ensures value { result ≡ pick (fit && holds_deck session.now (length scratch.old)) e (record { refusal = WrongSize; line = 0 }) }
    ensures scratch_after { scratch.new ≡ replicate (length scratch.old) 0 }
{
    let live = fit && form::live(session, scratch).is_some();
    words::clear(scratch);
    if live {
        e
    } else {
        Refused::from(Refusal::WrongSize)
    }
}

// The answer, or 1 where a further table does not fit. An accepted deck has passed the line checks, so it is read once; only a refusal
// asks whether the session held a deck.
pub fn take_if(
    fit: bool,
    session: &[u8],
    clauses: &mut [u8],
    atoms: &mut [u8],
    deferrals: &mut [u8],
    scratch: &mut [u8],
) -> Result<Numbers, Refused>
    ensures fact { let t = lent clauses.old atoms.old deferrals.old scratch.old in
        Answered (run_if fit (call_take session.now t)) t (told_reply result) clauses.new atoms.new deferrals.new }
    ensures scratch_after { let t = lent clauses.old atoms.old deferrals.old scratch.old in
        scratch.new ≡ scratch_table t }
{
    let stored = fit && form::is_stored(session);
    match fitted::answer_if(
        stored,
        form::deck(session),
        clauses,
        atoms,
        deferrals,
        scratch,
    ) {
        Ok(numbers) => Ok(numbers),
        Err(e) => Err(refusal(fit, session, scratch, e)),
    }
}
