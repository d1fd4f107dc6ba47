// The public entries in Rattle: clausify_with_stats and clausify. None asks anything of what it is lent. Each contract gives the reply, and every byte of every table at exit, as a function of the deck's bytes and the
// tables' lengths alone, and says what the clauses in these bytes mean.
// The tables are four slices each by itself, here and in what the entries call: so the C interface lends them.
#![tactic(auto)]

pub mod answer;
pub mod fitted;
pub mod numbers;
mod sizes;

ghost use Rattle.std.specs.Prelude.{◌≡◌};
ghost use Rattle.rules.specs.Run.{Run, clause_table, atom_table, deferral_table, scratch_table};
ghost use Rattle.clausify.specs.Reply.{told_reply};
ghost use Rattle.clausify.specs.Clausified.{told_count};
ghost use Rattle.clausify.specs.Answer.{count_of_reply};
ghost use Rattle.clausify.specs.Entry.{lent, reply_of, count_of, Meant, MeantCount};

use ir::answer::Refused;
use numbers::Numbers;

// The clauses of a deck in the lent tables, with statistics. At exit each table holds the answer's records and then zeros, zeros alone
// after a refusal; scratch holds zeros.
pub fn clausify_with_stats(
    deck: &[u8],
    clauses: &mut [u8],
    atoms: &mut [u8],
    deferrals: &mut [u8],
    scratch: &mut [u8],
) -> Result<Numbers, Refused>
    ensures reply { let t = lent clauses.old atoms.old deferrals.old scratch.old in
        let o = Run deck.now t in
        told_reply result ≡ reply_of o }
    ensures clauses { let t = lent clauses.old atoms.old deferrals.old scratch.old in
        let o = Run deck.now t in
        clauses.new ≡ clause_table t o }
    ensures atoms { let t = lent clauses.old atoms.old deferrals.old scratch.old in
        let o = Run deck.now t in
        atoms.new ≡ atom_table t o }
    ensures deferrals { let t = lent clauses.old atoms.old deferrals.old scratch.old in
        let o = Run deck.now t in
        deferrals.new ≡ deferral_table t o }
    ensures scratch { let t = lent clauses.old atoms.old deferrals.old scratch.old in
        scratch.new ≡ scratch_table t }
    ensures meaning { Meant deck.now clauses.new atoms.new (told_reply result) }
{
    let reply = answer::answer(deck, clauses, atoms, deferrals, scratch);
    words::clear(scratch);
    reply
}

// The same without the statistics: the number of clauses.
pub fn clausify(
    deck: &[u8],
    clauses: &mut [u8],
    atoms: &mut [u8],
    deferrals: &mut [u8],
    scratch: &mut [u8],
) -> Result<u32, Refused>
    ensures reply { let t = lent clauses.old atoms.old deferrals.old scratch.old in
        let o = Run deck.now t in
        told_count result ≡ count_of o }
    ensures counted { let t = lent clauses.old atoms.old deferrals.old scratch.old in
        let o = Run deck.now t in
        told_count result ≡ count_of_reply (reply_of o) }
    ensures clauses { let t = lent clauses.old atoms.old deferrals.old scratch.old in
        let o = Run deck.now t in
        clauses.new ≡ clause_table t o }
    ensures atoms { let t = lent clauses.old atoms.old deferrals.old scratch.old in
        let o = Run deck.now t in
        atoms.new ≡ atom_table t o }
    ensures deferrals { let t = lent clauses.old atoms.old deferrals.old scratch.old in
        let o = Run deck.now t in
        deferrals.new ≡ deferral_table t o }
    ensures scratch { let t = lent clauses.old atoms.old deferrals.old scratch.old in
        scratch.new ≡ scratch_table t }
    ensures meaning { let t = lent clauses.old atoms.old deferrals.old scratch.old in
        MeantCount deck.now t clauses.new atoms.new (told_count result) }
{
    let numbers = clausify_with_stats(deck, clauses, atoms, deferrals, scratch)?;
    Ok(numbers.stats.total)
}
