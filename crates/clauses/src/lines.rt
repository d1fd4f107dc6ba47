// The text of the clauses, the deferrals and the sums.
// Clauses that repeat stay clauses: each function asks for the length that it reads. A run stays its first word and its count, as in the
// definitions.
ghost use Rattle.std.specs.Prelude.{List, [], ◌∷◌, ◌+◌, ◌*◌, ◌≤◌, length};
ghost use Rattle.words.specs.Words.{words};
ghost use Rattle.ir.specs.Refusals.{refusal_number};
ghost use Rattle.rules.specs.State.{Deferred};
ghost use Rattle.rules.specs.Axioms.{Clausifier};
ghost use Rattle.rules.specs.Run.{deferral_words};
ghost use Rattle.rules.specs.Lister.{fields_text};
ghost use Rattle.rows.specs.Rows.{Put};
ghost use Rattle.staging.specs.Stage.{Shows, Showing};
ghost use Rattle.clauses.specs.Stage.{deferrals_text, state_text, refusal_text, lent, most_text, Deferring};

use ir::answer::Refused;
use ir::counters::Counters;
use tables::read;

// The first n deferrals, from byte `at` on; where they end.
fn put_deferrals(deferrals: &[u8], n: u32, out: &mut [u8], at: usize) -> usize
    requires { (4 * (deferral_words * n) ≤ length deferrals.now) × (at + 34 * n ≤ length out.old) }
    ensures { (l : List Deferred) → Deferring (words deferrals.now) n l → Put out.old at (deferrals_text l) out.new result }
{
    let mut p = at;
    for i in 0..n {
        let line = read::deferral_line(deferrals, i);
        let kind = read::deferral_kind(deferrals, i);
        p = rows::put_line(out, p, &[45, line, kind]);
    }
    p
}

// The sums.
fn put_sums(out: &mut [u8], at: usize, k: Counters) -> usize
    requires { at + 89 ≤ length out.old }
    ensures { Put out.old at (fields_text (44 ∷ k.clauses ∷ k.atoms ∷ k.deferrals ∷ k.next_class ∷ k.visits ∷ k.concepts ∷ k.members ∷ [])) out.new result }
{
    let numbers = [
        44,
        k.clauses,
        k.atoms,
        k.deferrals,
        k.next_class,
        k.visits,
        k.concepts,
        k.members,
    ];
    rows::put_line(out, at, &numbers)
}

// All of a state. The tables by themselves: they are read, and the counters are those of the last pass.
pub fn put_state(
    clauses: &[u8],
    atoms: &[u8],
    deferrals: &[u8],
    k: Counters,
    out: &mut [u8],
) -> usize
    requires { Showing lent k (words clauses.now) (words atoms.now) (words deferrals.now) × (most_text ≤ length out.old) }
    ensures put { (z : Clausifier) → Shows lent k (words clauses.now) (words atoms.now) (words deferrals.now) z → Put out.old 0 (state_text z) out.new result }
    ensures upper_bound { result ≤ most_text }
{
    let p = listing::put_clauses(clauses, atoms, k.clauses, out, 0);
    let q = put_deferrals(deferrals, k.deferrals, out, p);
    put_sums(out, q, k)
}

// A refusal, in three programs, as in normalforms and lister: one line, whose length each bounds by its own longest text.
pub fn put_refusal(out: &mut [u8], e: Refused) -> usize
    requires { most_text ≤ length out.old }
    ensures put { Put out.old 0 (refusal_text (refusal_number e.refusal) e.line) out.new result }
    ensures upper_bound { result ≤ most_text }
{
    rows::put_line(out, 0, &[49, e.refusal.number(), e.line])
}
