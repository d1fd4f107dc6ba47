// The text of a deck's clauses.
// Both functions match: one between, with `?`, would say in its contract what scratch holds and what the text will be, of an Ok and of an Err, which
// each has now as its one promise.
// Clauses that repeat stay clauses: each function asks for the length that it reads.
ghost use Rattle.std.specs.Prelude.{◌+◌, ◌*◌, ◌≤◌, length};
ghost use Rattle.words.specs.Words.{words};
ghost use Rattle.ir.specs.Scratch.{limits_at, limits_words};
ghost use Rattle.rules.specs.Deck.{read_deck};
ghost use Rattle.rows.specs.Rows.{Put};
ghost use Rattle.clausifier.specs.Prepare.{Preparing};
ghost use Rattle.staging.specs.Stage.{staged, Blank};
ghost use Rattle.clauses.specs.Stage.{lined_text, stage_text, lent, most_text};

use crate::lines;
use ir::counters::Counters;
use ontology::load;
use tables::lent::Tables;

// The text of the clauses of a deck that was read. The tables by themselves: the writer reads them once they are lent no longer.
fn put_clausified(
    scratch: &mut [u8],
    clauses: &mut [u8],
    atoms: &mut [u8],
    deferrals: &mut [u8],
    k: Counters,
    n: u32,
    out: &mut [u8],
) -> usize
    requires { Preparing scratch.old k n × Blank lent (words clauses.old) (words atoms.old) (words deferrals.old) × (most_text ≤ length out.old) }
    ensures put { (P : Preparing scratch.old k n) → Put out.old 0 (lined_text (staged P.limit lent P.known)) out.new result }
    ensures upper_bound { result ≤ most_text }
{
    let mut lent = Tables {
        clauses,
        atoms,
        deferrals,
        counters: k,
    };
    let done = staging::clausify_deck(&mut lent, scratch, n);
    let k = lent.counters;
    match done {
        Ok(()) => lines::put_state(clauses, atoms, deferrals, k, out),
        Err(e) => lines::put_refusal(out, e),
    }
}

// From byte 0 on; where it ends.
pub fn put_stage(
    deck: &[u8],
    scratch: &mut [u8],
    clauses: &mut [u8],
    atoms: &mut [u8],
    deferrals: &mut [u8],
    out: &mut [u8],
) -> usize
    requires { (4 * (limits_at + limits_words) ≤ length scratch.old) × Blank lent (words clauses.old) (words atoms.old) (words deferrals.old) × (most_text ≤ length out.old) }
    ensures put { Put out.old 0 (stage_text (read_deck deck.now)) out.new result }
    ensures upper_bound { result ≤ most_text }
{
    match load::load(deck, scratch, 1000000) {
        Ok((k, n)) => put_clausified(scratch, clauses, atoms, deferrals, k, n, out),
        Err(e) => lines::put_refusal(out, e),
    }
}
