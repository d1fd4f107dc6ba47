// The text of a deck's normal form.
// Both functions match: one between, with `?`, would say in its contract what scratch holds and what the text will be, of an Ok and of an Err, which
// each has now as its one promise.
// Clauses that repeat stay clauses: each function asks for the length that it reads; `NormalizingAxioms` is about one moment of what is
// lent.
ghost use Rattle.std.specs.Prelude.{◌*◌, ◌≤◌, length};
ghost use Rattle.words.specs.Words.{words};
ghost use Rattle.ir.specs.Scratch.{hands_at};
ghost use Rattle.rules.specs.Deck.{read_deck};
ghost use Rattle.rules.specs.Run.{nnf_axioms};
ghost use Rattle.ontology.specs.Layout.{axioms_of};
ghost use Rattle.rebuilding.specs.States.{state_of};
ghost use Rattle.normalize.specs.Axioms.{NormalizingAxioms};
ghost use Rattle.rows.specs.Rows.{Put};
ghost use Rattle.normalforms.specs.Forms.{lined_text, forms_text, most_text};

use crate::lines;
use ir::counters::Counters;
use normalize::forms;
use ontology::load;

// Of a deck that was read.
fn put_normalized(scratch: &mut [u8], k: Counters, n: u32, out: &mut [u8]) -> usize
    requires { NormalizingAxioms scratch.old k n × (k.line ≤ 65536) × (most_text ≤ length out.old) }
    ensures put { Put out.old 0 (lined_text (nnf_axioms k.line (axioms_of (words scratch.old) n) (state_of k (words scratch.old)))) out.new result }
    ensures upper_bound { result ≤ most_text }
{
    let mut v = k;
    match forms::nnf_axioms(scratch, &mut v, n, k.line) {
        Ok(()) => lines::put_normal(scratch, v, n, out),
        Err(e) => lines::put_refusal(out, e),
    }
}

// From byte 0 on; where it ends.
pub fn put_forms(deck: &[u8], scratch: &mut [u8], out: &mut [u8]) -> usize
    requires { (4 * hands_at ≤ length scratch.old) × (most_text ≤ length out.old) }
    ensures put { Put out.old 0 (forms_text (read_deck deck.now)) out.new result }
    ensures upper_bound { result ≤ most_text }
{
    match load::load(deck, scratch, 1000000) {
        Ok((k, n)) => put_normalized(scratch, k, n, out),
        Err(e) => lines::put_refusal(out, e),
    }
}
