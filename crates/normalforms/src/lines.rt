// The text of a pool and of axioms. A kind is printed as the number that it is: an enum would be made by a match over the same numbers, to
// be a number again. A concept's id and its record's words are bounded by `Ready`: a type with the bound would be made at each read, to be
// taken apart again.
// Clauses that repeat stay clauses: each function asks for the length that it reads; `AxiomsHeld` is about one moment of what is lent. A
// run stays its first word and its count, as in the definitions.
ghost use Rattle.std.specs.Prelude.{◌+◌, ◌*◌, ◌≤◌, ◌<◌, ◌≡◌, true, false, length};
ghost use Rattle.words.specs.Words.{words};
ghost use Rattle.ir.specs.Refusals.{refusal_number};
ghost use Rattle.ir.specs.Scratch.{lines_at};
ghost use Rattle.rules.specs.Lister.{fields_text};
ghost use Rattle.pool.specs.Layout.{is_list, field, concept_at, pool_of};
ghost use Rattle.pool.specs.Held.{Ready};
ghost use Rattle.ontology.specs.Layout.{axiom_row, axioms_of, AxiomsHeld};
ghost use Rattle.rows.specs.Rows.{Put};
ghost use Rattle.normalforms.specs.Forms.{concept_line, concepts_text, axioms_text, normal_text, refusal_text, most_text};

use ir::answer::Refused;
use ir::counters::Counters;
use ir::scratch::NUMBERS;
use ontology::axiom;
use pool::layout::MEMBERS;
use pool::record;

// And or Or, at concept c.
fn put_list(scratch: &[u8], k: Counters, c: u32, out: &mut [u8], at: usize) -> usize
    requires { Ready scratch.now k × (c < k.concepts) × (is_list (field (words scratch.now) c 0) ≡ true) × (at + length (fields_text (concept_line (concept_at (words scratch.now) c))) ≤ length out.old) }
    ensures { Put out.old at (fields_text (concept_line (concept_at (words scratch.now) c))) out.new result }
{
    let start = MEMBERS + record::child(scratch, c) as usize;
    let count = record::number(scratch, c) as usize;
    rows::put_row(record::kind(scratch, c), scratch, start, count, out, at)
}

// Any other concept.
fn put_record(scratch: &[u8], k: Counters, c: u32, out: &mut [u8], at: usize) -> usize
    requires { Ready scratch.now k × (c < k.concepts) × (is_list (field (words scratch.now) c 0) ≡ false) × (at + 45 ≤ length out.old) }
    ensures { Put out.old at (fields_text (concept_line (concept_at (words scratch.now) c))) out.new result }
{
    let kind = record::kind(scratch, c);
    let role = record::role(scratch, c);
    let number = record::number(scratch, c);
    let child = record::child(scratch, c);
    rows::put_line(out, at, &[kind, role, number, child])
}

// Concept c.
fn put_concept(scratch: &[u8], k: Counters, c: u32, out: &mut [u8], at: usize) -> usize
    requires { Ready scratch.now k × (c < k.concepts) × (at + length (fields_text (concept_line (concept_at (words scratch.now) c))) ≤ length out.old) }
    ensures { Put out.old at (fields_text (concept_line (concept_at (words scratch.now) c))) out.new result }
{
    if record::is_list(record::kind(scratch, c)) {
        return put_list(scratch, k, c, out, at);
    }
    put_record(scratch, k, c, out, at)
}

// All of the pool.
fn put_concepts(scratch: &[u8], k: Counters, out: &mut [u8], at: usize) -> usize
    requires { Ready scratch.now k × (at + length (concepts_text (pool_of (words scratch.now) k.concepts)) ≤ length out.old) }
    ensures { Put out.old at (concepts_text (pool_of (words scratch.now) k.concepts)) out.new result }
{
    let mut p = at;
    for c in 0..k.concepts {
        p = put_concept(scratch, k, c, out, p);
    }
    p
}

// Axiom i.
fn put_axiom(scratch: &[u8], n: u32, i: u32, out: &mut [u8], at: usize) -> usize
    requires { AxiomsHeld (words scratch.now) n × (i < n) × (4 * lines_at ≤ length scratch.now) × (at + length (fields_text (axiom_row (words scratch.now) i)) ≤ length out.old) }
    ensures { Put out.old at (fields_text (axiom_row (words scratch.now) i)) out.new result }
{
    let start = NUMBERS + axiom::start(scratch, i) as usize;
    let count = axiom::count(scratch, i) as usize;
    let p = rows::put_words(scratch, start, count, out, at);
    rows::end_line(out, p)
}

// All axioms.
fn put_axioms(scratch: &[u8], n: u32, out: &mut [u8], at: usize) -> usize
    requires { AxiomsHeld (words scratch.now) n × (4 * lines_at ≤ length scratch.now) × (at + length (axioms_text (axioms_of (words scratch.now) n)) ≤ length out.old) }
    ensures { Put out.old at (axioms_text (axioms_of (words scratch.now) n)) out.new result }
{
    let mut p = at;
    for i in 0..n {
        p = put_axiom(scratch, n, i, out, p);
    }
    p
}

// The pool, the axioms and the sums.
pub fn put_normal(scratch: &[u8], k: Counters, n: u32, out: &mut [u8]) -> usize
    requires { Ready scratch.now k × AxiomsHeld (words scratch.now) n × (4 * lines_at ≤ length scratch.now) × (most_text ≤ length out.old) }
    ensures put { Put out.old 0 (normal_text (axioms_of (words scratch.now) n) (pool_of (words scratch.now) k.concepts) k.visits) out.new result }
    ensures upper_bound { result ≤ most_text }
{
    let p = put_concepts(scratch, k, out, 0);
    let q = put_axioms(scratch, n, out, p);
    rows::put_line(out, q, &[44, k.visits, k.concepts, k.members])
}

// A refusal, in three programs, as in clauses and lister: one line, whose length each bounds by its own longest text.
pub fn put_refusal(out: &mut [u8], e: Refused) -> usize
    requires { most_text ≤ length out.old }
    ensures put { Put out.old 0 (refusal_text (refusal_number e.refusal) e.line) out.new result }
    ensures upper_bound { result ≤ most_text }
{
    rows::put_line(out, 0, &[49, e.refusal.number(), e.line])
}
