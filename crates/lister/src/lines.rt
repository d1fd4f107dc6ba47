// The listing's bytes.
// Clauses that repeat stay clauses: each function asks for the length that it reads. A run stays its first word and its count, as in the
// definitions.
ghost use Rattle.std.specs.Prelude.{◌≡◌, List, ◌++◌, ◌+◌, ◌≤◌, length};
ghost use Rattle.words.specs.Words.{words};
ghost use Rattle.rules.specs.State.{Clause};
ghost use Rattle.rules.specs.Lister.{fields_text, clauses_text, lister_lengths, listing};
ghost use Rattle.tables.specs.Tabled.{Tabled};
ghost use Rattle.rows.specs.Rows.{Put};
ghost use Rattle.listing.specs.Listing.{Listable};
ghost use Rattle.clausify.specs.Entry.{lent};
ghost use Rattle.lister.specs.Text.{numbers_line, most_rows, most_text};

use clausify::numbers::Numbers;

// The statistics in the Rust's order, the fresh ids and the visits.
fn put_numbers(out: &mut [u8], at: usize, n: Numbers) -> usize
    requires { at + 122 ≤ length out.old }
    ensures { Put out.old at (fields_text (numbers_line n.stats n.fresh_ids n.visits)) out.new result }
{
    let p = rows::put_field(out, at, 43);
    rows::put_line(out, p, &n.words())
}

// The clauses, then the numbers. The tables by themselves: a reader has two of them, and no counters.
fn put_accepted(clauses: &[u8], atoms: &[u8], n: Numbers, out: &mut [u8]) -> usize
    requires { Listable (words clauses.now) (words atoms.now) n.stats.total 0 most_rows × (most_text ≤ length out.old) }
    ensures { (l : List Clause) → Tabled (words clauses.now) (words atoms.now) n.stats.total l → Put out.old 0 (clauses_text 0 l ++ fields_text (numbers_line n.stats n.fresh_ids n.visits)) out.new result }
{
    let p = listing::put_clauses(clauses, atoms, n.stats.total, out, 0);
    put_numbers(out, p, n)
}

// From byte 0 on; where it ends. The tables may hold anything.
pub fn put_listing(
    deck: &[u8],
    clauses: &mut [u8],
    atoms: &mut [u8],
    deferrals: &mut [u8],
    scratch: &mut [u8],
    out: &mut [u8],
) -> usize
    requires { (lent clauses.old atoms.old deferrals.old scratch.old ≡ lister_lengths) × (most_text ≤ length out.old) }
    ensures { Put out.old 0 (listing deck.now) out.new result }
{
    match clausify::clausify_with_stats(deck, clauses, atoms, deferrals, scratch) {
        Ok(n) => put_accepted(clauses, atoms, n, out),
        Err(e) => rows::put_line(out, 0, &[49, e.refusal.number(), e.line]),
    }
}
