// The text of clauses, as the lister prints them, from the lent tables into lent bytes.
// Clauses that repeat stay clauses: `ClauseThere` is about one moment of what is lent. A run stays its first word and its count, as in the
// definitions.
#![tactic(auto)]

ghost use Rattle.std.specs.Prelude.{List, ◌+◌, ◌*◌, ◌/◌, ◌≤◌, length};
ghost use Rattle.words.specs.Words.{words};
ghost use Rattle.ir.specs.declared.atom.Atom.{Atom};
ghost use Rattle.rules.specs.State.{Clause};
ghost use Rattle.rules.specs.Run.{atom_words};
ghost use Rattle.rules.specs.Lister.{atoms_text, clauses_text};
ghost use Rattle.rows.specs.Rows.{Put};
ghost use Rattle.tables.specs.Tabled.{Run, ClauseAt, ClauseThere, Tabled, atom_count};
ghost use Rattle.listing.specs.Listing.{Listable, clause_text};

use tables::read;

// The atoms of a run.
fn put_atoms(run: &[u8], out: &mut [u8], at: usize) -> usize
    requires { at + 78 * (length run.now / (4 * atom_words)) ≤ length out.old }
    ensures { (l : List Atom) → Run run.now l → Put out.old at (atoms_text l) out.new result }
{
    let n = read::atom_room(run);
    let mut p = at;
    for j in 0..n {
        p = rows::put_row(42, run, 6 * j, 6, out, p);
    }
    p
}

// Clause i and its atoms. The tables by themselves, here and below: a reader has two of them, and no counters.
fn put_clause_rows(clauses: &[u8], atoms: &[u8], i: u32, out: &mut [u8], at: usize) -> usize
    requires { ClauseThere (words clauses.now) (words atoms.now) i × (at + 45 + 78 * atom_count (words clauses.now) i ≤ length out.old) }
    ensures { (x : Clause) → ClauseAt (words clauses.now) (words atoms.now) i x → Put out.old at (clause_text i x) out.new result }
{
    let bodies = read::body_count(clauses, i);
    let heads = read::head_count(clauses, i);
    let p = rows::put_line(out, at, &[41, i, bodies, heads]);
    put_atoms(read::atoms_of(clauses, atoms, i), out, p)
}

// The first n clauses, from byte `at` on; where they end.
pub fn put_clauses(clauses: &[u8], atoms: &[u8], n: u32, out: &mut [u8], at: usize) -> usize
    requires { Listable (words clauses.now) (words atoms.now) n at (length out.old) }
    ensures { (l : List Clause) → Tabled (words clauses.now) (words atoms.now) n l → Put out.old at (clauses_text 0 l) out.new result }
{
    let mut p = at;
    for i in 0..n {
        p = put_clause_rows(clauses, atoms, i, out, p);
    }
    p
}
