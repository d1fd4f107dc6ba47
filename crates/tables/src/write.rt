// The records of clauses and deferrals, written.
// Clauses that repeat stay clauses: each function asks for the length that it reads.
ghost use Rattle.std.specs.Prelude.{◌≡◌, ◌+◌, ◌*◌, ◌≤◌, length};
ghost use Rattle.words.specs.Words.{words};
ghost use Rattle.rules.specs.Run.{clause_words, deferral_words};
ghost use Rattle.tables.specs.Tabled.{clause_put, first_put, body_put, deferral_put};

use crate::read::{CLAUSE, DEFERRAL};

// Clause i: its first atom, the atoms of its body and of its head.
pub fn put_clause(clauses: &mut [u8], i: usize, first: u32, body: u32, head: u32)
    requires { 4 * (clause_words * i + clause_words) ≤ length clauses.old }
    ensures { words clauses.new ≡ clause_put (words clauses.old) i first body head }
{
    words::put_words(clauses, CLAUSE * i, &[first, body, head]);
}

// Its atoms begin elsewhere.
pub fn set_first(clauses: &mut [u8], i: usize, first: u32)
    requires { 4 * (clause_words * i + clause_words) ≤ length clauses.old }
    ensures { words clauses.new ≡ first_put (words clauses.old) i first }
{
    words::put_word(clauses, CLAUSE * i, first);
}

// Its body has another number of atoms.
pub fn set_body(clauses: &mut [u8], i: usize, body: u32)
    requires { 4 * (clause_words * i + clause_words) ≤ length clauses.old }
    ensures { words clauses.new ≡ body_put (words clauses.old) i body }
{
    words::put_word(clauses, CLAUSE * i + 1, body);
}

// Deferral i.
pub fn put_deferral(deferrals: &mut [u8], i: usize, line: u32, kind: u32)
    requires { 4 * (deferral_words * i + deferral_words) ≤ length deferrals.old }
    ensures { words deferrals.new ≡ deferral_put (words deferrals.old) i line kind }
{
    words::put_words(deferrals, DEFERRAL * i, &[line, kind]);
}
