// The lent tables: one clause more, its atoms as one run in the atom table; one deferral more. Each function takes the tables that it
// writes, and not `Tables`: with all of them it would say again what it leaves alone, and ask for the size of one that it does not touch.
// Clauses that repeat stay clauses: a type with a number's bound would be made at each read and opened at each use.
#![tactic(auto)]

pub mod lent;
pub mod read;
pub mod write;

ghost use Rattle.std.specs.Prelude.{◌≡◌, List, [], ◌∷◌, ◌++◌, ℕ, ◌*◌, ◌%◌, ◌≤◌, length};
ghost use Rattle.words.specs.Words.{words};
ghost use Rattle.ir.specs.Answer.{done};
ghost use Rattle.ir.specs.Records.{Fits};
ghost use Rattle.ir.specs.declared.atom.Atom.{Atom};
ghost use Rattle.rules.specs.State.{Env, Out, push, defer};
ghost use Rattle.tables.specs.Good.{Good, GoodAnswer, KeptAnswer};
ghost use Rattle.tables.specs.Drawn.{tables, show, shown, after, Lent, Sized, Roomed};
ghost use Rattle.tables.specs.Tabled.{Run};

use ir::atom::Atom;
use ir::counters::Counters;
use ir::deferral::Deferral;
use ir::record;
use ir::refusal::Refusal;

// Room for one clause more, of n atoms.
fn room(clauses: &[u8], atoms: &[u8], k: Counters, n: usize) -> Result<(), Refusal>
    requires { n ≤ 512 }
    ensures { Roomed (length clauses.now) (length atoms.now) k n result }
{
    if read::clause_room(clauses) <= k.clauses as usize {
        return Err(Refusal::NoRoom);
    }
    if read::atom_room(atoms) < k.atoms as usize + n {
        return Err(Refusal::NoRoom);
    }
    Ok(())
}

// The clause of this body and this head.
pub fn push_clause(
    clauses: &mut [u8],
    atoms: &mut [u8],
    k: &mut Counters,
    body: &[u8],
    head: &[u8],
) -> Result<(), Refusal>
    requires { (length body.now ≤ 24 * 256) × (length body.now % 24 ≡ 0) × (length head.now ≤ 24 * 256) × (length head.now % 24 ≡ 0) × Sized (length clauses.old) (length atoms.old) 0 }
    ensures d_after { (env : Env) (b h : List Atom) (s : Out) (d : List ℕ) → Lent env.rooms (words clauses.old) (words atoms.old) d → Run body.now b → Run head.now h → tables k.old (words clauses.old) (words atoms.old) d ≡ show k.old env.rooms s → after (done k.new result) (words clauses.new) (words atoms.new) d ≡ shown (λ _. 0) k.old env.rooms (push env b h s) }
    ensures good_answer { Good k.old → GoodAnswer (done k.new result) }
    ensures kept_answer { KeptAnswer k.old (done k.new result) }
{
    let first = k.atoms;
    let i = k.clauses as usize;
    let n = read::atom_room(body);
    let m = read::atom_room(head);
    room(clauses, atoms, *k, n + m)?;
    let bodies = n as u32;
    let heads = m as u32;
    words::copy_words(atoms, 6 * (first as usize), body);
    words::copy_words(atoms, 6 * (first as usize + n), head);
    write::put_clause(clauses, i, first, bodies, heads);
    k.push(bodies + heads);
    Ok(())
}

// The clause whose body is `run`, and whose head is one atom, which goes straight into the table.
pub fn push_headed(
    run: &[u8],
    head: Atom,
    clauses: &mut [u8],
    atoms: &mut [u8],
    k: &mut Counters,
) -> Result<(), Refusal>
    requires { (length run.now ≤ 24 * 256) × (length run.now % 24 ≡ 0) × Sized (length clauses.old) (length atoms.old) 0 × Fits head }
    ensures d_after { (env : Env) (b : List Atom) (s : Out) (d : List ℕ) → Lent env.rooms (words clauses.old) (words atoms.old) d → Run run.now b → tables k.old (words clauses.old) (words atoms.old) d ≡ show k.old env.rooms s → after (done k.new result) (words clauses.new) (words atoms.new) d ≡ shown (λ _. 0) k.old env.rooms (push env b (head ∷ []) s) }
    ensures good_answer { Good k.old → GoodAnswer (done k.new result) }
    ensures kept_answer { KeptAnswer k.old (done k.new result) }
{
    let first = k.atoms;
    let i = k.clauses as usize;
    let m = read::atom_room(run);
    room(clauses, atoms, *k, m + 1)?;
    let body = m as u32;
    words::copy_words(atoms, 6 * (first as usize), run);
    record::put_atom(atoms, first as usize + m, head);
    write::put_clause(clauses, i, first, body, 1);
    k.push(body + 1);
    Ok(())
}

pub fn defer(deferrals: &mut [u8], k: &mut Counters, kind: Deferral) -> Result<(), Refusal>
    requires { Sized 0 0 (length deferrals.old) }
    ensures deferrals_after { (env : Env) (s : Out) (c a : List ℕ) → Lent env.rooms c a (words deferrals.old) → tables k.old c a (words deferrals.old) ≡ show k.old env.rooms s → after (done k.new result) c a (words deferrals.new) ≡ shown (λ _. 0) k.old env.rooms (defer env kind s) }
    ensures good_answer { Good k.old → GoodAnswer (done k.new result) }
    ensures kept_answer { KeptAnswer k.old (done k.new result) }
{
    let i = k.deferrals as usize;
    if read::deferral_room(deferrals) <= i {
        return Err(Refusal::NoRoom);
    }
    write::put_deferral(deferrals, i, k.line, kind.kind());
    k.defer();
    Ok(())
}
