// The tables of a clause: for each variable a set, for each pair of variables a set for each element of the first.
// Clauses that repeat stay clauses: each function asks for the length that it reads; `MeantThere` and `RunMeant` are about one moment of
// what is lent; a type with a number's bound would be made at each read and opened at each use. A run stays its first word and its count,
// as in the definitions.
ghost use Rattle.std.specs.Prelude.{◌≡◌, Bool, true, ◌&&◌, List, [], ◌∷◌, ◌++◌, ℕ, ◌<◌, ◌≤◌, ◌+◌, ◌*◌, length, get_or};
ghost use Rattle.words.specs.Words.{words};
ghost use Rattle.ir.specs.Atoms.{atom_vars};
ghost use Rattle.ir.specs.declared.atom.Atom.{Atom};
ghost use Rattle.rules.specs.State.{Clause};
ghost use Rattle.rules.specs.Run.{scratch_bytes};
ghost use Rattle.rules.specs.Semantics.{Interpretation, atom_holds, chosen, clause_vars};
ghost use Rattle.states.specs.Masks.{mask_of};
ghost use Rattle.sets.specs.Kept.{set_at};
ghost use Rattle.sets.specs.Places.{vars_at, shown_at};
ghost use Rattle.tables.specs.Tabled.{Run};
ghost use Rattle.tables.specs.AtomLaws.{no_atom};
ghost use Rattle.clausetests.specs.Given.{Given, NamesRoles, PairWith, AtomThere};
ghost use Rattle.clausetests.specs.Fitting.{pairs, pair_at, Tables, is_head, turned, one_with, two_with, ones_with, twos_with, clause_one, clause_two, Changed, Meant, MeantThere, RunMeant, ClauseMeant};

use crate::listed::Vars;
use crate::{State, atom, vars};
use ir::atom::Atom;
use ir::record;
use sets::kept;
use sets::places::{PAIRS, VARS};

// Where a run stands in its clause: an atom of a head narrows by what it fails of.
#[derive(Clone, Copy)]
pub enum Side {
    Body,
    Head,
}

// The pairs of k places. (A product: arms for each number of places would be gone through for each element of a search.)
fn pairs(k: u32) -> usize
    requires { k ≤ 4 }
    ensures { (result ≡ pairs k) × (result ≤ 6) }
{
    (k * k - k) as usize / 2
}

// Where the sets of the places i and j begin.
fn pair_at(i: u32, j: u32) -> usize
    requires { (i < j) × (j < 4) }
    ensures { result ≡ pair_at i j }
{
    PAIRS + 64 * (i as usize + pairs(j))
}

// What fits at place j with element e at place i.
pub fn row(scratch: &[u8], i: u32, j: u32, e: u32) -> u64
    requires { (i < j) × (j < 4) × (e < 64) × (scratch_bytes ≤ length scratch.now) }
    ensures { result ≡ set_at (words scratch.now) (pair_at i j + e) }
{
    kept::get_set(scratch, pair_at(i, j) + e as usize)
}

// n sets from `from` on become m. (A range would be made of the two at each of its two calls.)
fn fill(scratch: &mut [u8], from: usize, n: usize, m: u64)
    requires { 8 * (from + n) ≤ length scratch.old }
    ensures by_index { (i : ℕ) → i < n → set_at (words scratch.new) (from + i) ≡ m }
    ensures changed { Changed (2 * from) (2 * (from + n)) (words scratch.old) (words scratch.new) }
{
    for i in 0..n {
        kept::put_set(scratch, from + i, m);
    }
}

// Tables of k variables before any atom.
fn start(scratch: &mut [u8], k: u32, size: u32)
    requires { (k ≤ 4) × (size ≤ 64) × (scratch_bytes ≤ length scratch.old) }
    ensures tables { Tables size k (λ _ _. true) (λ _ _ _ _. true) (words scratch.new) }
    ensures changed { Changed (2 * vars_at) shown_at (words scratch.old) (words scratch.new) }
{
    let m = sets::whole(size as u64);
    fill(scratch, VARS, k as usize, m);
    fill(scratch, PAIRS, 64 * pairs(k), m);
}

// What the set a has and the atom's set m allows.
fn allowed(a: u64, m: u64, side: Side) -> u64
    ensures { (n : ℕ) (f g : ℕ → Bool) → a ≡ mask_of n f → m ≡ mask_of n g → result ≡ mask_of n (λ x. f x && turned (is_head side) (g x)) }
{
    match side {
        Side::Body => sets::both(a, m),
        Side::Head => sets::without(a, m),
    }
}

// Set i, narrowed by an atom's set.
fn narrow(scratch: &mut [u8], i: usize, m: u64, side: Side)
    requires { 8 * i + 8 ≤ length scratch.old }
    ensures by_index { (n : ℕ) (f g : ℕ → Bool) → set_at (words scratch.old) i ≡ mask_of n f → m ≡ mask_of n g → set_at (words scratch.new) i ≡ mask_of n (λ x. f x && turned (is_head side) (g x)) }
    ensures changed { Changed (2 * i) (2 * i + 2) (words scratch.old) (words scratch.new) }
{
    let a = kept::get_set(scratch, i);
    kept::put_set(scratch, i, allowed(a, m, side));
}

// The sets from `at` on, one for each element, narrowed by an atom of two variables; `free` is the second of them.
fn narrow_rows(scratch: &mut [u8], a: Atom, at: usize, free: u32, side: Side, size: u32)
    requires { (at + 64 ≤ 44032) × PairWith «free» a × ((text store : List ℕ) × AtomThere size a text store scratch.old) }
    ensures e_after { (I : Interpretation) (roles : ℕ) (text w : List ℕ) (f : ℕ → ℕ → Bool) → Given I roles size text w (words scratch.old) → NamesRoles roles a → ((e : ℕ) → e < size → set_at (words scratch.old) (at + e) ≡ mask_of size (f e)) → (e : ℕ) → e < size → set_at (words scratch.new) (at + e) ≡ mask_of size (λ y. f e y && turned (is_head side) (atom_holds I (chosen (λ _. e) «free» y) a)) }
    ensures changed { Changed (2 * at) (2 * (at + 64)) (words scratch.old) (words scratch.new) }
{
    for e in 0..size {
        let m = atom::atom_row(scratch, a, free, e, size);
        narrow(scratch, at + e as usize, m, side);
    }
}

// The set of place j, narrowed by an atom that has no other variable.
fn narrow_one(state: &State, scratch: &mut [u8], a: Atom, j: u32, side: Side)
    requires { (j < 4) × AtomThere state.now.size a state.now.text.now state.now.store.now scratch.old }
    ensures j_after { (I : Interpretation) (roles : ℕ) (f : ℕ → Bool) → Given I roles state.now.size state.now.text.now (words state.now.store.now) (words scratch.old) → NamesRoles roles a → set_at (words scratch.old) (vars_at + j) ≡ mask_of state.now.size f → set_at (words scratch.new) (vars_at + j) ≡ mask_of state.now.size (λ x. f x && turned (is_head side) (atom_holds I (λ _. x) a)) }
    ensures changed { Changed (2 * (vars_at + j)) (2 * (vars_at + j) + 2) (words scratch.old) (words scratch.new) }
{
    let m = atom::atom_set(state, scratch, a);
    narrow(scratch, VARS + j as usize, m, side);
}

// The tables, narrowed by an atom of the variables x and y.
fn narrow_pair(state: &State, scratch: &mut [u8], a: Atom, v: Vars, x: u32, y: u32, side: Side)
    requires { (atom_vars a ≡ x ∷ y ∷ []) × MeantThere state.now.size (a ∷ []) v state.now.text.now state.now.store.now scratch.old }
    ensures tables { (I : Interpretation) (roles : ℕ) (vs : List ℕ) (one : ℕ → ℕ → Bool) (two : ℕ → ℕ → ℕ → ℕ → Bool) → Meant I roles vs state.now.size (a ∷ []) v state.now.text.now (words state.now.store.now) (words scratch.old) → Tables state.now.size v.n one two (words scratch.old) → Tables state.now.size v.n (one_with I vs (is_head side) a one) (two_with I vs (is_head side) a two) (words scratch.new) }
    ensures changed { Changed (2 * vars_at) shown_at (words scratch.old) (words scratch.new) }
{
    let i = vars::place(v, x);
    let j = vars::place(v, y);
    if i == j {
        narrow_one(state, scratch, a, i, side);
        return;
    }
    if i < j {
        narrow_rows(scratch, a, pair_at(i, j), y, side, state.size);
        return;
    }
    narrow_rows(scratch, a, pair_at(j, i), x, side, state.size);
}

// By an atom.
fn narrow_atom(state: &State, scratch: &mut [u8], a: Atom, v: Vars, side: Side)
    requires { MeantThere state.now.size (a ∷ []) v state.now.text.now state.now.store.now scratch.old }
    ensures tables { (I : Interpretation) (roles : ℕ) (vs : List ℕ) (one : ℕ → ℕ → Bool) (two : ℕ → ℕ → ℕ → ℕ → Bool) → Meant I roles vs state.now.size (a ∷ []) v state.now.text.now (words state.now.store.now) (words scratch.old) → Tables state.now.size v.n one two (words scratch.old) → Tables state.now.size v.n (one_with I vs (is_head side) a one) (two_with I vs (is_head side) a two) (words scratch.new) }
    ensures changed { Changed (2 * vars_at) shown_at (words scratch.old) (words scratch.new) }
{
    match ir::atom::atom_vars(a) {
        ir::atom::Vars::One(x) => {
            let j = vars::place(v, x);
            narrow_one(state, scratch, a, j, side);
        }
        ir::atom::Vars::Two(x, y) => narrow_pair(state, scratch, a, v, x, y, side),
    }
}

// By atom i of a run.
fn narrow_at(state: &State, scratch: &mut [u8], run: &[u8], i: usize, v: Vars, side: Side)
    requires { (24 * i + 24 ≤ length run.now) × RunMeant state.now.size run.now v state.now.text.now state.now.store.now scratch.old }
    ensures tables { (I : Interpretation) (roles : ℕ) (vs : List ℕ) (l : List Atom) (one : ℕ → ℕ → Bool) (two : ℕ → ℕ → ℕ → ℕ → Bool) → Run run.now l → Meant I roles vs state.now.size l v state.now.text.now (words state.now.store.now) (words scratch.old) → Tables state.now.size v.n one two (words scratch.old) → Tables state.now.size v.n (one_with I vs (is_head side) (get_or l i no_atom) one) (two_with I vs (is_head side) (get_or l i no_atom) two) (words scratch.new) }
    ensures changed { Changed (2 * vars_at) shown_at (words scratch.old) (words scratch.new) }
{
    let Some(a) = record::get_atom(run, i) else {
        unreachable!()
    };
    narrow_atom(state, scratch, a, v, side);
}

// By a run.
fn narrow_run(state: &State, scratch: &mut [u8], run: &[u8], v: Vars, side: Side)
    requires { RunMeant state.now.size run.now v state.now.text.now state.now.store.now scratch.old }
    ensures tables { (I : Interpretation) (roles : ℕ) (vs : List ℕ) (l : List Atom) (one : ℕ → ℕ → Bool) (two : ℕ → ℕ → ℕ → ℕ → Bool) → Run run.now l → Meant I roles vs state.now.size l v state.now.text.now (words state.now.store.now) (words scratch.old) → Tables state.now.size v.n one two (words scratch.old) → Tables state.now.size v.n (ones_with I vs (is_head side) l one) (twos_with I vs (is_head side) l two) (words scratch.new) }
    ensures changed { Changed (2 * vars_at) shown_at (words scratch.old) (words scratch.new) }
{
    let n = run.len() / 24;
    for i in 0..n {
        narrow_at(state, scratch, run, i, v, side);
    }
}

// The tables of the clause of this body and this head.
pub fn clause_tables(state: &State, scratch: &mut [u8], body: &[u8], head: &[u8], v: Vars)
    requires { ClauseMeant state.now.size body.now head.now v state.now.text.now state.now.store.now scratch.old }
    ensures tables { (I : Interpretation) (roles : ℕ) (c : Clause) → Run body.now c.body → Run head.now c.head → Meant I roles (clause_vars c) state.now.size (c.body ++ c.head) v state.now.text.now (words state.now.store.now) (words scratch.old) → Tables state.now.size v.n (clause_one I c) (clause_two I c) (words scratch.new) }
    ensures changed { Changed (2 * vars_at) shown_at (words scratch.old) (words scratch.new) }
{
    start(scratch, v.n, state.size);
    narrow_run(state, scratch, body, v, Side::Body);
    narrow_run(state, scratch, head, v, Side::Head);
}
