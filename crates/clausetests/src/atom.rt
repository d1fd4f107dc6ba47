// The set of an atom of one variable, and what an atom of two leaves to one of them.
// Clauses that repeat stay clauses: `RowsThere` is about one moment of what is lent.
ghost use Rattle.std.specs.Prelude.{◌≡◌, Bool, List, ℕ, ◌+◌, ◌<◌, ◌≤◌, leb, eqb};
ghost use Rattle.words.specs.Words.{words};
ghost use Rattle.ir.specs.Pick.{pick};
ghost use Rattle.ir.specs.Roles.{flipped};
ghost use Rattle.ir.specs.declared.atom.Atom.TheVariants as Atoms;
ghost use Rattle.rules.specs.Semantics.{Interpretation, qualifies, atom_holds, chosen};
ghost use Rattle.states.specs.Masks.{mask_of};
ghost use Rattle.sets.specs.Laid.{Rows};
ghost use Rattle.clausetests.specs.Given.{Given, NamesRoles, PairWith, AtomThere};
ghost use Rattle.clausetests.specs.SetLaws.{RowsThere, count_in};

use crate::{State, class};
use ir::atom::{Atom, Qualifier};
use ir::role::Role;
use sets::kept;

// How many of a set x is related to.
fn count_in(scratch: &[u8], code: u32, x: u32, among: u64) -> u32
    requires { RowsThere code (x + 1) scratch.now }
    ensures { (n : ℕ) (R : ℕ → ℕ → Bool) (f : ℕ → Bool) → x < n → Rows (words scratch.now) code n R → among ≡ mask_of n f → result ≡ count_in n R f x }
{
    sets::size(sets::both(kept::row(scratch, code, x), among))
}

// The elements that are related to at most n of a set. (A function for each comparison: what one of a closure promises would speak of
// what the closure answers.)
fn at_most(scratch: &[u8], code: u32, among: u64, n: u32, size: u32) -> u64
    requires { RowsThere code size scratch.now }
    ensures { (R : ℕ → ℕ → Bool) (f : ℕ → Bool) → Rows (words scratch.now) code size R → among ≡ mask_of size f → result ≡ mask_of size (λ x. leb (count_in size R f x) n) }
{
    sets::filtered(size, |x| count_in(scratch, code, x, among) <= n)
}

// To at least n. (Of an atom Exists to at least 1: `some` is in extents, which this crate does not name.)
fn at_least(scratch: &[u8], code: u32, among: u64, n: u32, size: u32) -> u64
    requires { RowsThere code size scratch.now }
    ensures { (R : ℕ → ℕ → Bool) (f : ℕ → Bool) → Rows (words scratch.now) code size R → among ≡ mask_of size f → result ≡ mask_of size (λ x. leb n (count_in size R f x)) }
{
    sets::filtered(size, |x| n <= count_in(scratch, code, x, among))
}

// The elements that a number restriction counts.
fn filler(state: &State, q: Qualifier) -> u64
    ensures { (I : Interpretation) (roles : ℕ) (v : List ℕ) → Given I roles state.now.size state.now.text.now (words state.now.store.now) v → result ≡ mask_of I.size (qualifies I q) }
{
    match q {
        None => sets::whole(state.size as u64),
        Some(c) => class::class_set(state, c),
    }
}

// The elements of which the atom holds, where they are all its variables.
pub fn atom_set(state: &State, scratch: &[u8], a: Atom) -> u64
    requires { AtomThere state.now.size a state.now.text.now state.now.store.now scratch.now }
    ensures { (I : Interpretation) (roles : ℕ) → Given I roles state.now.size state.now.text.now (words state.now.store.now) (words scratch.now) → NamesRoles roles a → result ≡ mask_of I.size (λ x. atom_holds I (λ _. x) a) }
{
    match a {
        Atom::Class(c, _) => class::class_set(state, c),
        Atom::Role(r, _, _) => kept::loops(scratch, r.code(), state.size),
        Atom::Exists(r, c, _) => at_least(
            scratch,
            r.code(),
            class::class_set(state, c),
            1,
            state.size,
        ),
        Atom::AtMost(r, q, n, _) => at_most(scratch, r.code(), filler(state, q), n, state.size),
        Atom::AtLeast(r, q, n, _) => at_least(scratch, r.code(), filler(state, q), n, state.size),
        Atom::Equal(_, _) => sets::whole(state.size as u64),
    }
}

// The role, or its inverse where u, the atom's first variable, is the free one.
fn turned(r: Role, u: u32, free: u32) -> Role
    ensures { result ≡ pick (eqb u «free») (flipped r) r }
{
    if u == free {
        return r.flip();
    }
    r
}

// The elements of which an atom of two variables holds for the variable `free`, where x is the other.
pub fn atom_row(scratch: &[u8], a: Atom, free: u32, x: u32, size: u32) -> u64
    requires { (x < size) × PairWith «free» a × ((text store : List ℕ) × AtomThere size a text store scratch.now) }
    ensures { (I : Interpretation) (roles : ℕ) (text w : List ℕ) → Given I roles size text w (words scratch.now) → NamesRoles roles a → result ≡ mask_of I.size (λ y. atom_holds I (chosen (λ _. x) «free» y) a) }
{
    match a {
        Atom::Role(r, u, _) => kept::row(scratch, turned(r, u, free).code(), x),
        Atom::Equal(_, _) => sets::with(0, x as u64),
        Atom::Class(_, _) => unreachable!(),
        Atom::Exists(_, _, _) => unreachable!(),
        Atom::AtMost(_, _, _, _) => unreachable!(),
        Atom::AtLeast(_, _, _, _) => unreachable!(),
    }
}
