// body_var_count and body_var_count_from, as far as MAX_BODY_VARS: one variable more ends the count.
ghost use Rattle.std.specs.Prelude.{◌≡◌, List, ◌+◌, ◌≤◌, ◌<◌, length, take, ltb, eqb};
ghost use Rattle.ir.specs.Pick.{pick};
ghost use Rattle.ir.specs.declared.atom.Atom.{Atom};
ghost use Rattle.rules.specs.Branches.{max_body_vars, body_var_count_from, met_with};
ghost use Rattle.tables.specs.Tabled.{Run};

use crate::atom;
use crate::atom::ROLE;
use tables::read;

// MAX_BODY_VARS
const MOST: usize = 8;

// Adds v to the n variables seen; how many they are then. The array and its count stay apart: they have one user, and a struct would
// carry the same two names.
fn see(seen: &mut [u32], n: usize, v: u32) -> usize
    requires { n < length seen.old }
    ensures { (take result seen.new ≡ met_with (take n seen.old) v) × (n ≤ result) × (result ≤ n + 1) }
{
    if seen[..n].contains(&v) {
        return n;
    }
    seen[n] = v;
    n + 1
}

// X for the root.
fn from_root(v: u32, root: u32) -> u32
    ensures { result ≡ pick (eqb v root) 0 v }
{
    if v == root { 0 } else { v }
}

// The role atoms of a body have more variables than MAX_BODY_VARS, X among them, which stands for the root. (A loop: each turn adds to
// `seen`, and of what a closure changes `any` says nothing.)
pub fn is_wide(body: &[u8], root: u32) -> bool
    ensures { (l : List Atom) → Run body.now l → result ≡ ltb max_body_vars (body_var_count_from l root) }
{
    let mut seen = [0; 10];
    let mut n: usize = 1;
    for i in 0..read::atom_room(body) {
        if atom::kind(body, i) == ROLE {
            n = see(&mut seen, n, from_root(atom::var(body, i), root));
            n = see(&mut seen, n, from_root(atom::other(body, i), root));
            if MOST < n {
                return true;
            }
        }
    }
    false
}
