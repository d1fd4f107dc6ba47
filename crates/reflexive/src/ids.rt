// reflexive_role_ids: by mapped ids, a flag for each role behind the role map. Each step takes the set's size and answers the new one: a
// struct of it and scratch would be opened at each read, since ontology's and inverse's functions take scratch alone.
// Clauses that repeat stay clauses: each function asks for the length that it reads; `Building` and `Ready` are about one moment of what
// is lent; a type with a number's bound would be made at each read and opened at each use.
ghost use Rattle.std.specs.Prelude.{◌≡◌, [], ℕ, ◌*◌, ◌≤◌, ◌<◌, length};
ghost use Rattle.words.specs.Words.{words};
ghost use Rattle.ir.specs.Scratch.{alternatives_at};
ghost use Rattle.rules.specs.Deck.{most_roles};
ghost use Rattle.rules.specs.State.{Env};
ghost use Rattle.rules.specs.Reflexive.{reflexive_role_ids};
ghost use Rattle.ontology.specs.Layout.{axioms_of};
ghost use Rattle.inverse.specs.Layout.{RolesHeld, Building};
ghost use Rattle.reflexive.specs.Flags.{FlagsHeld, MapWithin, OnlyFlags};
ghost use Rattle.reflexive.specs.Steps.{id_at, insertion, edge, edges_to, edges_across, axiom_edges, axioms_edges, declared_ids, Ready, Codes, HasAxiom, Step, Begun};

use ir::scratch::{NUMBERS, ROLES};
use ontology::axiom;

pub const FLAGS: usize = ROLES + 1024;

// The deck's numbers of three kinds of axioms: a role below another, equivalent roles, a reflexive role. Constants, as ontology's row_axiom
// goes by number: an enum would be made by a match over all the numbers, to tell the three.
const SUB_ROLE: u32 = 33;

const EQUIVALENT: u32 = 34;

const REFLEXIVE: u32 = 35;

// The id that a role's code is mapped to.
fn canon_id(scratch: &[u8], code: u32) -> u32
    requires { (code < 2 * most_roles) × (4 * alternatives_at ≤ length scratch.now) }
    ensures { result ≡ id_at (words scratch.now) code }
{
    inverse::canon_role(scratch, code).role_id()
}

// Adds an id to a set of so many; how many there are then.
fn insert(scratch: &mut [u8], id: u32, size: u32) -> u32
    requires { Ready scratch.old size × (id < most_roles) }
    ensures { Step (words scratch.old) (words scratch.new) size result (insertion id) }
{
    if words::get_word(scratch, FLAGS + id as usize) != 0 {
        return size;
    }
    words::put_word(scratch, FLAGS + id as usize, 1);
    size + 1
}

// The roles declared reflexive.
fn declared(scratch: &mut [u8], n: u32) -> u32
    requires { Building scratch.old n × MapWithin (words scratch.old) }
    ensures { Begun (words scratch.old) (words scratch.new) result (λ env. declared_ids (words scratch.old) n env []) }
{
    words::clear_words(scratch, FLAGS, 1024);
    let mut size: u32 = 0;
    for i in 0..n {
        if axiom::number(scratch, i, 0) == REFLEXIVE {
            let id = canon_id(scratch, axiom::number(scratch, i, 1));
            size = insert(scratch, id, size);
        }
    }
    size
}

// An edge: where a is in the set, so is b.
fn along(scratch: &mut [u8], a: u32, b: u32, size: u32) -> u32
    requires { Ready scratch.old size × (a < most_roles) × (b < most_roles) }
    ensures { Step (words scratch.old) (words scratch.new) size result (edge a b) }
{
    if words::get_word(scratch, FLAGS + a as usize) == 0 {
        return size;
    }
    insert(scratch, b, size)
}

// The edges from role a to each other of the `count` role codes from `at` on, which are no slice: scratch is written meanwhile.
fn edges_from(scratch: &mut [u8], a: u32, at: usize, count: u32, size: u32) -> u32
    requires { Ready scratch.old size × (a < most_roles) × Codes (words scratch.old) at count }
    ensures { Step (words scratch.old) (words scratch.new) size result (edges_to (words scratch.old) a at count) }
{
    let mut s = size;
    for j in 0..count {
        let b = canon_id(scratch, words::get_word(scratch, at + j as usize));
        if a != b {
            s = along(scratch, a, b, s);
        }
    }
    s
}

// The edges of an equivalence.
fn edges_among(scratch: &mut [u8], at: usize, count: u32, size: u32) -> u32
    requires { Ready scratch.old size × Codes (words scratch.old) at count }
    ensures { Step (words scratch.old) (words scratch.new) size result (edges_across (words scratch.old) at count count) }
{
    let mut s = size;
    for i in 0..count {
        let a = canon_id(scratch, words::get_word(scratch, at + i as usize));
        s = edges_from(scratch, a, at, count, s);
    }
    s
}

// The edges of axiom i.
fn edges_of(scratch: &mut [u8], i: u32, size: u32) -> u32
    requires { Ready scratch.old size × HasAxiom scratch.old i }
    ensures { Step (words scratch.old) (words scratch.new) size result (axiom_edges (words scratch.old) i) }
{
    match axiom::number(scratch, i, 0) {
        SUB_ROLE => {
            let a = canon_id(scratch, axiom::number(scratch, i, 1));
            let b = canon_id(scratch, axiom::number(scratch, i, 2));
            along(scratch, a, b, size)
        }
        EQUIVALENT => {
            let at = NUMBERS + axiom::start(scratch, i) as usize + 1;
            edges_among(scratch, at, axiom::count(scratch, i) - 1, size)
        }
        _ => size,
    }
}

// One round over the edges of n axioms.
fn round(scratch: &mut [u8], n: u32, size: u32) -> u32
    requires { Ready scratch.old size × Building scratch.old n }
    ensures { Step (words scratch.old) (words scratch.new) size result (axioms_edges (words scratch.old) n) }
{
    let mut s = size;
    for i in 0..n {
        s = edges_of(scratch, i, s);
    }
    s
}

// Of the n axioms in scratch; how many there are.
pub fn reflexive_role_ids(scratch: &mut [u8], n: u32) -> u32
    requires { Building scratch.old n × MapWithin (words scratch.old) }
    ensures flags_held { (env : Env) → RolesHeld (words scratch.old) env.inverse_canon → FlagsHeld (words scratch.new) (reflexive_role_ids env (axioms_of (words scratch.old) n)) × (result ≡ length (reflexive_role_ids env (axioms_of (words scratch.old) n))) }
    ensures only_flags { OnlyFlags (words scratch.old) (words scratch.new) }
{
    let mut size = declared(scratch, n);
    // until a round adds nothing: how many there are is not known before
    loop {
        let after = round(scratch, n, size);
        if after == size {
            break size;
        }
        size = after;
    }
}
