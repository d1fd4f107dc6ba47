// build_inverse_canon, resolved: a role that is a key has the code of what it is mapped to, with option 8 of where it is followed to; any
// other its own. While the map is built, what a key is mapped to is an inverse.
// Clauses that repeat stay clauses: each function asks for the length that it reads; `Building` is about one moment of what is lent; a
// type with a number's bound would be made at each read and opened at each use.
ghost use Rattle.std.specs.Prelude.{◌≡◌, List, [], ◌+◌, ◌*◌, ◌≤◌, ◌<◌, length};
ghost use Rattle.words.specs.Words.{words};
ghost use Rattle.ir.specs.Scratch.{alternatives_at};
ghost use Rattle.ir.specs.Roles.{role_id};
ghost use Rattle.rules.specs.Deck.{most_roles};
ghost use Rattle.rules.specs.Concept.{Axiom};
ghost use Rattle.rules.specs.Inverse.{InverseCanon, lookup, skipped, declared, inverse_of, build_inverse_canon, followed, inverse_canon_of};
ghost use Rattle.rules.specs.Base.{is_some};
ghost use Rattle.ontology.specs.Layout.{axiom_at, axioms_of};
ghost use Rattle.inverse.specs.Layout.{RolesHeld, Mapped, Entries, Beside, Building};
ghost use Rattle.inverse.specs.Following.{Halfway, Following};

use ir::role::Role;
use ir::scratch::ROLES;
use ontology::axiom;

// The deck's number of an axiom of two inverse roles: a constant, as ontology's row_axiom goes by number; an enum would be made by a match over
// all the numbers, to tell the one.
const INVERSE: u32 = 32;

// The keys in the order of their entries, behind the map.
const ENTRIES: usize = ROLES + 1024;

// Whether role r is a key: it is mapped to an inverse.
fn is_key(scratch: &[u8], r: u32) -> bool
    requires { (r < most_roles) × (4 * alternatives_at ≤ length scratch.now) }
    ensures { (m : InverseCanon) → Mapped (words scratch.now) m most_roles → result ≡ is_some (lookup m r) }
{
    let mapped = Role::of_code(words::get_word(scratch, ROLES + r as usize));
    matches!(mapped, Role::Inverse(_))
}

// Whether an axiom 32 of roles r and s makes no entry.
fn skip(scratch: &[u8], r: Role, s: Role) -> bool
    requires { (role_id r < most_roles) × (role_id s < most_roles) × (4 * alternatives_at ≤ length scratch.now) }
    ensures { (m : InverseCanon) → Mapped (words scratch.now) m most_roles → result ≡ skipped m r s }
{
    match (r, s) {
        (Role::Named(a), Role::Named(b)) => { a == b || is_key(scratch, a) || is_key(scratch, b) }
        _ => true,
    }
}

// S ≡ R⁻, behind so many entries; how many there are then.
fn declare(scratch: &mut [u8], r: Role, s: Role, entries: u32) -> u32
    requires { (role_id r < most_roles) × (role_id s < most_roles) × (entries < most_roles) × (4 * alternatives_at ≤ length scratch.old) }
    ensures made { (m : InverseCanon) → Entries (words scratch.old) m entries → Entries (words scratch.new) (declared m r s) result }
    ensures few { result ≤ entries + 1 }
    ensures beside { Beside (words scratch.old) (words scratch.new) }
{
    if skip(scratch, r, s) {
        return entries;
    }
    words::put_word(scratch, ROLES + s.role_id() as usize, r.flip().code());
    words::put_word(scratch, ENTRIES + entries as usize, s.role_id());
    entries + 1
}

// Each role is its own.
fn clear_roles(scratch: &mut [u8])
    requires { 4 * alternatives_at ≤ length scratch.old }
    ensures mapped { Mapped (words scratch.new) [] most_roles }
    ensures beside { Beside (words scratch.old) (words scratch.new) }
{
    for r in 0..1024 {
        words::put_word(scratch, ROLES + r as usize, Role::Named(r).code());
    }
}

// The entry of axiom i, if it makes one, behind so many entries; how many there are then.
fn declare_axiom(scratch: &mut [u8], n: u32, i: u32, entries: u32) -> u32
    requires { Building scratch.old n × (i < n) × (entries ≤ i) }
    ensures made { (m : InverseCanon) → Entries (words scratch.old) m entries → Entries (words scratch.new) (inverse_of m (axiom_at (words scratch.old) i)) result }
    ensures few { result ≤ entries + 1 }
    ensures beside { Beside (words scratch.old) (words scratch.new) }
{
    if axiom::number(scratch, i, 0) != INVERSE {
        return entries;
    }
    let r = Role::of_code(axiom::number(scratch, i, 1));
    let s = Role::of_code(axiom::number(scratch, i, 2));
    declare(scratch, r, s, entries)
}

// The entries of the first n axioms, from an empty map on; how many they are.
fn declare_all(scratch: &mut [u8], n: u32) -> u32
    requires { Building scratch.old n × Mapped (words scratch.old) [] most_roles }
    ensures made { Entries (words scratch.new) (build_inverse_canon (axioms_of (words scratch.old) n)) result }
    ensures few { result ≤ most_roles }
    ensures beside { Beside (words scratch.old) (words scratch.new) }
{
    let mut entries: u32 = 0;
    for i in 0..n {
        entries = declare_axiom(scratch, n, i, entries);
    }
    entries
}

// Entry i, when all newer ones are followed.
fn follow(scratch: &mut [u8], i: u32)
    requires { Following scratch.old (i + 1) }
    ensures followed { (l : List Axiom) → Halfway l scratch.old (i + 1) → Halfway l scratch.new i }
    ensures beside { Beside (words scratch.old) (words scratch.new) }
{
    let key = words::get_word(scratch, ENTRIES + i as usize);
    let once = words::get_word(scratch, ROLES + key as usize);
    let end = crate::canon_role(scratch, once);
    words::put_word(scratch, ROLES + key as usize, end.code());
}

// All of so many entries, the newest first: no entry leads to an older one, so that one look-up more is enough.
fn follow_all(scratch: &mut [u8], entries: u32)
    requires { Following scratch.old entries }
    ensures held { (l : List Axiom) → Halfway l scratch.old entries → RolesHeld (words scratch.new) (followed (build_inverse_canon l)) }
    ensures beside { Beside (words scratch.old) (words scratch.new) }
{
    for i in (0..entries).rev() {
        follow(scratch, i);
    }
}

// With roles followed (option 8), or mapped in one step.
pub fn build_inverse_canon(scratch: &mut [u8], n: u32, far: bool)
    requires { Building scratch.old n }
    ensures roles_held { RolesHeld (words scratch.new) (inverse_canon_of far (axioms_of (words scratch.old) n)) }
    ensures beside { Beside (words scratch.old) (words scratch.new) }
{
    clear_roles(scratch);
    let entries = declare_all(scratch, n);
    if far {
        follow_all(scratch, entries);
    }
}
