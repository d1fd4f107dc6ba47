// Roles by their codes.
// Clauses that repeat stay clauses: each function asks for the length that it reads; a type with a number's bound would be made at each
// read and opened at each use.
ghost use Rattle.std.specs.Prelude.{◌≡◌, ◌*◌, ◌<◌, ◌≤◌, length};
ghost use Rattle.words.specs.Words.{words};
ghost use Rattle.ir.specs.Roles.{role_of, role_code, flipped};
ghost use Rattle.rules.specs.Deck.{most_roles};
ghost use Rattle.rules.specs.Run.{scratch_bytes};
ghost use Rattle.states.specs.State.{most_elements};
ghost use Rattle.sets.specs.Laid.{row_of};

use ir::role::Role;

// What element x is related to: kept::row for an element of 64 bits, as sets::least gives it. Each of ten calls would cast it, and
// say again why it is small.
pub fn row(scratch: &[u8], code: u32, x: u64) -> u64
    requires { (code < 2 * most_roles) × (x < most_elements) × (scratch_bytes ≤ length scratch.now) }
    ensures { result ≡ row_of (words scratch.now) code x }
{
    sets::kept::row(scratch, code, x as u32)
}

// The other polarity of a role's code, by Role's own methods: two axioms read rows of the inverse direction.
pub fn turned(code: u32) -> u32
    requires { code < 2 * most_roles }
    ensures { result ≡ role_code (flipped (role_of code)) }
{
    let r = Role::of_code(code);
    r.flip().code()
}
