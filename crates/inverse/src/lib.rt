// clause.rs: build_inverse_canon and canon_role.
// Clauses that repeat stay clauses: each function asks for the length that it reads; a type with a number's bound would be made at each
// read and opened at each use.
#![tactic(auto)]

pub mod build;

ghost use Rattle.std.specs.Prelude.{◌≡◌, ◌*◌, ◌≤◌, ◌<◌, ◌^◌, length};
ghost use Rattle.words.specs.Words.{words};
ghost use Rattle.ir.specs.Scratch.{alternatives_at};
ghost use Rattle.ir.specs.Roles.{role_of, role_id};
ghost use Rattle.ir.specs.declared.role.Role.TheVariants.{Named};
ghost use Rattle.rules.specs.Deck.{most_roles};
ghost use Rattle.rules.specs.Inverse.{InverseCanon, canon_role};
ghost use Rattle.inverse.specs.Layout.{RolesHeld};

use ir::role::Role;
use ir::scratch::ROLES;

// What named role r is mapped to.
fn mapped(scratch: &[u8], r: u32) -> Role
    requires { (r < most_roles) × (4 * alternatives_at ≤ length scratch.now) }
    ensures value { (m : InverseCanon) → RolesHeld (words scratch.now) m → result ≡ canon_role m (Named r) }
    ensures result_bound { role_id result < 2 ^ 31 }
{
    Role::of_code(words::get_word(scratch, ROLES + r as usize))
}

// The canonical form of a code's role.
pub fn canon_role(scratch: &[u8], code: u32) -> Role
    requires { (code < 2 * most_roles) × (4 * alternatives_at ≤ length scratch.now) }
    ensures value { (m : InverseCanon) → RolesHeld (words scratch.now) m → result ≡ canon_role m (role_of code) }
    ensures result_bound { role_id result < 2 ^ 31 }
{
    match Role::of_code(code) {
        Role::Named(r) => mapped(scratch, r),
        Role::Inverse(r) => mapped(scratch, r).flip(),
    }
}
