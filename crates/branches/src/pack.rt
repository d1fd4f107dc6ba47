// A class or role atom in one word: a tag, the class or the role's code, the variables.
ghost use Rattle.std.specs.Prelude.{◌≡◌};
ghost use Rattle.ir.specs.declared.atom.Atom.{Atom};
ghost use Rattle.branches.specs.Memo.{packed, Packable};

use ir::atom::Atom;
use ir::role::Role;

// No From: it asks for a bound, which a From cannot; `unpack` is its other half.
pub fn pack(a: Atom) -> u32
    requires { Packable a }
    ensures { result ≡ packed a }
{
    match a {
        Atom::Class(k, v) => 2 * (1024 * k + v),
        Atom::Role(r, u, v) => 2 * (1024 * (1024 * r.code() + u) + v) + 1,
        _ => unreachable!(),
    }
}

pub fn unpack(w: u32) -> Atom
    ensures { (a : Atom) → Packable a → w ≡ packed a → result ≡ a }
{
    let x = w / 2;
    let v = x % 1024;
    if w % 2 == 0 {
        return Atom::Class(x / 1024, v);
    }
    let y = x / 1024;
    Atom::Role(Role::of_code(y / 1024), y % 1024, v)
}
