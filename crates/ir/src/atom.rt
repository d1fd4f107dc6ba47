// Atoms, their variables, and the substitution of a variable.
ghost use Rattle.std.specs.Prelude.{◌≡◌};
ghost use Rattle.ir.specs.Atoms.{atom_vars, vars_of, replaced, substitute_atom};

use crate::role::Role;

// The filler of a number restriction: a class, or Top where there is none.
pub type Qualifier = Option<u32>;

#[derive(Clone, Copy, PartialEq, Eq)]
pub enum Atom {
    // class, variable
    Class(u32, u32),
    Role(Role, u32, u32),
    // role, class, variable
    Exists(Role, u32, u32),
    // role, qualifier, number, variable
    AtMost(Role, Qualifier, u32, u32),
    AtLeast(Role, Qualifier, u32, u32),
    Equal(u32, u32),
}

// The variables of an atom, in its order.
#[derive(Clone, Copy)]
pub enum Vars {
    One(u32),
    Two(u32, u32),
}

pub fn atom_vars(a: Atom) -> Vars
    ensures { vars_of result ≡ atom_vars a }
{
    match a {
        Atom::Class(_, v) => Vars::One(v),
        Atom::Role(_, u, v) => Vars::Two(u, v),
        Atom::Exists(_, _, v) => Vars::One(v),
        Atom::AtMost(_, _, _, v) => Vars::One(v),
        Atom::AtLeast(_, _, _, v) => Vars::One(v),
        Atom::Equal(u, v) => Vars::Two(u, v),
    }
}

// `keep` for the variable `drop`, any other for itself.
pub fn replace(drop: u32, keep: u32, v: u32) -> u32
    ensures { result ≡ replaced drop keep v }
{
    if v == drop { keep } else { v }
}

// The atom with `keep` for the variable `drop`.
pub fn substitute_atom(a: Atom, drop: u32, keep: u32) -> Atom
    ensures { result ≡ substitute_atom a (replaced drop keep) }
{
    match a {
        Atom::Class(k, v) => Atom::Class(k, replace(drop, keep, v)),
        Atom::Role(r, u, v) => Atom::Role(r, replace(drop, keep, u), replace(drop, keep, v)),
        Atom::Exists(r, k, v) => Atom::Exists(r, k, replace(drop, keep, v)),
        Atom::AtMost(r, q, n, v) => Atom::AtMost(r, q, n, replace(drop, keep, v)),
        Atom::AtLeast(r, q, n, v) => Atom::AtLeast(r, q, n, replace(drop, keep, v)),
        Atom::Equal(u, v) => Atom::Equal(replace(drop, keep, u), replace(drop, keep, v)),
    }
}
