// A role as named or inverse, and its code: 2 * id, plus 1 for the inverse.
ghost use Rattle.std.specs.Prelude.{◌≡◌, ◌<◌, ◌^◌};
ghost use Rattle.ir.specs.Roles.{role_id, flipped, role_code, role_of};

#[derive(Clone, Copy, PartialEq, Eq)]
pub enum Role {
    Named(u32),
    Inverse(u32),
}

impl Role {
    // The underlying named role, regardless of polarity.
    pub fn role_id(self) -> u32
        ensures { result ≡ role_id self }
    {
        match self {
            Role::Named(i) => i,
            Role::Inverse(i) => i,
        }
    }

    // The other polarity.
    pub fn flip(self) -> Role
        ensures { result ≡ flipped self }
    {
        match self {
            Role::Named(i) => Role::Inverse(i),
            Role::Inverse(i) => Role::Named(i),
        }
    }

    // No From: it asks for a bound, which a From cannot.
    pub fn code(self) -> u32
        requires { role_id self < 2 ^ 31 }
        ensures { result ≡ role_code self }
    {
        match self {
            Role::Named(i) => 2 * i,
            Role::Inverse(i) => 2 * i + 1,
        }
    }

    // The role of a code. No From: a number may also be a role's id.
    pub fn of_code(code: u32) -> Role
        ensures { result ≡ role_of code }
    {
        if code % 2 == 0 {
            Role::Named(code / 2)
        } else {
            Role::Inverse(code / 2)
        }
    }
}
