// The header's options: 1 decomposes wide bodies, 2 gives card_disjunct_atoms, 4 makes the names of at-most fillers equal to them, 8 follows
// a role through several entries of the inverse map.
// Four functions: the options by their names; one of a divisor would be called by a number.
ghost use Rattle.std.specs.Prelude.{◌≡◌};
ghost use Rattle.ir.specs.Options.{body_decompose, card_disjunct_atoms, equal_names, follow_roles};

pub fn body_decompose(options: u32) -> bool
    ensures { result ≡ body_decompose options }
{
    options % 2 == 1
}

pub fn card_disjunct_atoms(options: u32) -> bool
    ensures { result ≡ card_disjunct_atoms options }
{
    options / 2 % 2 == 1
}

pub fn equal_names(options: u32) -> bool
    ensures { result ≡ equal_names options }
{
    options / 4 % 2 == 1
}

pub fn follow_roles(options: u32) -> bool
    ensures { result ≡ follow_roles options }
{
    options / 8 % 2 == 1
}
