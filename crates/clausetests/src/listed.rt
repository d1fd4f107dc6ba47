// The variables of a clause, listed.
ghost use Rattle.std.specs.Prelude.{◌≡◌, ◌≤◌};

// In rising order, the first n of `ids`; n is 5 where there are more than four. (A count that stops at 5: an Option would give
// `clause_verdict` an arm that no narrow clause takes.)
#[derive(Clone, Copy)]
pub struct Vars {
    pub n: u32,
    pub ids: [u32; 4],
    pub ghost few: { n ≤ 5 },
}

impl Vars {
    // None yet.
    pub fn none() -> Vars
        ensures { result.n ≡ 0 }
    {
        Vars { n: 0, ids: [0; 4] }
    }
}
