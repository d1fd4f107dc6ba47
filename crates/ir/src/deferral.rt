// The kinds of deferral, by the Rust's names and document 01's numbers.
ghost use Rattle.std.specs.Prelude.{◌≡◌};
ghost use Rattle.ir.specs.Deferrals.{deferral_kind};

#[derive(Clone, Copy)]
pub enum Deferral {
    DisjointAntecedent = 1,
    DisjointUnionMember = 2,
    DisjointUnionCovering = 3,
    RoleChainLenNe2 = 4,
    Antecedent = 5,
    HeadOrDisjunct = 6,
    HeadExistsInner = 7,
    HeadNotNonatomic = 8,
    ReflexiveDerivedCap = 9,
}

impl Deferral {
    // No From: `deferral.kind()` says by its name what number it is, the document's; `u32::from(deferral)` would not.
    pub fn kind(self) -> u32
        ensures { result ≡ deferral_kind self }
    {
        self as u32
    }
}
