// The children of the root.
ghost use Rattle.std.specs.Prelude.{◌≤◌, length};

// One of them, and how many atoms it has.
#[derive(Clone, Copy)]
pub struct Child {
    pub top: u32,
    pub count: u32,
}

// In the order of their first atoms, the first `len`. (That they have 256 atoms at most stays a clause of the two functions that need no
// more: the others bound the atoms by their turn.)
#[derive(Drop)]
pub struct Children {
    pub each: [Child; 256],
    pub len: usize,
    pub ghost within: { len ≤ length each },
}
