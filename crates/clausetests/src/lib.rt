// Clauses tested in a state that is laid out.
#![tactic(auto)]

pub mod atom;
pub mod class;
pub mod fitting;
pub mod listed;
pub mod search;
pub mod vars;
pub mod verdict;

ghost use Rattle.std.specs.Prelude.{◌≤◌};

// The state: its text, the store with its classes' sets, how many elements it has.
#[derive(Clone, Copy)]
pub struct State<'a> {
    pub text: &'a [u8],
    pub store: &'a [u8],
    pub size: u32,
    pub ghost few: { size ≤ 64 },
}
