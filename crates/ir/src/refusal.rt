// Why a deck, a state, a lent table or a call of a session is refused, by its number.
ghost use Rattle.std.specs.Prelude.{◌≡◌};
ghost use Rattle.ir.specs.Refusals.{refusal_number};

#[derive(Clone, Copy, PartialEq, Eq, Debug)]
pub enum Refusal {
    // a lent table of the wrong size
    WrongSize = 1,
    // a deck that is too long, or a line that breaks the columns
    BadColumns = 2,
    // an unknown kind, or a wrong count of numbers or section
    BadLine = 3,
    // a limit is passed
    PastLimit = 4,
    // a class, an individual, a role or a concept that is not declared
    Undeclared = 5,
    // a concept that names itself or a later one, or nests too deep
    BadNesting = 6,
    // an And or Or list that is not proper
    BadList = 7,
    // a concept of an earlier line
    Repeated = 8,
    // an at-most of the largest bound
    LargestBound = 9,
    // more visits than the limit
    VisitsSpent = 10,
    // the pool is full
    PoolFull = 11,
    // no room in a table or in hand
    NoRoom = 12,
    // a bad line of a state
    BadState = 13,
    // a clause with more than four variables
    WideClause = 14,
    // an axiom to be struck that is not live
    NotLive = 15,
}

impl Refusal {
    // No From: `refusal.number()` says by its name what number it is, the document's; `u32::from(refusal)` would not.
    pub fn number(self) -> u32
        ensures { result ≡ refusal_number self }
    {
        self as u32
    }
}
