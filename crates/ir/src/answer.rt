// What passes answer.
ghost use Rattle.std.specs.Prelude.{◌≡◌};

use crate::refusal::Refusal;

// Of encode_antecedent: how many alternatives, and the longest one's length.
#[derive(Clone, Copy)]
pub struct Alternatives {
    pub count: u32,
    pub longest: u32,
}

// A refusal at a line; 0, as the reply's row has it, where it is about no one line.
#[derive(Clone, Copy, PartialEq, Eq, Debug)]
pub struct Refused {
    pub refusal: Refusal,
    pub line: u32,
}

// About no one line.
impl From<Refusal> for Refused {
    ghost from_gives = { λ refusal e. e ≡ record { refusal = refusal; line = 0 } };

    fn from(refusal: Refusal) -> Refused {
        Refused { refusal, line: 0 }
    }
}
