// What is known before a line of a deck, beside the table.
ghost use Rattle.std.specs.Prelude.{◌≡◌};
ghost use Rattle.deck.specs.Records.{section_number};

// A deck's sections, in their order.
#[derive(Clone, Copy, PartialEq, Eq, PartialOrd, Ord, Debug)]
pub enum Section {
    Header = 1,
    Keys = 2,
    Concepts = 3,
    Axioms = 4,
}

// Its number, as the rules have it; 0 where no line came before.
pub fn number(section: Option<Section>) -> usize
    ensures { result ≡ section_number section }
{
    section.map_or(0, |section| section as usize)
}

// The section of the line before it, the header's numbers, where the key marks begin, and how many key marks, concept lines and axiom
// lines there are.
#[derive(Clone, Copy, Default)]
pub struct State {
    pub section: Option<Section>,
    pub classes: usize,
    pub individuals: usize,
    pub roles: usize,
    pub options: usize,
    pub marks: usize,
    pub keys: usize,
    pub concepts: usize,
    pub axioms: usize,
}
