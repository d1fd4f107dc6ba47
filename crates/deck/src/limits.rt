// 4: the header's numbers, the list's length, and room for one more concept or axiom.
ghost use Rattle.std.specs.Prelude.{◌≡◌};
ghost use Rattle.rules.specs.Deck.{Known, header_of, header_ok, room_ok, limits_ok};
ghost use Rattle.deck.specs.Records.{Counted};
ghost use Rattle.deck.specs.Rows.{numbers};

use crate::kinds;
use crate::row::Row;
use crate::state::{Section, State};

fn header_fine(row: &Row) -> bool
    ensures { result ≡ header_ok (header_of (numbers row.now)) }
{
    row.entry(1) <= 4096 && row.entry(2) <= 4096 && row.entry(3) <= 1024 && row.entry(4) <= 15
}

// As `limits` below.
fn room(row: &Row, kind: usize, st: State) -> bool
    ensures { (d : Known) → Counted st d → result ≡ room_ok d kind (numbers row.now) }
{
    match kinds::section_of(kind) {
        Some(Section::Header) => header_fine(row),
        Some(Section::Concepts) => st.concepts < 1024,
        Some(Section::Axioms) => st.axioms < 1024,
        _ => true,
    }
}

// The answer for all that is known beside the state's numbers: the code has no list of the concepts or axioms, so that `Counted` is a
// premise about every one that a caller may mean.
pub fn limits(row: &Row, kind: usize, st: State) -> bool
    ensures { (d : Known) → Counted st d → result ≡ limits_ok d kind (numbers row.now) }
{
    row.line.fields <= 129 + kinds::fixed_of(kind) && room(row, kind, st)
}
