// What an accepted deck declares.
// Clauses that repeat stay clauses: each function asks for the length that it reads.
ghost use Rattle.std.specs.Prelude.{◌≡◌, ◌≤◌, length};
ghost use Rattle.rules.specs.Deck.{Known, fine, read_deck};
ghost use Rattle.rules.specs.Run.{scratch_bytes};
ghost use Rattle.layouts.specs.Read.{Declares};

use layouts::limits::Limits;
use ontology::lines::{TABLE, TABLE_END};

// Its classes, individuals and roles, and so many fresh classes.
pub fn limits(deck: &[u8], scratch: &mut [u8], fresh: u32) -> Limits
    requires { (scratch_bytes ≤ length scratch.old) × («fresh» ≤ 2000000) × ((d : Known) × (read_deck deck.now ≡ fine d)) }
    ensures { (result.fresh ≡ «fresh») × ((d : Known) → read_deck deck.now ≡ fine d → Declares d result) }
{
    let st = deck::read(deck, &mut scratch[TABLE..TABLE_END]).unwrap();
    Limits {
        classes: st.classes as u32,
        individuals: st.individuals as u32,
        roles: st.roles as u32,
        fresh,
    }
}
