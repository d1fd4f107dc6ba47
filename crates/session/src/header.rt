// Other options, checked as the live deck's header, which is then that line.
ghost use Rattle.std.specs.Prelude.{◌≡◌, List, [], ◌∷◌, ◌++◌, ℕ, ◌≤◌, length, drop};
ghost use Rattle.rules.specs.Text.{most_number};
ghost use Rattle.rules.specs.Invariants.{Each};
ghost use Rattle.rules.specs.Deck.{nothing, verdict as verdict_of};
ghost use Rattle.rules.specs.Lister.{fields_text};
ghost use Rattle.deck.specs.Records.{verdict_number};
ghost use Rattle.session.specs.Session.{stored, deck_in, header_row, call_options, said_of, session_after};
ghost use Rattle.session.specs.Told.{told_said};

use crate::form;
use deck::limits;
use deck::row::{Line, Row};
use deck::state::State;
use ir::answer::Refused;
use ir::refusal::Refusal;

// A header's line: five fields and the line feed.
const HEADER: usize = 56;

// 4, of a header's line.
fn verdict(header: &[u8]) -> Result<(), Refusal>
    requires { length header.now ≡ 56 }
    ensures { (c i r n : ℕ) → Each (λ k. k ≤ most_number) (0 ∷ c ∷ i ∷ r ∷ n ∷ []) → header.now ≡ fields_text (0 ∷ c ∷ i ∷ r ∷ n ∷ []) → verdict_number result ≡ verdict_of nothing 0 (0 ∷ c ∷ i ∷ r ∷ n ∷ []) }
{
    let row = Row {
        deck: header,
        line: Line {
            begin: 0,
            fields: 5,
        },
    };
    if !limits::limits(&row, 0, State::default()) {
        return Err(Refusal::PastLimit);
    }
    Ok(())
}

// The live deck's first bytes become this line.
fn put_header(header: &[u8], session: &mut [u8])
    requires { (session.old ≡ stored (deck_in session.old)) × (length header.now ≤ length (deck_in session.old)) }
    ensures { session.new ≡ stored (header.now ++ drop (length header.now) (deck_in session.old)) }
{
    words::copy(&mut session[4..4 + header.len()], header);
}

pub fn put(options: u32, session: &mut [u8], scratch: &mut [u8]) -> Result<(), Refused>
    ensures reply { told_said result ≡ said_of (call_options session.old «options» (length scratch.old)) }
    ensures session { session.new ≡ session_after session.old (call_options session.old «options» (length scratch.old)) }
{
    let st = form::live(session, scratch).ok_or(Refused::from(Refusal::WrongSize))?;
    let numbers = [
        0,
        st.classes as u32,
        st.individuals as u32,
        st.roles as u32,
        options,
    ];
    let mut header = [0; HEADER];
    rows::put_line(&mut header, 0, &numbers);
    verdict(&header).map_err(|refusal| Refused { refusal, line: 1 })?;
    put_header(&header, session);
    Ok(())
}
