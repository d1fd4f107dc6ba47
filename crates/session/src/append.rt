// An axiom is added behind the live ones, checked as the deck's last line.
ghost use Rattle.std.specs.Prelude.{◌≡◌, List, ◌++◌, ℕ, ◌+◌, ◌≤◌, length};
ghost use Rattle.rules.specs.Deck.{most_bytes};
ghost use Rattle.deck.specs.Records.{known_in, verdict_number};
ghost use Rattle.session.specs.Session.{stored, deck_in, text_verdict, add_to, call_add, said_of, session_after};
ghost use Rattle.session.specs.Told.{told_said, Counts};

use crate::form;
use deck::kinds;
use deck::row::{Line, Row};
use deck::state::{Section, State};
use ir::answer::Refused;
use ir::refusal::Refusal;

// 2 to 5, of a text that is to be one axiom's line.
fn text_verdict(text: &[u8], st: State) -> Result<(), Refusal>
    ensures { (s t : List ℕ) → verdict_number result ≡ text_verdict (known_in s t st) text.now }
{
    if text.is_empty() {
        return Err(Refusal::BadLine);
    }
    let Some(fields) = text::fields(text, 0) else {
        return Err(Refusal::BadColumns);
    };
    let row = Row {
        deck: text,
        line: Line { begin: 0, fields },
    };
    if row.behind() < text.len() || kinds::section_of(row.entry(0)) != Some(Section::Axioms) {
        return Err(Refusal::BadLine);
    }
    deck::line_verdict(&row, st)
}

// All checks behind a live deck of n bytes.
fn check(text: &[u8], st: State, n: usize) -> Result<(), Refused>
    requires { (n ≤ most_bytes) × Counts st }
    ensures { (s t : List ℕ) → length s ≡ n → told_said result ≡ said_of (add_to s (known_in s t st) text.now) }
{
    if form::MOST - n < text.len() {
        return Err(Refused::from(Refusal::BadColumns));
    }
    let line = form::axiom_line(st, st.axioms);
    text_verdict(text, st).map_err(|refusal| Refused { refusal, line })
}

// The text behind the live deck's bytes.
fn put_behind(text: &[u8], session: &mut [u8])
    requires { (session.old ≡ stored (deck_in session.old)) × (length (deck_in session.old) + length text.now ≤ most_bytes) }
    ensures { session.new ≡ stored (deck_in session.old ++ text.now) }
{
    let n = form::length(session);
    let at = 4 + n;
    words::copy(&mut session[at..at + text.len()], text);
    form::put_length(session, n + text.len());
}

pub fn append(text: &[u8], session: &mut [u8], scratch: &mut [u8]) -> Result<(), Refused>
    ensures reply { told_said result ≡ said_of (call_add session.old text.now (length scratch.old)) }
    ensures session { session.new ≡ session_after session.old (call_add session.old text.now (length scratch.old)) }
{
    let st = form::live(session, scratch).ok_or(Refused::from(Refusal::WrongSize))?;
    check(text, st, form::length(session))?;
    put_behind(text, session);
    Ok(())
}
