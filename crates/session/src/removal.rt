// An axiom is struck by its line in the live deck.
ghost use Rattle.std.specs.Prelude.{◌∷◌, ◌≡◌, List, ◌++◌, ℕ, ◌+◌, ◌≤◌, ◌<◌, length, take, drop};
ghost use Rattle.rules.specs.Invariants.{Each};
ghost use Rattle.spelling.specs.Lines.{Line, IsRow, text_of};
ghost use Rattle.session.specs.Session.{session_bytes, stored, deck_in, without, call_strike, said_of, session_after};
ghost use Rattle.session.specs.Told.{told_said};

use crate::form;
use ir::answer::Refused;
use ir::refusal::Refusal;

// The place behind the line at `at`: a line feed stands behind whole fields alone.
fn behind(text: &[u8], at: usize) -> usize
    requires { (l : List Line) × (x : Line) × (m : List Line) × Each IsRow (l ++ (x ∷ m)) × (text.now ≡ text_of (l ++ (x ∷ m))) × (at ≡ length (text_of l)) }
    ensures { (l : List Line) (x : Line) (m : List Line) → Each IsRow (l ++ (x ∷ m)) → text.now ≡ text_of (l ++ (x ∷ m)) → at ≡ length (text_of l) → result ≡ at + length x.text }
{
    let mut end = at;
    while text[end] != b'\n' {
        end += 11;
    }
    end + 1
}

// Where line k begins, from 0.
fn place(text: &[u8], k: usize) -> usize
    requires { (l : List Line) × Each IsRow l × (text.now ≡ text_of l) × (k ≤ length l) }
    ensures { (l : List Line) → Each IsRow l → text.now ≡ text_of l → k ≤ length l → result ≡ length (text_of (take k l)) }
{
    let mut at = 0;
    for _ in 0..k {
        at = behind(text, at);
    }
    at
}

// The live deck's bytes from `from` to `to` are gone.
fn cut(session: &mut [u8], from: usize, to: usize)
    requires { (length session.old ≡ session_bytes) × (session.old ≡ stored (deck_in session.old)) × (from ≤ to) × (to ≤ length (deck_in session.old)) }
    ensures { session.new ≡ stored (take from (deck_in session.old) ++ drop to (deck_in session.old)) }
{
    let n = form::length(session);
    let end = n - (to - from);
    session.copy_within(4 + to..4 + n, 4 + from);
    session[4 + end..4 + n].fill(0);
    form::put_length(session, end);
}

// Line k of the live deck is gone, from 0.
fn remove_line(session: &mut [u8], k: usize)
    requires { (length session.old ≡ session_bytes) × (session.old ≡ stored (deck_in session.old)) × ((l : List Line) × Each IsRow l × (deck_in session.old ≡ text_of l) × (k < length l)) }
    ensures { session.new ≡ stored (without k (deck_in session.old)) }
{
    let from = place(form::deck(session), k);
    let to = behind(form::deck(session), from);
    cut(session, from, to);
}

pub fn take_out(line: u32, session: &mut [u8], scratch: &mut [u8]) -> Result<(), Refused>
    ensures reply { told_said result ≡ said_of (call_strike session.old «line» (length scratch.old)) }
    ensures session { session.new ≡ session_after session.old (call_strike session.old «line» (length scratch.old)) }
{
    let st = form::live(session, scratch).ok_or(Refused::from(Refusal::WrongSize))?;
    if line < form::axiom_line(st, 0) || form::axiom_line(st, st.axioms) <= line {
        return Err(Refused::from(Refusal::NotLive));
    }
    remove_line(session, line as usize - 1);
    Ok(())
}
