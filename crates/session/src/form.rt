// The session's table: the live deck's length as a word, its bytes, zeros to the end.
ghost use Rattle.std.specs.Prelude.{[], ◌∷◌, ◌++◌, drop, ◌≡◌, List, ℕ, ◌+◌, ◌*◌, ◌≤◌, ◌<◌, ◌&&◌, length, get_or, eqb};
ghost use Rattle.words.specs.Words.{words, bytes};
ghost use Rattle.rules.specs.Base.{all};
ghost use Rattle.rules.specs.Deck.{most_bytes, most_axioms, axiom_line};
ghost use Rattle.deck.specs.Records.{known_in};
ghost use Rattle.session.specs.Session.{session_bytes, stored, deck_in, is_stored};
ghost use Rattle.session.specs.Told.{LiveAs, Counts};

use deck::state::State;
use ir::answer::Refused;

// The table's one size.
pub const BYTES: usize = 65540;

// The least size of scratch, which is that of a run.
pub const SCRATCH: usize = 1572864;

// The longest deck.
pub const MOST: usize = 65536;

// The live deck's length, as the first word tells it.
pub fn length(session: &[u8]) -> usize
    ensures { result ≡ get_or (words session.now) 0 0 }
{
    words::word_or_zero(session, 0) as usize
}

// The live deck.
pub fn deck(session: &[u8]) -> &[u8]
    ensures { result.now ≡ deck_in session.now }
{
    let behind = &session[session.len().min(4)..];
    &behind[..length(session).min(behind.len())]
}

// Each byte is the one before it, and the first is zero: so many are compared at a time.
fn zeros(bytes: &[u8]) -> bool
    ensures { result ≡ all (λ b. eqb b 0) bytes.now }
{
    bytes.is_empty() || bytes[0] == 0 && bytes[1..] == bytes[..bytes.len() - 1]
}

// Every byte is as a deck leaves it.
pub fn is_stored(session: &[u8]) -> bool
    ensures { result ≡ is_stored session.now }
{
    session.len() == BYTES && length(session) <= MOST && zeros(&session[4 + length(session)..])
}

// What the reader tells of the deck that the session holds, its records in scratch; nothing where it holds none.
pub fn live(session: &[u8], scratch: &mut [u8]) -> Option<State>
    ensures { LiveAs session.now scratch.new (length scratch.old) result }
{
    if scratch.len() < SCRATCH || !is_stored(session) {
        return None;
    }
    deck::read(deck(session), scratch).ok()
}

// The line of the live deck's axiom i.
pub fn axiom_line(st: State, i: usize) -> u32
    requires { Counts st × (i ≤ most_axioms) }
    ensures { (s t : List ℕ) → result ≡ axiom_line (known_in s t st) i }
{
    (2 + st.keys + st.concepts + i) as u32
}

// The live deck's length becomes n.
pub fn put_length(session: &mut [u8], n: usize)
    requires { (length session.old ≡ session_bytes) × (n ≤ most_bytes) }
    ensures { session.new ≡ bytes (n ∷ []) ++ drop 4 session.old }
{
    words::put_word(session, 0, n as u32);
}

// The table holds this deck alone.
pub fn store(deck: &[u8], session: &mut [u8])
    requires { (length session.old ≡ session_bytes) × (length deck.now ≤ most_bytes) }
    ensures { session.new ≡ stored deck.now }
{
    words::clear(session);
    put_length(session, deck.len());
    words::copy(&mut session[4..4 + deck.len()], deck);
}
