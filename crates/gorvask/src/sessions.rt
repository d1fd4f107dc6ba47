// A session for callers in C and Rust.
ghost use Rattle.std.specs.Prelude.{◌≡◌, length, replicate};
ghost use Rattle.rules.specs.Deck.{Known, fine, read_deck};
ghost use Rattle.rules.specs.Run.{clause_table, atom_table, deferral_table, scratch_table};
ghost use Rattle.clausify.specs.Entry.{lent};
ghost use Rattle.session.specs.Session.{deck_in, call_start, call_add, call_strike, call_options, said_of, code_of_said, session_started, session_after};
ghost use Rattle.session.specs.Told.{told_said};
ghost use Rattle.session.specs.Trace.{Content, content, content_after, Holds};
ghost use Rattle.session.specs.Trace as Trace;
ghost use Rattle.gorvask.specs.Entry.{code_of, numbers_table, MeantNumbers};
ghost use Rattle.gorvask.specs.Sessions.{take_with_numbers};

use crate::reply;
use ir::answer::Refused;
use session::taking;

// No From, as in reply: 0 where done; a refusal's number × 2^32 + line.
fn code(said: Result<(), Refused>) -> u64
    ensures { result ≡ code_of_said (told_said said) }
{
    match said {
        Ok(()) => 0,
        Err(e) => reply::refused(e),
    }
}

// The session holds the deck.
#[unsafe(no_mangle)]
pub extern "C" fn gorvask_session_start(deck: &[u8], session: &mut [u8], scratch: &mut [u8]) -> u64
    ensures reply { result ≡ code_of_said (said_of (call_start (length session.old) deck.now (length scratch.old))) }
    ensures session { session.new ≡ session_started session.old (call_start (length session.old) deck.now (length scratch.old)) }
    ensures scratch { scratch.new ≡ replicate (length scratch.old) 0 }
    ensures begins { (d : Known) → read_deck deck.now ≡ fine d → result ≡ 0 → Holds session.new (content d) }
{
    code(session::start(deck, session, scratch))
}

// An axiom's line behind the live ones.
#[unsafe(no_mangle)]
pub extern "C" fn gorvask_session_add(line: &[u8], session: &mut [u8], scratch: &mut [u8]) -> u64
    ensures reply { result ≡ code_of_said (said_of (call_add session.old line.now (length scratch.old))) }
    ensures session { session.new ≡ session_after session.old (call_add session.old line.now (length scratch.old)) }
    ensures scratch { scratch.new ≡ replicate (length scratch.old) 0 }
    ensures goes_on { (b : Content) → Holds session.old b → Holds session.new (content_after (Trace.add line.now (length scratch.old)) session.old b) }
{
    code(session::add(line, session, scratch))
}

// The axiom on that line of the live deck is gone.
#[unsafe(no_mangle)]
pub extern "C" fn gorvask_session_strike(line: u32, session: &mut [u8], scratch: &mut [u8]) -> u64
    ensures reply { result ≡ code_of_said (said_of (call_strike session.old «line» (length scratch.old))) }
    ensures session { session.new ≡ session_after session.old (call_strike session.old «line» (length scratch.old)) }
    ensures scratch { scratch.new ≡ replicate (length scratch.old) 0 }
    ensures goes_on { (b : Content) → Holds session.old b → Holds session.new (content_after (Trace.strike «line» (length scratch.old)) session.old b) }
{
    code(session::strike(line, session, scratch))
}

// The live deck has these options.
#[unsafe(no_mangle)]
pub extern "C" fn gorvask_session_options(
    options: u32,
    session: &mut [u8],
    scratch: &mut [u8],
) -> u64
    ensures reply { result ≡ code_of_said (said_of (call_options session.old «options» (length scratch.old))) }
    ensures session { session.new ≡ session_after session.old (call_options session.old «options» (length scratch.old)) }
    ensures scratch { scratch.new ≡ replicate (length scratch.old) 0 }
    ensures goes_on { (b : Content) → Holds session.old b → Holds session.new (content_after (Trace.options «options» (length scratch.old)) session.old b) }
{
    code(session::options(options, session, scratch))
}

// The live deck's clauses, with the reply and the tables of gorvask_clausify_with_stats.
#[unsafe(no_mangle)]
pub extern "C" fn gorvask_session_take(
    session: &[u8],
    clauses: &mut [u8],
    atoms: &mut [u8],
    deferrals: &mut [u8],
    numbers: &mut [u8],
    scratch: &mut [u8],
) -> u64
    ensures reply { let t = lent clauses.old atoms.old deferrals.old scratch.old in
        let o = take_with_numbers (length numbers.old) session.now t in
        result ≡ code_of o }
    ensures clauses { let t = lent clauses.old atoms.old deferrals.old scratch.old in
        let o = take_with_numbers (length numbers.old) session.now t in
        clauses.new ≡ clause_table t o }
    ensures atoms { let t = lent clauses.old atoms.old deferrals.old scratch.old in
        let o = take_with_numbers (length numbers.old) session.now t in
        atoms.new ≡ atom_table t o }
    ensures deferrals { let t = lent clauses.old atoms.old deferrals.old scratch.old in
        let o = take_with_numbers (length numbers.old) session.now t in
        deferrals.new ≡ deferral_table t o }
    ensures numbers { let t = lent clauses.old atoms.old deferrals.old scratch.old in
        let o = take_with_numbers (length numbers.old) session.now t in
        numbers.new ≡ numbers_table (length numbers.old) o }
    ensures scratch { let t = lent clauses.old atoms.old deferrals.old scratch.old in
        scratch.new ≡ scratch_table t }
    ensures meaning { MeantNumbers (deck_in session.now) clauses.new atoms.new numbers.new result }
{
    let fit = numbers.len() == 40;
    let answer = taking::take_if(fit, session, clauses, atoms, deferrals, scratch);
    reply::put_numbers(numbers, answer);
    reply::code(answer)
}
