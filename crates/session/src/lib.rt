// A session that follows the drawing board: a deck in a lent table, to which axioms are added and from which they are struck, with
// clauses taken of it at any time. No entry asks anything of what it is lent. Each contract gives the reply, and every byte of every
// table at exit, as a function of what is lent alone; a taking's says what the clauses in these bytes mean.
#![tactic(auto)]

mod append;
mod begin;
mod form;
mod header;
mod removal;
pub mod taking;

ghost use Rattle.std.specs.Prelude.{◌≡◌, ◌+◌, length, replicate};
ghost use Rattle.rules.specs.Deck.{Known, fine, read_deck};
ghost use Rattle.rules.specs.Run.{clause_table, atom_table, deferral_table, scratch_table};
ghost use Rattle.clausify.specs.Reply.{told_reply};
ghost use Rattle.clausify.specs.Entry.{lent, reply_of, Meant};
ghost use Rattle.session.specs.Session.{deck_in, call_take, call_start, call_add, call_strike, call_options, said_of, Done, session_started, session_after};
ghost use Rattle.session.specs.Told.{told_said};
ghost use Rattle.session.specs.Trace.{Content, content, content_after, Holds};
ghost use Rattle.session.specs.Trace as Trace;

use clausify::numbers::Numbers;
use ir::answer::Refused;

// The session holds the deck, whatever it held before; zeros on a refusal.
pub fn start(deck: &[u8], session: &mut [u8], scratch: &mut [u8]) -> Result<(), Refused>
    ensures reply { told_said result ≡ said_of (call_start (length session.old) deck.now (length scratch.old)) }
    ensures session { session.new ≡ session_started session.old (call_start (length session.old) deck.now (length scratch.old)) }
    ensures scratch { scratch.new ≡ replicate (length scratch.old) 0 }
    ensures begins { (d : Known) → read_deck deck.now ≡ fine d → told_said result ≡ Done → Holds session.new (content d) }
{
    let said = begin::check(deck, session.len(), scratch);
    words::clear(scratch);
    match said {
        Ok(()) => form::store(deck, session),
        Err(_) => words::clear(session),
    }
    said
}

// The axiom of the line stands behind the live ones.
pub fn add(line: &[u8], session: &mut [u8], scratch: &mut [u8]) -> Result<(), Refused>
    ensures reply { told_said result ≡ said_of (call_add session.old line.now (length scratch.old)) }
    ensures session { session.new ≡ session_after session.old (call_add session.old line.now (length scratch.old)) }
    ensures scratch { scratch.new ≡ replicate (length scratch.old) 0 }
    ensures goes_on { (b : Content) → Holds session.old b → Holds session.new (content_after (Trace.add line.now (length scratch.old)) session.old b) }
{
    let said = append::append(line, session, scratch);
    words::clear(scratch);
    said
}

// The axiom on that line of the live deck is gone.
pub fn strike(line: u32, session: &mut [u8], scratch: &mut [u8]) -> Result<(), Refused>
    ensures reply { told_said result ≡ said_of (call_strike session.old «line» (length scratch.old)) }
    ensures session { session.new ≡ session_after session.old (call_strike session.old «line» (length scratch.old)) }
    ensures scratch { scratch.new ≡ replicate (length scratch.old) 0 }
    ensures goes_on { (b : Content) → Holds session.old b → Holds session.new (content_after (Trace.strike «line» (length scratch.old)) session.old b) }
{
    let said = removal::take_out(line, session, scratch);
    words::clear(scratch);
    said
}

// The live deck has these options.
pub fn options(options: u32, session: &mut [u8], scratch: &mut [u8]) -> Result<(), Refused>
    ensures reply { told_said result ≡ said_of (call_options session.old «options» (length scratch.old)) }
    ensures session { session.new ≡ session_after session.old (call_options session.old «options» (length scratch.old)) }
    ensures scratch { scratch.new ≡ replicate (length scratch.old) 0 }
    ensures goes_on { (b : Content) → Holds session.old b → Holds session.new (content_after (Trace.options «options» (length scratch.old)) session.old b) }
{
    let said = header::put(options, session, scratch);
    words::clear(scratch);
    said
}

// The clauses of the live deck, with statistics, as `clausify_with_stats` has them.
pub fn take(
    session: &[u8],
    clauses: &mut [u8],
    atoms: &mut [u8],
    deferrals: &mut [u8],
    scratch: &mut [u8],
) -> Result<Numbers, Refused>
    ensures reply { let t = lent clauses.old atoms.old deferrals.old scratch.old in
        let o = call_take session.now t in
        told_reply result ≡ reply_of o }
    ensures clauses { let t = lent clauses.old atoms.old deferrals.old scratch.old in
        let o = call_take session.now t in
        clauses.new ≡ clause_table t o }
    ensures atoms { let t = lent clauses.old atoms.old deferrals.old scratch.old in
        let o = call_take session.now t in
        atoms.new ≡ atom_table t o }
    ensures deferrals { let t = lent clauses.old atoms.old deferrals.old scratch.old in
        let o = call_take session.now t in
        deferrals.new ≡ deferral_table t o }
    ensures scratch { let t = lent clauses.old atoms.old deferrals.old scratch.old in
        scratch.new ≡ scratch_table t }
    ensures meaning { Meant (deck_in session.now) clauses.new atoms.new (told_reply result) }
{
    taking::take_if(true, session, clauses, atoms, deferrals, scratch)
}
