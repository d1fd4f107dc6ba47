// A session starts from any deck that passes the line checks.
ghost use Rattle.std.specs.Prelude.{◌≡◌, length};
ghost use Rattle.session.specs.Session.{call_start, said_of};
ghost use Rattle.session.specs.Told.{told_said};

use crate::form;
use ir::answer::Refused;
use ir::refusal::Refusal;

// Of a session's table that has so many bytes: the sizes, then the deck's lines.
pub fn check(deck: &[u8], session: usize, scratch: &mut [u8]) -> Result<(), Refused>
    ensures { told_said result ≡ said_of (call_start «session» deck.now (length scratch.old)) }
{
    if session != form::BYTES || scratch.len() < form::SCRATCH {
        return Err(Refused::from(Refusal::WrongSize));
    }
    deck::read(deck, scratch)?;
    Ok(())
}
