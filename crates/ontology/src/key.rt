// Data keys.
ghost use Rattle.std.specs.Prelude.{◌≡◌, ◌*◌, ◌≤◌, ◌<◌, length};
ghost use Rattle.words.specs.Words.{words};
ghost use Rattle.ir.specs.Scratch.{roles_at};
ghost use Rattle.rules.specs.Deck.{most_classes};
ghost use Rattle.ontology.specs.Layout.{is_key};

use ir::scratch::KEYS;

// Whether class a is a data key.
pub fn is_key(scratch: &[u8], a: u32) -> bool
    requires { (a < most_classes) × (4 * roles_at ≤ length scratch.now) }
    ensures { result ≡ is_key (words scratch.now) a }
{
    words::get_word(scratch, KEYS + a as usize) != 0
}
