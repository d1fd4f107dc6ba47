// The key marks' classes become marks.
ghost use Rattle.std.specs.Prelude.{◌+◌, ◌*◌, ◌≤◌, ◌<◌, length};
ghost use Rattle.words.specs.Words.{words};
ghost use Rattle.ir.specs.Scratch.{keys_at, roles_at, stack_at};
ghost use Rattle.rules.specs.Deck.{most_classes};
ghost use Rattle.rules.specs.Invariants.{Each};
ghost use Rattle.deck.specs.Records.{keys_in};
ghost use Rattle.ontology.specs.Layout.{KeysHeld};
ghost use Rattle.ontology.specs.Lines.{Kept};

use deck::state::State;
use ir::scratch::{KEYS, ROLES};

pub fn load_keys(deck: &[u8], scratch: &mut [u8], st: State)
    requires { (4 * roles_at ≤ length scratch.old) × (st.marks + 23 * st.keys ≤ length deck.now) × Each (λ a. a < most_classes) (keys_in deck.now st.marks st.keys) }
    ensures keys_held { KeysHeld (words scratch.new) (keys_in deck.now st.marks st.keys) }
    ensures kept { Kept 0 keys_at (words scratch.old) (words scratch.new) }
    ensures kept_2 { Kept roles_at stack_at (words scratch.old) (words scratch.new) }
{
    words::clear_words(scratch, KEYS, ROLES - KEYS);
    let keys = st.keys;
    for i in 0..keys {
        let class = deck::key(deck, st, i);
        words::put_word(scratch, KEYS + class, 1);
    }
}
