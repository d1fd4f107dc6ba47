// Clauses as they stand in the lent tables, and a clause in hand.
ghost use Rattle.std.specs.Prelude.{◌≡◌, true, List, ◌∷◌, ◌++◌, ℕ, ◌+◌, ◌*◌, ◌/◌, ◌<◌, ◌≤◌, length, drop};
ghost use Rattle.words.specs.Words.{words};
ghost use Rattle.ir.specs.Roles.{role_id};
ghost use Rattle.ir.specs.Scratch.{alternatives_at};
ghost use Rattle.ir.specs.declared.atom.Atom.{Atom};
ghost use Rattle.rules.specs.Base.{contains};
ghost use Rattle.rules.specs.Deck.{most_roles};
ghost use Rattle.rules.specs.State.{Clause};
ghost use Rattle.rules.specs.Run.{clause_words};
ghost use Rattle.rules.specs.Reflexive.{is_reflexive, same_clause, contains_clause};
ghost use Rattle.reflexive.specs.Flags.{FlagsHeld};
ghost use Rattle.tables.specs.Tabled.{Run, Tabled, TableThere, ClauseAt, ClauseThere};
ghost use Rattle.contraction.specs.InHands.{in_hand_bytes, ClauseInHand, PlainRun, HandThere};
ghost use Rattle.contraction.specs.SameLaws.{same_runs};
ghost use Rattle.contraction.specs.Sizes.{has_size};

use hands::HAND;
use ir::atom::Atom;
use ir::record;
use ir::role::Role;
use reflexive::ids::FLAGS;
use tables::read;

// The clause in hand: how many body atoms it has from HAND on, and how many head atoms behind them.
#[derive(Clone, Copy)]
pub struct Hand {
    pub body: u32,
    pub head: u32,
}

// Whether a role is reflexive.
pub fn is_flagged(scratch: &[u8], role: Role) -> bool
    requires { (role_id role < most_roles) × (4 * alternatives_at ≤ length scratch.now) }
    ensures { (set : List ℕ) → FlagsHeld (words scratch.now) set → result ≡ contains set (role_id role) }
{
    words::get_word(scratch, FLAGS + role.role_id() as usize) != 0
}

// Body atom i is a role atom over a reflexive role.
pub fn is_reflexive(scratch: &[u8], body: &[u8], i: u32) -> bool
    requires { PlainRun body.now × (24 * i < length body.now) × (4 * alternatives_at ≤ length scratch.now) }
    ensures { (set : List ℕ) (before after : List Atom) (x : Atom) → FlagsHeld (words scratch.now) set → Run body.now (before ++ (x ∷ after)) → i ≡ length before → result ≡ is_reflexive set x }
{
    let Some(a) = record::get_atom(body, i as usize) else {
        return false;
    };
    match a {
        Atom::Role(role, _, _) => is_flagged(scratch, role),
        _ => false,
    }
}

// n records of s from word i on are those of t from word j on: places, as same_words has them, which slices would be cut for in vain.
pub fn same_records(s: &[u8], i: usize, t: &[u8], j: usize, n: usize) -> bool
    requires { (4 * (i + 6 * n) ≤ length s.now) × (4 * (j + 6 * n) ≤ length t.now) }
    ensures { result ≡ same_runs (words s.now) i (words t.now) j (6 * n) }
{
    record::same_words(s, i, t, j, 6 * n)
}

// Clause i has as many body atoms and head atoms as the clause in hand.
fn has_size(clauses: &[u8], i: u32, hand: Hand) -> bool
    requires { 4 * (clause_words * i + clause_words) ≤ length clauses.now }
    ensures { result ≡ has_size (words clauses.now) hand.body hand.head i }
{
    read::body_count(clauses, i) == hand.body && read::head_count(clauses, i) == hand.head
}

// The clause in hand equals clause c, which has as many. Two tables, lent to be read: `Tables` lends them to be changed, and the deferrals too.
fn is_clause(scratch: &[u8], clauses: &[u8], atoms: &[u8], hand: Hand, c: u32) -> bool
    requires { HandThere (words scratch.now) hand.body hand.head × ClauseThere (words clauses.now) (words atoms.now) c × (has_size (words clauses.now) hand.body hand.head c ≡ true) × (in_hand_bytes ≤ length scratch.now) }
    ensures { (x y : Clause) → ClauseInHand (words scratch.now) hand.body hand.head x → ClauseAt (words clauses.now) (words atoms.now) c y → result ≡ same_clause x y }
{
    let run = read::atoms_of(clauses, atoms, c);
    same_records(
        scratch,
        6 * HAND,
        run,
        0,
        hand.body as usize + hand.head as usize,
    )
}

// It equals one of the clauses from `from` up to `to`; the last are looked at first, where a repeat is likely.
pub fn is_among(
    scratch: &[u8],
    clauses: &[u8],
    atoms: &[u8],
    hand: Hand,
    from: u32,
    to: u32,
) -> bool
    requires { HandThere (words scratch.now) hand.body hand.head × TableThere (words clauses.now) (words atoms.now) to × (from ≤ to) × (in_hand_bytes ≤ length scratch.now) }
    ensures { (l : List Clause) (x : Clause) → Tabled (words clauses.now) (words atoms.now) to l → ClauseInHand (words scratch.now) hand.body hand.head x → result ≡ contains_clause (drop from l) x }
{
    (from..to).rev().any(|c| has_size(clauses, c, hand)
        && is_clause(scratch, clauses, atoms, hand, c))
}
