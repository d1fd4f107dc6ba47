// add_counted_self_loops: R(v, v) where an at-most atom over a reflexive R counts it.
// What never defers has two of the tables and the counters: with all of them it would say again what it leaves alone.
// The bound of a number that is read from a word stays a clause: a type with it would be made at each read, to be taken apart again.
// Clauses that repeat stay clauses: each function asks for the length that it reads; `Good` is about one moment of what is lent.
ghost use Rattle.std.specs.Prelude.{◌≡◌, List, [], ◌∷◌, ◌++◌, ℕ, ◌+◌, ◌*◌, ◌<◌, ◌≤◌, ◌^◌, length, take};
ghost use Rattle.words.specs.Words.{words};
ghost use Rattle.ir.specs.Roles.{role_id};
ghost use Rattle.ir.specs.declared.atom.Atom.{Atom};
ghost use Rattle.ir.specs.declared.atom.Atom.TheVariants.{Role as RoleAtom};
ghost use Rattle.rules.specs.Deck.{most_roles};
ghost use Rattle.rules.specs.Reflexive.{max_var, atoms_vars, add_counted_self_loops};
ghost use Rattle.tables.specs.Drawn.{Sized};
ghost use Rattle.tables.specs.Good.{Good};
ghost use Rattle.hands.specs.Hands.{InHand, four};
ghost use Rattle.tables.specs.Tabled.{head_count, Run, RunThere};
ghost use Rattle.contraction.specs.InHands.{in_hand_bytes, hand_at};
ghost use Rattle.contraction.specs.Passes.{Standing, StandingBelowAfter, Drawn, Passed};
ghost use Rattle.counted.specs.SelfLoops.{loop_at, loops_at, Looping, LoopedAfter};
ghost use Rattle.counted.specs.VarLaws.{VarsThere};
ghost use Rattle.ir.specs.Answer.{done};

use contraction::clause;
use contraction::clause::Hand;
use hands::HAND;
use ir::atom::Atom;
use ir::counters::Counters;
use ir::record;
use ir::refusal::Refusal;
use ir::role::Role;
use tables::read;

// One more than the greatest variable of the run's atoms.
fn next_var_of(run: &[u8]) -> u32
    requires { VarsThere run.now }
    ensures { (l : List Atom) → Run run.now l → result ≡ max_var 0 (atoms_vars l) + 1 }
{
    // two words of each, whatever its kind
    let greatest = (0..run.len() / 24).fold(0, |g: u32, i| {
        g.max(words::get_word(run, 6 * i + 4))
            .max(words::get_word(run, 6 * i + 5))
    });
    greatest + 1
}

// The body, R(v, fresh) behind it, and R(v, v).
fn put_loop(scratch: &mut [u8], body: &[u8], role: Role, v: u32, fresh: u32)
    requires { RunThere body.now × (length body.now < 24 * 256) × (role_id role < most_roles) × (in_hand_bytes ≤ length scratch.old) }
    ensures in_hand { (b : List Atom) → Run body.now b → InHand (words scratch.new) hand_at (length b + 1 + 1) ((b ++ (RoleAtom role v fresh ∷ [])) ++ (RoleAtom role v v ∷ [])) }
    ensures scratch_unchanged { take (6 * hand_at) (words scratch.new) ≡ take (6 * hand_at) (words scratch.old) }
{
    let nb = body.len() / 24;
    words::copy_words(scratch, 6 * HAND, body);
    record::put_atom(scratch, HAND + nb, Atom::Role(role, v, fresh));
    record::put_atom(scratch, HAND + nb + 1, Atom::Role(role, v, v));
}

// Head atom j of clause c; the loops so far are the clauses from `from` on.
fn loop_of(
    clauses: &mut [u8],
    atoms: &mut [u8],
    k: &mut Counters,
    scratch: &mut [u8],
    c: u32,
    j: u32,
    from: u32,
) -> Result<(), Refusal>
    requires { Looping k.old (words clauses.old) (words atoms.old) from × (c < from) × (j < head_count (words clauses.old) c) × Good k.old × (in_hand_bytes ≤ length scratch.old) × Sized (length clauses.old) (length atoms.old) 0 }
    ensures fact { let old = four (words scratch.old) (words clauses.old) (words atoms.old) in
        let new = four (words scratch.new) (words clauses.new) (words atoms.new) in
        ((d : List ℕ) → Passed (loop_at from c j) k.old (old d) (new d) (done k.new result)) }
    ensures looped_after { LoopedAfter from (words clauses.old) (words clauses.new) (words atoms.new) (done k.new result) }
{
    let Some(a) = record::get_atom(read::head_of(clauses, atoms, c), j as usize) else {
        return Ok(());
    };
    let Atom::AtMost(role, _, _, v) = a else {
        return Ok(());
    };
    if !clause::is_flagged(scratch, role) {
        return Ok(());
    }
    let nb = read::body_count(clauses, c);
    if 256 <= nb {
        return Err(Refusal::NoRoom);
    }
    let fresh = next_var_of(read::atoms_of(clauses, atoms, c));
    put_loop(scratch, read::body_of(clauses, atoms, c), role, v, fresh);
    let hand = Hand {
        body: nb + 1,
        head: 1,
    };
    let end = k.clauses;
    if clause::is_among(scratch, clauses, atoms, hand, from, end) {
        return Ok(());
    }
    hands::push_run(clauses, atoms, k, scratch, HAND, hand.body, hand.head)
}

// The head atoms of clause c.
fn loops_of_head(
    clauses: &mut [u8],
    atoms: &mut [u8],
    k: &mut Counters,
    scratch: &mut [u8],
    c: u32,
    from: u32,
) -> Result<(), Refusal>
    requires { Looping k.old (words clauses.old) (words atoms.old) from × (c < from) × Good k.old × (in_hand_bytes ≤ length scratch.old) × Sized (length clauses.old) (length atoms.old) 0 }
    ensures fact { let old = four (words scratch.old) (words clauses.old) (words atoms.old) in
        let new = four (words scratch.new) (words clauses.new) (words atoms.new) in
        ((d : List ℕ) → Passed (loops_at from c) k.old (old d) (new d) (done k.new result)) }
    ensures looped_after { LoopedAfter from (words clauses.old) (words clauses.new) (words atoms.new) (done k.new result) }
{
    for j in 0..read::head_count(clauses, c) {
        loop_of(clauses, atoms, k, scratch, c, j, from)?;
    }
    Ok(())
}

pub fn add_counted_self_loops(
    clauses: &mut [u8],
    atoms: &mut [u8],
    k: &mut Counters,
    scratch: &mut [u8],
) -> Result<(), Refusal>
    requires { Standing k.old (words clauses.old) (words atoms.old) × ((d : List ℕ) × Drawn k.old (words clauses.old) (words atoms.old) d) × Good k.old × (338400 ≤ length scratch.old) × Sized (length clauses.old) (length atoms.old) 0 }
    ensures fact { let old = four (words scratch.old) (words clauses.old) (words atoms.old) in
        let new = four (words scratch.new) (words clauses.new) (words atoms.new) in
        ((d : List ℕ) → Passed (λ env set. add_counted_self_loops env set) k.old (old d) (new d) (done k.new result)) }
    ensures standing_below_after { StandingBelowAfter (2 ^ 31 + 1) (words clauses.new) (words atoms.new) (done k.new result) }
{
    let from = k.clauses;
    for c in 0..from {
        loops_of_head(clauses, atoms, k, scratch, c, from)?;
    }
    Ok(())
}
