// A clause contracted along a reflexive role atom, in hand.
ghost use Rattle.std.specs.Prelude.{◌≡◌, List, ◌∷◌, ◌++◌, ℕ, ◌+◌, ◌*◌, ◌<◌, ◌≤◌, length, take};
ghost use Rattle.std.proofs.lemmas.List.Edits.{sets};
ghost use Rattle.words.specs.Words.{words};
ghost use Rattle.ir.specs.Atoms.{substitute_atom, replaced};
ghost use Rattle.ir.specs.Records.{six};
ghost use Rattle.ir.specs.Scratch.{alternatives_at, hands_at};
ghost use Rattle.ir.specs.declared.role.Role.{Role};
ghost use Rattle.ir.specs.declared.atom.Atom.{Atom};
ghost use Rattle.ir.specs.declared.atom.Atom.TheVariants as Atoms;
ghost use Rattle.rules.specs.Run.{flat};
ghost use Rattle.rules.specs.State.{Clause};
ghost use Rattle.rules.specs.Reflexive.{contains_atom, is_self_loop, kept_var, dropped_var, contracted, is_trivial};
ghost use Rattle.reflexive.specs.Flags.{FlagsHeld};
ghost use Rattle.tables.specs.Tabled.{At, Run};
ghost use Rattle.contraction.specs.InHands.{hand_at, in_hand_bytes, ClauseInHand, AtomThere, PlainRun, HandThere};
ghost use Rattle.contraction.specs.Contracting.{Substituted};

use crate::clause;
use crate::clause::Hand;
use hands::HAND;
use ir::atom::Atom;
use ir::{atom, record};

// Atom i of the run with `keep` for the variable `drop`, as record `to` of scratch.
fn put_one(scratch: &mut [u8], run: &[u8], i: usize, to: usize, drop: u32, keep: u32)
    requires { AtomThere (words run.now) i × (24 * to + 24 ≤ length scratch.old) }
    ensures { (x : Atom) → At (words run.now) (6 * i) (six x) → words scratch.new ≡ sets (words scratch.old) (6 * to) (six (substitute_atom x (replaced drop keep))) }
{
    let Some(a) = record::get_atom(run, i) else {
        return;
    };
    record::put_atom(scratch, to, atom::substitute_atom(a, drop, keep));
}

// The atoms of the run, so changed, from record `to` of scratch on.
fn put_substituted(scratch: &mut [u8], run: &[u8], to: usize, drop: u32, keep: u32)
    requires { PlainRun run.now × (24 * to + length run.now ≤ length scratch.old) }
    ensures substituted { Substituted run.now to drop keep (words scratch.new) }
    ensures scratch_unchanged { take (6 * to) (words scratch.new) ≡ take (6 * to) (words scratch.old) }
{
    for i in 0..run.len() / 24 {
        put_one(scratch, run, i, to + i, drop, keep);
    }
}

// The variable that stays where R(src, tgt) is contracted, X if it is one of them, and the one that goes.
fn kept_var(src: u32, tgt: u32) -> u32
    ensures { result ≡ kept_var src tgt }
{
    if tgt == 0 { tgt } else { src }
}

fn dropped_var(src: u32, tgt: u32) -> u32
    ensures { result ≡ dropped_var src tgt }
{
    if tgt == 0 { src } else { tgt }
}

// The clause of this body and this head, without body atom i: X is kept, or else the role's source.
pub fn put_contracted(scratch: &mut [u8], body: &[u8], head: &[u8], i: u32)
    requires { PlainRun body.now × PlainRun head.now × (24 * i < length body.now) × (length body.now ≤ 24 * 256) × (length head.now ≤ 24 * 256) × (in_hand_bytes ≤ length scratch.old) }
    ensures clause_in_hand { (before after heads : List Atom) (r : Role) (src tgt : ℕ) → Run body.now (before ++ (Atoms.Role r src tgt ∷ after)) → Run head.now heads → i ≡ length before → ClauseInHand (words scratch.new) (length before + length after) (length heads) (contracted before after heads src tgt) }
    ensures scratch_unchanged { take hands_at (words scratch.new) ≡ take hands_at (words scratch.old) }
{
    let at = i as usize;
    let last = body.len() / 24 - 1;
    // two words decide: an atom read back would be matched for its kind once more
    let src = words::get_word(body, 6 * at + 4);
    let tgt = words::get_word(body, 6 * at + 5);
    let keep = kept_var(src, tgt);
    let drop = dropped_var(src, tgt);
    let from = 24 * at;
    let to = from + 24;
    put_substituted(scratch, &body[..from], HAND, drop, keep);
    put_substituted(scratch, &body[to..], HAND + at, drop, keep);
    put_substituted(scratch, head, HAND + last, drop, keep);
}

// Record i is one of the nb in hand.
fn in_body(scratch: &[u8], nb: u32, i: usize) -> bool
    requires { (24 * (hand_at + nb) ≤ length scratch.now) × (24 * (i + 1) ≤ length scratch.now) }
    ensures { (b : List Atom) (x : Atom) → nb ≡ length b → At (words scratch.now) (6 * hand_at) (flat b) → At (words scratch.now) (6 * i) (six x) → result ≡ contains_atom b x }
{
    (0..nb as usize).any(|j| clause::same_records(scratch, 6 * i, scratch, 6 * (HAND + j), 1))
}

// Record i is R(v, v) over a reflexive role.
fn is_self_loop(scratch: &[u8], i: usize) -> bool
    requires { AtomThere (words scratch.now) i × (4 * alternatives_at ≤ length scratch.now) }
    ensures { (set : List ℕ) (x : Atom) → FlagsHeld (words scratch.now) set → At (words scratch.now) (6 * i) (six x) → result ≡ is_self_loop set x }
{
    let Some(a) = record::get_atom(scratch, i) else {
        return false;
    };
    match a {
        Atom::Role(role, u, v) => u == v && clause::is_flagged(scratch, role),
        _ => false,
    }
}

// The clause in hand always holds: a head atom is in the body, or is a self-loop.
pub fn is_trivial(scratch: &[u8], hand: Hand) -> bool
    requires { HandThere (words scratch.now) hand.body hand.head × (in_hand_bytes ≤ length scratch.now) }
    ensures { (set : List ℕ) (x : Clause) → FlagsHeld (words scratch.now) set → ClauseInHand (words scratch.now) hand.body hand.head x → result ≡ is_trivial set x }
{
    let first = HAND + hand.body as usize;
    (first..first + hand.head as usize).any(|i| in_body(scratch, hand.body, i)
        || is_self_loop(scratch, i))
}
