// Bodies and heads in hand: atoms of scratch, one after the other; a clause is one run of them.
// They are told by their first record and their number, two numbers, as `Did` has them.
// Who never defers takes two tables and the counters: `Tables` asks that the deferrals fit too, and a struct of the two tables would leave the
// counters beside it, so that one parameter of three goes and each clause says one name more.
// `Fits` of an atom stays a clause: an enum holds no ghost field.
// Clauses that repeat stay clauses: each function asks for the length that it reads; `Good` is about one moment of what is lent; a type
// with a number's bound would be made at each read and opened at each use.
#![tactic(auto)]

ghost use Rattle.std.specs.Prelude.{◌≡◌, List, [], ◌∷◌, ◌++◌, ℕ, ◌+◌, ◌*◌, ◌≤◌, length};
ghost use Rattle.words.specs.Words.{words};
ghost use Rattle.ir.specs.Records.{Fits};
ghost use Rattle.rules.specs.State.{Env, Out, push};
ghost use Rattle.ir.specs.Answer.{done};
ghost use Rattle.tables.specs.Drawn.{tables, show, shown, after, Lent, Sized};
ghost use Rattle.tables.specs.Good.{Good, GoodAnswer, KeptAnswer};
ghost use Rattle.hands.specs.Hands.{InHand, four, Did};

use ir::atom::Atom;
use ir::counters::Counters;
use ir::refusal::Refusal;
use ir::scratch::HANDS;

// The first atom in hand: the record at word HANDS.
pub const HAND: usize = HANDS / 6;

// The clause of the n atoms from `base` on as its body, and of the m behind them as its head.
pub fn push_run(
    clauses: &mut [u8],
    atoms: &mut [u8],
    k: &mut Counters,
    scratch: &[u8],
    base: usize,
    n: u32,
    m: u32,
) -> Result<(), Refusal>
    requires { (n ≤ 256) × (m ≤ 256) × (24 * (base + n + m) ≤ length scratch.now) × Good k.old × Sized (length clauses.old) (length atoms.old) 0 }
    ensures d_after { (env : Env) (b h : List Atom) (s : Out) (d : List ℕ) → n ≡ length b → InHand (words scratch.now) base (n + m) (b ++ h) → Lent env.rooms (words clauses.old) (words atoms.old) d → tables k.old (words clauses.old) (words atoms.old) d ≡ show k.old env.rooms s → after (done k.new result) (words clauses.new) (words atoms.new) d ≡ shown (λ _. 0) k.old env.rooms (push env b h s) }
    ensures good_answer { GoodAnswer (done k.new result) }
    ensures kept_answer { KeptAnswer k.old (done k.new result) }
{
    let from = 24 * base;
    let seam = 24 * (base + n as usize);
    let to = 24 * (base + n as usize + m as usize);
    tables::push_clause(clauses, atoms, k, &scratch[from..seam], &scratch[seam..to])
}

// The body in hand, and no head.
pub fn push_none(
    clauses: &mut [u8],
    atoms: &mut [u8],
    k: &mut Counters,
    scratch: &[u8],
    base: usize,
    n: u32,
) -> Result<(), Refusal>
    requires { (n ≤ 256) × (24 * (base + n) ≤ length scratch.now) × Good k.old × Sized (length clauses.old) (length atoms.old) 0 }
    ensures { let old = four (words scratch.now) (words clauses.old) (words atoms.old) in
        let new = four (words scratch.now) (words clauses.new) (words atoms.new) in
        ((d : List ℕ) → Did (λ _. 0) 0 (λ env f b s. push env b [] s) k.old base n (old d) (new d) (done k.new result)) }
{
    push_run(clauses, atoms, k, scratch, base, n, 0)
}

// The body in hand, and one atom as the head.
pub fn push_one(
    clauses: &mut [u8],
    atoms: &mut [u8],
    k: &mut Counters,
    scratch: &[u8],
    base: usize,
    n: u32,
    head: Atom,
) -> Result<(), Refusal>
    requires { (n ≤ 256) × (24 * (base + n + 1) ≤ length scratch.now) × Good k.old × Fits head × Sized (length clauses.old) (length atoms.old) 0 }
    ensures { let old = four (words scratch.now) (words clauses.old) (words atoms.old) in
        let new = four (words scratch.now) (words clauses.new) (words atoms.new) in
        ((d : List ℕ) → Did (λ _. 0) 0 (λ env f b s. push env b (head ∷ []) s) k.old base n (old d) (new d) (done k.new result)) }
{
    let from = 24 * base;
    let to = 24 * (base + n as usize);
    tables::push_headed(&scratch[from..to], head, clauses, atoms, k)
}
