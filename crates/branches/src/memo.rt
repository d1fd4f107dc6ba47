// Named branches: renumbered bodies, each with its name; an equal body has its name already.
// Clauses that repeat stay clauses: each function asks for the length that it reads; `NamedThere` and `TameThere` are about one moment of
// what is lent; a type with a number's bound would be made at each read and opened at each use; for `Atoms` its declaration says why. A
// run stays its first word and its count, as in the definitions.
ghost use Rattle.std.specs.Prelude.{◌≡◌, List, ℕ, ◌+◌, ◌*◌, ◌<◌, ◌≤◌, length, get_or};
ghost use Rattle.std.proofs.Math.Option.{none};
ghost use Rattle.words.specs.Words.{words};
ghost use Rattle.ir.specs.Records.{same_words};
ghost use Rattle.ir.specs.declared.atom.Atom.{Atom};
ghost use Rattle.rules.specs.Branches.{renumber, memo_of};
ghost use Rattle.rules.specs.Branches as Rules;
ghost use Rattle.branches.specs.Layout.{most_named, named_end, bound_at, renumbered_at, work_words};
ghost use Rattle.tables.specs.TabledLaws.{At};
ghost use Rattle.branches.specs.Wide.{AtomsAre};
ghost use Rattle.branches.specs.Memo.{TameThere, NamedHeld, NamedThere, NamedBy, OnlyMemo};
ghost use Rattle.branches.specs.Hash.{hash_of};
ghost use Rattle.branches.specs.Renumbered.{run};
ghost use Rattle.branches.specs.Found.{BodyHeld, Found};

use crate::atom::Atoms;
use crate::layout::{FILTER, MOST_NAMED, NAMED, RENUMBERED};
use crate::{filter, renumber};
use ir::record::same_words;
use ir::refusal::Refusal;

// How many branches are named, the words they take, and the first name.
#[derive(Clone, Copy)]
pub struct Naming {
    pub first: u32,
    pub named: u32,
    pub used: u32,
}

// The branch whose words begin at word p has the `count` renumbered words.
fn is_body(scratch: &[u8], p: usize, n: u32, count: u32) -> bool
    requires { (p + n < most_named) × (count ≤ 256) × (4 * work_words ≤ length scratch.now) }
    ensures { (l m : List ℕ) → n ≡ length l → count ≡ length m → At (words scratch.now) (p + 1) l → At (words scratch.now) renumbered_at m → result ≡ same_words l m }
{
    n == count && same_words(scratch, p + 1, scratch, RENUMBERED, count as usize)
}

// The place of the branch whose body is the `count` renumbered words. (A branch says how long it is, so no range gives the branches.)
fn scan(scratch: &[u8], s: Naming, count: u32) -> Option<u32>
    requires { NamedThere (words scratch.now) s × (count ≤ 256) × (4 * work_words ≤ length scratch.now) }
    ensures { (body : List Atom) (z : Rules.Naming) → BodyHeld renumbered_at (words scratch.now) count body → NamedHeld (words scratch.now) s z → Found s (memo_of z.named body) result }
{
    let mut p: usize = NAMED;
    for i in 0..s.named {
        let n = words::get_word(scratch, p);
        if is_body(scratch, p, n, count) {
            return Some(i);
        }
        p += 1 + n as usize;
    }
    None
}

// The same, the words' hash being h: no branch is equal where the filter's word is not set.
fn memo(scratch: &[u8], s: Naming, count: u32, h: usize) -> Option<u32>
    requires { NamedThere (words scratch.now) s × (count ≤ 256) × (4 * work_words ≤ length scratch.now) × (h ≡ hash_of (run (words scratch.now) renumbered_at count)) × (h < 32768) }
    ensures { (body : List Atom) (z : Rules.Naming) → BodyHeld renumbered_at (words scratch.now) count body → NamedHeld (words scratch.now) s z → Found s (memo_of z.named body) result }
{
    if words::get_word(scratch, FILTER + h) == 0 {
        return None;
    }
    scan(scratch, s, count)
}

// One branch more, and its name: of the `count` renumbered words, whose hash is h.
fn name_new(scratch: &mut [u8], s: Naming, count: u32, h: usize) -> Result<(Naming, u32), Refusal>
    requires { NamedThere (words scratch.old) s × (count ≤ 256) × (s.first + s.named < 2097151) × (4 * work_words ≤ length scratch.old) × (h ≡ hash_of (run (words scratch.old) renumbered_at count)) × (h < 32768) }
    ensures named_by { (body : List Atom) (z : Rules.Naming) → BodyHeld renumbered_at (words scratch.old) count body → NamedHeld (words scratch.old) s z → memo_of z.named body ≡ none → NamedBy (words scratch.new) body z result }
    ensures by_index { (j : ℕ) → named_end ≤ j → get_or (words scratch.new) j 0 ≡ get_or (words scratch.old) j 0 }
{
    if MOST_NAMED < s.used as usize + 1 + count as usize {
        return Err(Refusal::NoRoom);
    }
    let at = NAMED + s.used as usize;
    words::put_word(scratch, at, count);
    words::move_words(scratch, RENUMBERED, at + 1, count as usize);
    words::put_word(scratch, FILTER + h, 1);
    let more = Naming {
        first: s.first,
        named: s.named + 1,
        used: s.used + 1 + count,
    };
    Ok((more, s.first + s.named))
}

// The numbers then, and the name of the atoms, below the root.
pub fn name_of(
    scratch: &mut [u8],
    s: Naming,
    atoms: Atoms,
    root: u32,
) -> Result<(Naming, u32), Refusal>
    requires { TameThere (words scratch.old) atoms.base atoms.count × (atoms.count ≤ 256) × (named_end ≤ 6 * atoms.base) × (6 * (atoms.base + atoms.count) ≤ bound_at) × NamedThere (words scratch.old) s × (s.first + s.named < 2097151) × (4 * work_words ≤ length scratch.old) }
    ensures named_by { (l : List Atom) (z : Rules.Naming) → AtomsAre (words scratch.old) atoms.base atoms.count l → NamedHeld (words scratch.old) s z → NamedBy (words scratch.new) (renumber l root) z result }
    ensures only_memo { OnlyMemo (words scratch.old) (words scratch.new) }
{
    renumber::renumber(scratch, atoms, root);
    let h = filter::hash(scratch, atoms.count);
    match memo(scratch, s, atoms.count, h) {
        Some(i) => Ok((s, s.first + i)),
        None => name_new(scratch, s, atoms.count, h),
    }
}
