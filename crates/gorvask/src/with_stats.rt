// clausify_with_stats for callers in C and Rust.
ghost use Rattle.std.specs.Prelude.{◌≡◌, length};
ghost use Rattle.rules.specs.Run.{Run, clause_table, atom_table, deferral_table, scratch_table};
ghost use Rattle.clausify.specs.Entry.{lent};
ghost use Rattle.gorvask.specs.Entry.{code_of, run_with_numbers, numbers_table, MeantNumbers};

use crate::reply;
use clausify::fitted;

// The reply is one number; statistics, fresh ids and visits stand in a lent table of ten
// words. A table of numbers of any other size is refusal 1.
#[unsafe(no_mangle)]
pub extern "C" fn gorvask_clausify_with_stats(
    deck: &[u8],
    clauses: &mut [u8],
    atoms: &mut [u8],
    deferrals: &mut [u8],
    numbers: &mut [u8],
    scratch: &mut [u8],
) -> u64
    ensures reply { let t = lent clauses.old atoms.old deferrals.old scratch.old in
        let o = run_with_numbers (length numbers.old) deck.now t in
        result ≡ code_of o }
    ensures clauses { let t = lent clauses.old atoms.old deferrals.old scratch.old in
        let o = run_with_numbers (length numbers.old) deck.now t in
        clauses.new ≡ clause_table t o }
    ensures atoms { let t = lent clauses.old atoms.old deferrals.old scratch.old in
        let o = run_with_numbers (length numbers.old) deck.now t in
        atoms.new ≡ atom_table t o }
    ensures deferrals { let t = lent clauses.old atoms.old deferrals.old scratch.old in
        let o = run_with_numbers (length numbers.old) deck.now t in
        deferrals.new ≡ deferral_table t o }
    ensures numbers { let t = lent clauses.old atoms.old deferrals.old scratch.old in
        let o = run_with_numbers (length numbers.old) deck.now t in
        numbers.new ≡ numbers_table (length numbers.old) o }
    ensures scratch { let t = lent clauses.old atoms.old deferrals.old scratch.old in
        scratch.new ≡ scratch_table t }
    ensures meaning { MeantNumbers deck.now clauses.new atoms.new numbers.new result }
{
    let fit = numbers.len() == 40;
    let answer = fitted::answer_if(fit, deck, clauses, atoms, deferrals, scratch);
    reply::put_numbers(numbers, answer);
    reply::code(answer)
}
