// A search among words of scratch. (The words stand in lent bytes, so no slice of numbers gives them.)
ghost use Rattle.std.specs.Prelude.{◌+◌, ◌*◌, ◌≤◌, length};
ghost use Rattle.words.specs.Words.{words};
ghost use Rattle.branches.specs.Places.{PlaceIs};
ghost use Rattle.branches.specs.Renumbered.{run};

// The place of v among the n words from word `at` on.
pub fn place(scratch: &[u8], at: usize, n: usize, v: u32) -> Option<usize>
    requires { 4 * (at + n) ≤ length scratch.now }
    ensures { PlaceIs (run (words scratch.now) at n) v result }
{
    (0..n).position(|i| words::get_word(scratch, at + i) == v)
}
