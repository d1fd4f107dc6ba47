// The limits that wait (option 4), in scratch: their count, then the filler and the name of each.
// Clauses that repeat stay clauses: each function asks for the length that it reads.
#![tactic(auto)]

ghost use Rattle.std.specs.Prelude.{◌≡◌, ◌+◌, ◌*◌, ◌<◌, ◌≤◌, length, get_or, set};
ghost use Rattle.words.specs.Words.{words};
ghost use Rattle.ir.specs.Scratch.{limits_at, limits_words};
ghost use Rattle.waiting.specs.Limits.{most_limits, limit_in, appended};

use ir::scratch::LIMITS;

// No run settles more: each takes a concept of the pool.
const MOST: u32 = 2048;

// None waits.
pub fn reset(scratch: &mut [u8])
    requires { 4 * (limits_at + limits_words) ≤ length scratch.old }
    ensures { words scratch.new ≡ set (words scratch.old) limits_at 0 }
{
    words::put_word(scratch, LIMITS, 0);
}

// How many stand here.
pub fn count(scratch: &[u8]) -> u32
    requires { 4 * (limits_at + limits_words) ≤ length scratch.now }
    ensures { result ≡ get_or (words scratch.now) limits_at 0 }
{
    words::get_word(scratch, LIMITS)
}

// Each column of a limit has its own function, by the name of the field.
pub fn filler(scratch: &[u8], i: u32) -> u32
    requires { (4 * (limits_at + limits_words) ≤ length scratch.now) × (i < most_limits) }
    ensures { result ≡ (limit_in (words scratch.now) i).filler }
{
    words::get_word(scratch, LIMITS + 1 + 2 * (i as usize))
}

pub fn name(scratch: &[u8], i: u32) -> u32
    requires { (4 * (limits_at + limits_words) ≤ length scratch.now) × (i < most_limits) }
    ensures { result ≡ (limit_in (words scratch.now) i).name }
{
    words::get_word(scratch, LIMITS + 2 + 2 * (i as usize))
}

// One more, behind the others, where there is room for it.
pub fn append(scratch: &mut [u8], filler: u32, name: u32)
    requires { 4 * (limits_at + limits_words) ≤ length scratch.old }
    ensures { words scratch.new ≡ appended (words scratch.old) filler name }
{
    let n = words::get_word(scratch, LIMITS);
    if n < MOST {
        let at = LIMITS + 1 + 2 * (n as usize);
        words::put_words(scratch, at, &[filler, name]);
        words::put_word(scratch, LIMITS, n + 1);
    }
}
