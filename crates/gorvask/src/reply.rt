// A reply for a caller in C: one number, and a table of ten words. No From for the number: the types are other crates', and the
// contracts' definitions have the functions' names.
ghost use Rattle.std.specs.Prelude.{◌≡◌, ◌+◌, ◌*◌, ◌^◌, length};
ghost use Rattle.words.specs.Words.{words};
ghost use Rattle.ir.specs.Refusals.{refusal_number};
ghost use Rattle.clausify.specs.Reply.{told_reply};
ghost use Rattle.gorvask.specs.Replies.{numbers_of, NumbersFit, TenWords, code_of_reply};

use clausify::numbers;
use clausify::numbers::Numbers;
use ir::answer::Refused;

// The ten numbers, or zeros on a refusal: a Result turned into a row that is lent.
pub fn put_numbers(numbers: &mut [u8], reply: Result<Numbers, Refused>)
    requires { NumbersFit (length numbers.old) (told_reply reply) }
    ensures numbers_after { numbers.new ≡ numbers_of (length numbers.old) (told_reply reply) }
    ensures ten_words { TenWords (words numbers.new) (told_reply reply) }
{
    match reply {
        Ok(n) => numbers::put_ten(numbers, n),
        Err(_) => words::clear(numbers),
    }
}

// A refusal's number × 2^32 + line.
pub fn refused(e: Refused) -> u64
    ensures { result ≡ refusal_number e.refusal * 2 ^ 32 + e.line }
{
    (e.refusal.number() as u64) * 4294967296 + e.line as u64
}

// The same, 0 where accepted.
pub fn code(reply: Result<Numbers, Refused>) -> u64
    ensures { result ≡ code_of_reply (told_reply reply) }
{
    match reply {
        Ok(_) => 0,
        Err(e) => refused(e),
    }
}
