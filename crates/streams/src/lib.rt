// Bytes read from a stream into lent space.
#![tactic(auto)]

ghost use Rattle.std.specs.Prelude.{◌≡◌, ◌+◌, ◌<◌, ◌≤◌, length, replicate, take, drop, IfOk, OnErr, OnOk};
ghost use Rattle.std.specs.Io.{ReadsAtMost};
ghost use Rattle.std.specs.Io.KnownBytes.{Consumes, IsAtEnd, Keeps};

use std::io;
use std::io::{ErrorKind, Read};

// One read, begun again where a signal interrupts it.
fn read_some<R: Read>(reader: &mut R, space: &mut [u8]) -> io::Result<usize>
    ensures bound { ReadsAtMost result space.new }
    ensures bytes { IfOk result (λ n. Consumes (R.remaining reader.old) (R.remaining reader.new) (take n space.new)) }
    ensures end { IfOk result (λ n. n ≡ 0 → 0 < length space.new → IsAtEnd (R.remaining reader.new)) }
    ensures error { OnErr result (Keeps (R.remaining reader.old) (R.remaining reader.new)) }
{
    for _ in 0..u64::MAX {
        match reader.read(space) {
            Ok(n) => return Ok(n),
            Err(e) => {
                if e.kind() != ErrorKind::Interrupted {
                    return Err(e);
                }
            }
        }
    }
    reader.read(space)
}

// As read_some, from byte `at` on.
fn read_behind<R: Read>(reader: &mut R, space: &mut [u8], at: usize) -> io::Result<usize>
    requires { at < length space.old }
    ensures front { take at space.new ≡ take at space.old }
    ensures bound { IfOk result (λ n. at + n ≤ length space.new) }
    ensures bytes { IfOk result (λ n. Consumes (R.remaining reader.old) (R.remaining reader.new) (take n (drop at space.new))) }
    ensures end { IfOk result (λ n. n ≡ 0 → IsAtEnd (R.remaining reader.new)) }
    ensures error { OnErr result (Keeps (R.remaining reader.old) (R.remaining reader.new)) }
{
    read_some(reader, &mut space[at..])
}

// Reads until the space is full, the stream ends or a read fails: how many bytes came, and whether a read failed.
pub fn fill<R: Read>(reader: &mut R, space: &mut [u8]) -> (usize, io::Result<()>)
    ensures bound { result.0 ≤ length space.new }
    ensures bytes { Consumes (R.remaining reader.old) (R.remaining reader.new) (take result.0 space.new) }
    ensures end { OnOk result.1 (result.0 < length space.new → IsAtEnd (R.remaining reader.new)) }
{
    let mut done = 0;
    // each read tells how far it came
    while done < space.len() {
        match read_behind(reader, space, done) {
            Ok(0) => return (done, Ok(())),
            Ok(n) => done += n,
            Err(e) => return (done, Err(e)),
        }
    }
    (done, Ok(()))
}

// Space of zeros, to be lent.
pub fn zeros<const N: usize>() -> [u8; N]
    ensures length { N ≡ length result }
    ensures zeros { result ≡ replicate (length result) 0 }
{
    [0; N]
}
