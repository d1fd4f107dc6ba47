// Numbers of the data, in base 128: the low digit first, and 128 added to every digit but the last. The data and a place in it stay two,
// and past the end stands 0: a reader that ends with the data would tell damaged data otherwise.
ghost use Rattle.std.specs.Prelude.{◌<◌};

// A number, and where it ends.
#[derive(Clone, Copy)]
pub struct Stored {
    pub value: u32,
    pub at: usize,
}

fn byte(data: &[u8], at: usize) -> u32
    ensures { result < 256 }
{
    u32::from(raw(data, at))
}

pub fn number(data: &[u8], at: usize) -> Stored {
    if 1000000000 < at {
        return Stored { value: 0, at };
    }
    let a = byte(data, at);
    if a < 128 {
        return Stored {
            value: a,
            at: at + 1,
        };
    }
    let b = byte(data, at + 1);
    if b < 128 {
        return Stored {
            value: a - 128 + 128 * b,
            at: at + 2,
        };
    }
    let c = byte(data, at + 2);
    if c < 128 {
        return Stored {
            value: a - 128 + 128 * (b - 128) + 16384 * c,
            at: at + 3,
        };
    }
    long(data, at, a - 128 + 128 * (b - 128) + 16384 * (c - 128))
}

// The digits behind the first three.
fn long(data: &[u8], at: usize, low: u32) -> Stored
    requires { (at < 1000000001) × (low < 2097152) }
{
    let d = byte(data, at + 3);
    if d < 128 {
        return Stored {
            value: low + 2097152 * d,
            at: at + 4,
        };
    }
    let e = byte(data, at + 4) % 16;
    Stored {
        value: low + 2097152 * (d - 128) + 268435456 * e,
        at: at + 5,
    }
}

// A byte as it stands; 0 past the end.
pub fn raw(data: &[u8], at: usize) -> u8 {
    data.get(at).copied().unwrap_or(0)
}
