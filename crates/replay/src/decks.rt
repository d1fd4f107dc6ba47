// The text of a deck.
ghost use Rattle.std.specs.Prelude.{◌≤◌, length};

use crate::data;

// How far the data is read, and where the text ends.
#[derive(Clone, Copy)]
pub struct Place {
    pub at: usize,
    pub end: usize,
}

// The cases' `end` is its twin: one of both in `rows` would need a contract there, longer than its body.
fn put_byte(out: &mut [u8], end: usize, b: u8) -> usize {
    if out.len() <= end {
        return end;
    }
    out[end] = b;
    end + 1
}

// The next number.
fn put_number(data: &[u8], out: &mut [u8], p: Place) -> Place {
    let x = data::number(data, p.at);
    Place {
        at: x.at,
        end: rows::put_field_if_room(out, p.end, x.value),
    }
}

// The next byte, as it stands.
fn put_raw(data: &[u8], out: &mut [u8], p: Place) -> Place {
    Place {
        at: p.at.saturating_add(1),
        end: put_byte(out, p.end, data::raw(data, p.at)),
    }
}

// n steps, as far as there is data.
fn each<F: Fn(&[u8], &mut [u8], Place) -> Place>(
    data: &[u8],
    n: u32,
    out: &mut [u8],
    from: Place,
    step: F,
) -> Place
    requires { F.IsAlwaysCallable step }
{
    let mut p = from;
    for _ in 0..n {
        if data.len() <= p.at {
            break;
        }
        p = step(data, out, p);
    }
    p
}

fn put_line(data: &[u8], out: &mut [u8], p: Place) -> Place {
    let x = data::number(data, p.at);
    let n = x.value / 2;
    let q = Place {
        at: x.at,
        end: p.end,
    };
    if x.value % 2 == 1 {
        return each(data, n, out, q, put_raw);
    }
    let r = each(data, n, out, q, put_number);
    Place {
        at: r.at,
        end: put_byte(out, r.end, b'\n'),
    }
}

// The deck whose lines begin at byte `at`, from byte 0 of `out` on; the text's end lies in `out`.
pub fn put_deck(data: &[u8], at: usize, out: &mut [u8]) -> Place
    ensures { result.end ≤ length out.new }
{
    let x = data::number(data, at);
    let from = Place { at: x.at, end: 0 };
    let p = each(data, x.value, out, from, put_line);
    Place {
        at: p.at,
        end: p.end.min(out.len()),
    }
}
