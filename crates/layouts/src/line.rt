// One line: read once into scratch, from word LINE on, and checked there.
// Clauses that repeat stay clauses: each function asks for the length that it reads; a type with a number's bound would be made at each
// read and opened at each use.
ghost use Rattle.std.specs.Prelude.{◌≤◌, length};
ghost use Rattle.words.specs.Words.{words};
ghost use Rattle.rules.specs.Run.{scratch_bytes};
ghost use Rattle.sets.specs.Places.{line_at};
ghost use Rattle.sets.specs.Laid.{KeptTo};
ghost use Rattle.layouts.specs.Lines.{NumbersAs, FirstAs, NextAs};

use crate::check;
use crate::enter::At;
use crate::limits::Limits;
use crate::numbers::Numbers;
use sets::places;
use text::Line;

// How many elements, and the place behind the first line.
#[derive(Clone, Copy)]
pub struct First {
    pub size: u32,
    pub behind: usize,
}

// How many numbers, and the place behind the line.
#[derive(Clone, Copy)]
pub struct Next {
    pub count: usize,
    pub behind: usize,
}

// The line at p, in scratch; None where it breaks the layout or has more than 40,960 numbers.
fn read_numbers(text: &[u8], scratch: &mut [u8], p: usize) -> Option<Next>
    requires { scratch_bytes ≤ length scratch.old }
    ensures numbers_as { NumbersAs text.now p (words scratch.old) (words scratch.new) result }
    ensures kept_to { KeptTo line_at (words scratch.old) (words scratch.new) }
{
    let Line::Read(count, behind) = text::read_row(text, p, scratch, places::LINE) else {
        return None;
    };
    (count <= places::LINE_END - places::LINE).then_some(Next { count, behind })
}

// None where the line is bad.
pub fn first_line(text: &[u8], scratch: &mut [u8]) -> Option<First>
    requires { scratch_bytes ≤ length scratch.old }
    ensures first_as { FirstAs text.now result }
    ensures kept_to { KeptTo line_at (words scratch.old) (words scratch.new) }
{
    let Next { count, behind } = read_numbers(text, scratch, 0)?;
    let line = Numbers { scratch, count };
    if !check::count_ok(&line) {
        return None;
    }
    Some(First {
        size: line.number(1),
        behind,
    })
}

// The line at p; None where it is bad. One of more than 40,960 numbers is bad, whatever they are.
pub fn next_line(
    text: &[u8],
    scratch: &mut [u8],
    p: usize,
    m: Limits,
    at: At,
    size: u32,
) -> Option<Next>
    requires { (scratch_bytes ≤ length scratch.old) × (size ≤ 64) }
    ensures next_as { NextAs m at.kind at.id size text.now p (words scratch.old) (words scratch.new) result }
    ensures kept_to { KeptTo line_at (words scratch.old) (words scratch.new) }
{
    let next = read_numbers(text, scratch, p)?;
    let line = Numbers {
        scratch,
        count: next.count,
    };
    if !check::line_ok(&line, m, at, size) {
        return None;
    }
    Some(next)
}
