// An answer as words: document 01's number, its place, and the values that come with it. Assumes nothing.
ghost use Rattle.std.specs.Prelude.{[], ◌∷◌};
ghost use Rattle.paper.specs.Refusals.{value_of};
ghost use Rattle.paper.specs.Reading.{fine, refused, written_says, conversion_says, verdict_says};
ghost use Rattle.export_words.specs.Words.{SaidIs, Telling, ToldBy};

use paper::{Conversion, Number, Refusal};
use rooms::copy;

// Number and place, and at most five values.
pub const MOST_SAID: usize = 7;

#[derive(Clone, Copy)]
pub struct Said {
    pub words: [u64; MOST_SAID],
    pub count: usize,
}

pub fn refusal_said(r: Refusal) -> Said
    ensures { SaidIs result (refused r) }
{
    Said {
        words: [u64::from(r.number), r.place as u64, 0, 0, 0, 0, 0],
        count: 2,
    }
}

pub fn written_said(w: Result<usize, Refusal>) -> Said
    ensures { SaidIs result (written_says w) }
{
    match w {
        Ok(n) => Said {
            words: [0, 0, n as u64, 0, 0, 0, 0],
            count: 3,
        },
        Err(r) => refusal_said(r),
    }
}

// Of 17 to 19: the work is the place.
fn ended_said(number: Number, loops: usize, candidates: usize, work: u64) -> Said
    ensures { SaidIs result (record { number = value_of number; place = work; values = loops ∷ candidates ∷ [] }) }
{
    Said {
        words: [
            u64::from(number),
            work,
            loops as u64,
            candidates as u64,
            0,
            0,
            0,
        ],
        count: 4,
    }
}

pub fn conversion_said(c: Conversion) -> Said
    ensures { SaidIs result (conversion_says c) }
{
    match c {
        Conversion::One {
            loops,
            candidates,
            work,
            six,
        } => Said {
            words: [0, 0, loops as u64, candidates as u64, work, 1, six],
            count: 7,
        },
        Conversion::Several {
            loops,
            candidates,
            work,
            solids,
        } => Said {
            words: [
                0,
                0,
                loops as u64,
                candidates as u64,
                work,
                solids as u64,
                0,
            ],
            count: 6,
        },
        Conversion::NoSolid {
            loops,
            candidates,
            work,
        } => ended_said(Number::NO_SOLID, loops, candidates, work),
        Conversion::Many {
            loops,
            candidates,
            work,
        } => ended_said(Number::MANY, loops, candidates, work),
        Conversion::TooLong {
            loops,
            candidates,
            work,
        } => ended_said(Number::TOO_LONG, loops, candidates, work),
        Conversion::Refused(r) => refusal_said(r),
    }
}

// An accepted list has no number in the table.
pub fn verdict_said(v: Result<(), Refusal>) -> Said
    ensures { SaidIs result (verdict_says v) }
{
    match v {
        Err(r) => refusal_said(r),
        Ok(()) => Said {
            words: [0, 0, 0, 0, 0, 0, 0],
            count: 2,
        },
    }
}

// The counts of a drawing that was read.
pub fn counts_said(vertices: usize, edges: usize) -> Said
    ensures { SaidIs result (fine (vertices ∷ edges ∷ [])) }
{
    Said {
        words: [0, 0, vertices as u64, edges as u64, 0, 0, 0],
        count: 4,
    }
}

// Writes what is said to the start of the lent words, as far as they reach, and returns the number.
pub fn tell(s: Said, room: &mut [u64]) -> u64
    requires { Telling s }
    ensures { ToldBy s result room.old room.new }
{
    let words = s.words;
    let count = s.count;
    let reach = room.len();
    if reach < count {
        copy(&words, reach, room);
        return words[0];
    }
    copy(&words, count, room);
    words[0]
}
