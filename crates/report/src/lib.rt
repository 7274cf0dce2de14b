// What a conversion says of a finished walk, with the report in the two lent rooms. Assumes the rows of the candidates and the words
// that the walk stored.
#![tactic(auto)]

mod room;

ghost use Rattle.report.specs.Concluded.{Concluding, ReportedAs, Concluded};

use paper::{Conversion, FACE_ROOM, Number, SET_WORDS, SOLID_ROOM};
use room::write_report;
use walk::tally::Tally;

// The word of a solid's record that is its six volumes.
const SIX: usize = 2 * SET_WORDS;

// Of a walk that was not cut. The rooms are written only where there is a solid.
fn reported(
    loops: usize,
    n: usize,
    rows: &[u8; FACE_ROOM],
    t: Tally,
    out: &[u64; SOLID_ROOM],
    faces: &mut [u8],
    solids: &mut [u64],
) -> Conversion
    requires { Concluding n rows.now t out.now faces.old solids.old }
    ensures { ReportedAs loops n rows.now t out.now faces.old faces.new
        solids.old solids.new result }
{
    let work = t.work;
    let found = t.found;
    if found == 0 {
        return Conversion::NoSolid {
            loops: loops,
            candidates: n,
            work: work,
        };
    }
    write_report(rows, n, out, found, faces, solids);
    if found == 1 {
        let six = out[SIX];
        return Conversion::One {
            loops: loops,
            candidates: n,
            work: work,
            six: six,
        };
    }
    Conversion::Several {
        loops: loops,
        candidates: n,
        work: work,
        solids: found,
    }
}

// "17, 18, 19: NoSolid, Many (nine), TooLong", or a report, of n candidates. 18 and 19 go by how the walk ended.
pub fn concluded(
    loops: usize,
    n: usize,
    rows: &[u8; FACE_ROOM],
    t: Tally,
    out: &[u64; SOLID_ROOM],
    faces: &mut [u8],
    solids: &mut [u64],
) -> Conversion
    requires { Concluding n rows.now t out.now faces.old solids.old }
    ensures { Concluded loops n rows.now t out.now faces.old faces.new
        solids.old solids.new result }
{
    let ended = t.ended;
    if ended == Number::MANY.value {
        return Conversion::Many {
            loops,
            candidates: n,
            work: t.work,
        };
    }
    if ended == Number::TOO_LONG.value {
        return Conversion::TooLong {
            loops,
            candidates: n,
            work: t.work,
        };
    }
    reported(loops, n, rows, t, out, faces, solids)
}
