// Refusals 25 and 27, face by face of the list: Pieces, not joined to face 0; Clash, clashes with another. Assumes at most 42 faces, each
// with a number below 64.
ghost use Rattle.std.specs.Prelude.{◌<◌, get_or};
ghost use Rattle.walk_leaf.specs.Faces.{FromFace};
ghost use Rattle.paper.specs.Numbers.{most_candidates};
ghost use Rattle.paper.specs.Refusals as No;
ghost use Rattle.verdict_tests.specs.Tests.{SomeFaces, ToldAt, Joining, Clashing, pieces_of, clash_of};

use lists::wide;
use paper::{MOST_CANDIDATES, MOST_EDGES, MOST_FACES, Number, Refusal};
use paper_values::refused;
use sets::Wide;
use walk_leaf::faces::{Going, from_face};

// The faces to which one can go from face 0.
fn from_first(
    on: &[u64; MOST_EDGES],
    up: &[u64; MOST_EDGES],
    sides: &[u64; MOST_CANDIDATES],
    numbers: &[u8; MOST_FACES],
    taken: Wide,
) -> Going
    requires { get_or numbers.now 0 0 < most_candidates }
    ensures { FromFace on.now up.now sides.now taken (get_or numbers.now 0 0) result }
{
    from_face(on, up, sides, taken, numbers[0] as usize)
}

pub fn pieces(
    on: &[u64; MOST_EDGES],
    up: &[u64; MOST_EDGES],
    sides: &[u64; MOST_CANDIDATES],
    numbers: &[u8; MOST_FACES],
    count: usize,
    taken: Wide,
) -> Result<(), Refusal>
    requires { SomeFaces numbers.now count }
    ensures { ToldAt (Joining on.now up.now sides.now numbers.now count taken)
        No.Pieces pieces_of result }
{
    let g = from_first(on, up, sides, numbers, taken);
    let reached = g.reached;
    for i in 0..count {
        if !reached.has(wide(numbers[i])) {
            return refused(Number::PIECES, i);
        }
    }
    Ok(())
}

pub fn clash(
    clashes: &[u64; MOST_CANDIDATES],
    numbers: &[u8; MOST_FACES],
    count: usize,
    taken: Wide,
) -> Result<(), Refusal>
    requires { SomeFaces numbers.now count }
    ensures { ToldAt (Clashing clashes.now numbers.now count taken) No.Clash clash_of result }
{
    for f in 0..count {
        let clashing = Wide::at(clashes, wide(numbers[f])).and(taken);
        if !clashing.is_empty() {
            return refused(Number::CLASH, f);
        }
    }
    Ok(())
}
