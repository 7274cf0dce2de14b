// The candidates of a drawing that passed 3 to 14, in rows with the words of their corners and sides, by way of its loops.
// Assumes its neighbour words and its edges' numbers.
ghost use Rattle.walk_input.specs.Rows.{RowsAt, RowsFound};

use candidates::candidates;
use loop_known::known_loops;
use loop_words::PAIRS;
use paper::{FACE_ROOM, LOOP_ROOM, MOST_CANDIDATES, MOST_LOOPS, MOST_VERTICES};

// How many loops there are, 129 for more than 128, and of no more than that how many candidates, 65 for more than 64.
#[derive(Clone, Copy)]
pub struct Counts {
    pub loops: usize,
    pub candidates: usize,
}

pub fn candidate_rows(
    xyz: &[i64],
    ends: &[u8],
    near: &[u64; MOST_VERTICES],
    number: &[u8; PAIRS],
    rows: &mut [u8; FACE_ROOM],
    corners: &mut [u64; MOST_CANDIDATES],
    sides: &mut [u64; MOST_CANDIDATES],
) -> Counts
    requires { RowsAt xyz.now ends.now near.now number.now rows.old corners.old sides.old }
    ensures { RowsFound xyz.now ends.now result rows.old rows.new
        corners.old corners.new sides.old sides.new }
{
    let mut table = [0u8; LOOP_ROOM];
    let mut planes = [0u64; MOST_LOOPS];
    let mut all_corners = [0u64; MOST_LOOPS];
    let mut all_sides = [0u64; MOST_LOOPS];
    let loops = known_loops(
        xyz,
        near,
        number,
        &mut table,
        &mut planes,
        &mut all_corners,
        &mut all_sides,
    );
    if MOST_LOOPS < loops {
        return Counts {
            loops: loops,
            candidates: 0,
        };
    }
    let n = candidates(
        xyz,
        ends,
        &table,
        loops,
        &all_corners,
        &all_sides,
        &planes,
        rows,
        corners,
        sides,
    );
    Counts {
        loops: loops,
        candidates: n,
    }
}
