// The loops of a drawing with what is known of each: its row, and the words of its corners, of its sides and of its plane's vertices.
// Assumes a drawing that passed 3 to 14, by its points, its neighbour words and its edges' numbers.
#![tactic(auto)]

ghost use Rattle.std.specs.Prelude.{List, ℕ};
ghost use Rattle.loop_known.specs.Known.{LoopsAt, DrawnBy, LoopsKnown};

use loop_search::search;
use loop_words::{PAIRS, loop_words};
use paper::{LOOP_ROOM, MOST_LOOPS, MOST_VERTICES};

// How many loops there are, 129 for more than 128; where there are no more than that, the rooms hold them and their words.
pub fn known_loops(
    xyz: &[i64],
    near: &[u64; MOST_VERTICES],
    number: &[u8; PAIRS],
    table: &mut [u8; LOOP_ROOM],
    planes: &mut [u64; MOST_LOOPS],
    corners: &mut [u64; MOST_LOOPS],
    sides: &mut [u64; MOST_LOOPS],
) -> usize
    requires { LoopsAt xyz.now near.now number.now table.old planes.old corners.old sides.old }
    ensures { (ends : List ℕ) → DrawnBy xyz.now ends near.now number.now
        → LoopsKnown xyz.now ends result table.new planes.new corners.new sides.new }
{
    let n = search(xyz, xyz.len() / 3, near, table, planes);
    if MOST_LOOPS < n {
        return n;
    }
    loop_words(table, n, number, corners, sides);
    n
}
