// The candidates of a drawing: the loops that cover no other, in a table of their own and with the words of their corners and sides.
// Assumes the loops of a drawing that passed 3 to 14, with what is known of them.
#![tactic(auto)]

ghost use Rattle.std.specs.Prelude.{◌≡◌, ◌*◌};
ghost use Rattle.std.proofs.Math.Seq.{paste};
ghost use Rattle.paper.specs.Numbers.{row_bytes};
ghost use Rattle.paper.specs.Drawing.{wire};
ghost use Rattle.candidates.specs.Keeps.{row_in, CopiesRow, Keeps, Kept};

use loop_cover::covers_other;
use paper::{FACE_ROOM, MOST_CANDIDATES, MOST_LOOPS, ROW};

// Copies row k of the table to row c.
fn copy_row(table: &[u8], k: usize, rows: &mut [u8; FACE_ROOM], c: usize)
    requires { CopiesRow table.now k rows.old c }
    ensures { rows.new ≡ paste rows.old (row_bytes * c) (row_in table.now k) row_bytes }
{
    for i in 0..ROW {
        rows[ROW * c + i] = table[ROW * k + i];
    }
}

// Keeps the loops that cover no other, at most 64, and answers their number, 65 where there are more.
pub fn candidates(
    xyz: &[i64],
    ends: &[u8],
    table: &[u8],
    n: usize,
    corners: &[u64; MOST_LOOPS],
    sides: &[u64; MOST_LOOPS],
    planes: &[u64; MOST_LOOPS],
    rows: &mut [u8; FACE_ROOM],
    kept_corners: &mut [u64; MOST_CANDIDATES],
    kept_sides: &mut [u64; MOST_CANDIDATES],
) -> usize
    requires { Keeps xyz.now ends.now table.now n corners.now sides.now planes.now
        rows.old kept_corners.old kept_sides.old }
    ensures { Kept (wire xyz.now ends.now) result rows.old rows.new
        kept_corners.old kept_corners.new kept_sides.old kept_sides.new }
{
    let mut c = 0;
    for k in 0..n {
        if !covers_other(xyz, ends, table, n, corners, sides, planes, k) {
            if MOST_CANDIDATES <= c {
                return MOST_CANDIDATES + 1;
            }
            copy_row(table, k, rows, c);
            kept_corners[c] = corners[k];
            kept_sides[c] = sides[k];
            c += 1;
        }
    }
    c
}
