// A face of a table in its normal form, corner by corner: nothing is stored. Assumes a row of 3 to 12 corners.
ghost use Rattle.std.specs.Prelude.{◌≡◌, length, get_or};
ghost use Rattle.paper.specs.FaceList.{row_at};
ghost use Rattle.paper.specs.Verdict.{lowest_at, from_place, normal_form};
ghost use Rattle.verdict_faces.specs.Form.{FaceIn, TurnedCorner, WayOf, CornerOf};

use paper::ROW;
use polygon::rings::count;

// Where the normal form of a face starts, and whether the face is run as it is.
#[derive(Clone, Copy)]
pub struct Way {
    pub lowest: usize,
    pub onward: bool,
}

// The place of the lowest corner, the earliest of them.
fn lowest_at(table: &[u8], r: usize) -> usize
    requires { FaceIn table.now r }
    ensures { result ≡ lowest_at (row_at table.now r) (length (row_at table.now r)) }
{
    let n = count(table, r);
    let first = ROW * r + 1;
    let mut m = 0;
    for k in 0..n {
        if table[first + k] < table[first + m] {
            m = k;
        }
    }
    m
}

// Corner i, counted from place m on and past the last.
fn from_place(table: &[u8], r: usize, m: usize, i: usize) -> u8
    requires { TurnedCorner table.now r m i }
    ensures { result ≡ get_or (from_place (row_at table.now r) m) i 0 }
{
    let n = count(table, r);
    let j = m + i;
    if j < n {
        return table[ROW * r + 1 + j];
    }
    table[ROW * r + 1 + (j - n)]
}

pub fn way_of(table: &[u8], r: usize) -> Way
    requires { FaceIn table.now r }
    ensures { WayOf (row_at table.now r) result }
{
    let n = count(table, r);
    let m = lowest_at(table, r);
    let after = from_place(table, r, m, 1);
    let before = from_place(table, r, m, n - 1);
    Way {
        lowest: m,
        onward: after < before,
    }
}

// Corner i of the normal form.
pub fn corner(table: &[u8], r: usize, way: Way, i: usize) -> u8
    requires { CornerOf table.now r way i }
    ensures { result ≡ get_or (normal_form (row_at table.now r)) i 0 }
{
    if way.onward {
        return from_place(table, r, way.lowest, i);
    }
    if i == 0 {
        return from_place(table, r, way.lowest, 0);
    }
    let n = count(table, r);
    from_place(table, r, way.lowest, n - i)
}
