// The number of the candidate that a face is, from any start and in either direction. Assumes a row of 3 to 12 corners, and its way.
ghost use Rattle.std.specs.Prelude.{◌≡◌};
ghost use Rattle.paper.specs.FaceList.{row_at};
ghost use Rattle.paper.specs.Verdict.{normal_form, number_in};
ghost use Rattle.lists.specs.Lists.{same_list};
ghost use Rattle.verdict_faces.specs.Form.{rows_in, Compared, Sought};

use super::form::{Way, corner};
use paper::ROW;
use polygon::rings::count;

// Whether the normal form of face r is the loop of row k.
fn is_row(faces: &[u8], r: usize, way: Way, rows: &[u8], k: usize) -> bool
    requires { Compared faces.now r way rows.now k }
    ensures { result ≡ same_list (normal_form (row_at faces.now r)) (row_at rows.now k) }
{
    let n = count(faces, r);
    if count(rows, k) != n {
        return false;
    }
    let first = ROW * k + 1;
    for i in 0..n {
        if corner(faces, r, way, i) != rows[first + i] {
            return false;
        }
    }
    true
}

// The first of the n rows that is face r, and n where none is.
pub fn number_in(faces: &[u8], r: usize, way: Way, rows: &[u8], n: usize) -> usize
    requires { Sought faces.now r way rows.now n }
    ensures { result ≡ number_in (rows_in rows.now n) (row_at faces.now r) }
{
    for k in 0..n {
        if is_row(faces, r, way, rows, k) {
            return k;
        }
    }
    n
}
