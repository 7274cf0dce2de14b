// Clash C: two corners of both rows, and the direction from one to the other inside both angles. Assumes rows in range, each with its
// normal.
#![tactic(auto)]

ghost use Rattle.std.specs.Prelude.{◌≡◌, ◌&&◌};
ghost use Rattle.paper.specs.Points.{same_point};
ghost use Rattle.paper.specs.Clash.{angle_holds, in_angle, points_in, is_corner, bends, folds};
ghost use Rattle.polygon.specs.Rings.{ring, of_rows, TwoFaces};
ghost use Rattle.clash_fold.specs.Asked.{AngleWithin, FoldWithin, RowAndPoint, FaceAndPoints, FacesAndPoint, FacesAndPoints};
ghost use Rattle.clash_fold.specs.Fold.{folds_at};

use paper::Point;
use polygon::points::{det, minus, same_point};
use polygon::rings::{corner, count, in_plane};

fn angle_holds(convex: bool, l: bool, r: bool) -> bool
    ensures { result ≡ angle_holds convex l r }
{
    convex & l & r | !convex & (l | r)
}

// At the corner p between a and b of a polygon with normal m: w points strictly inside the angle.
fn in_angle(m: Point, a: Point, p: Point, b: Point, w: Point) -> bool
    requires { AngleWithin m a p b w }
    ensures { result ≡ in_angle m a p b w }
{
    let x = minus(b, p);
    let y = minus(a, p);
    angle_holds(0 < det(m, x, y), 0 < det(m, x, w), 0 < det(m, w, y))
}

fn turns_at(m: Point, u: Point, w: Point, a: Point, p: Point, b: Point) -> bool
    requires { FoldWithin m u w a p b }
    ensures { result ≡ (same_point p u && in_angle m a p b w) }
{
    if same_point(p, u) {
        in_angle(m, a, p, b, w)
    } else {
        false
    }
}

// From u to v is strictly inside the angle at u of row r, whose normal is m.
fn points_in(xyz: &[i64], table: &[u8], r: usize, m: Point, u: Point, v: Point) -> bool
    requires { FaceAndPoints xyz.now table.now r m u v }
    ensures { result ≡ points_in (ring xyz.now table.now r) u v }
{
    let n = count(table, r);
    let w = minus(v, u);
    let mut a = corner(xyz, table, r, 0);
    let mut p = corner(xyz, table, r, 1);
    for j in 0..n {
        let b = corner(xyz, table, r, j + 2);
        if turns_at(m, u, w, a, p, b) {
            return true;
        }
        a = p;
        p = b;
    }
    false
}

fn is_corner(xyz: &[i64], table: &[u8], r: usize, p: Point) -> bool
    requires { RowAndPoint xyz.now table.now r p }
    ensures { result ≡ is_corner (ring xyz.now table.now r) p }
{
    let n = count(table, r);
    for j in 0..n {
        if same_point(p, corner(xyz, table, r, j)) {
            return true;
        }
    }
    false
}

// Of corners u and v of row f, of which u is one of row g too.
fn bends(
    xyz: &[i64],
    table: &[u8],
    f: usize,
    mf: Point,
    g: usize,
    mg: Point,
    u: Point,
    v: Point,
) -> bool
    requires { FacesAndPoints xyz.now table.now f mf g mg u v }
    ensures { result ≡ of_rows bends xyz.now table.now f g u v }
{
    if !is_corner(xyz, table, g, v) {
        return false;
    }
    if same_point(u, v) {
        return false;
    }
    if !points_in(xyz, table, f, mf, u, v) {
        return false;
    }
    points_in(xyz, table, g, mg, u, v)
}

// A corner u of row f is one of row g, and another of both is seen from it inside both angles.
fn folds_at(xyz: &[i64], table: &[u8], f: usize, mf: Point, g: usize, mg: Point, u: Point) -> bool
    requires { FacesAndPoint xyz.now table.now f mf g mg u }
    ensures { result ≡ of_rows folds_at xyz.now table.now f g u }
{
    if !is_corner(xyz, table, g, u) {
        return false;
    }
    let n = count(table, f);
    for j in 0..n {
        if bends(xyz, table, f, mf, g, mg, u, corner(xyz, table, f, j)) {
            return true;
        }
    }
    false
}

// Rows f and g, whose normals are mf and mg, clash by C.
pub fn folds(xyz: &[i64], table: &[u8], f: usize, mf: Point, g: usize, mg: Point) -> bool
    requires { TwoFaces xyz.now table.now f mf g mg }
    ensures { result ≡ of_rows folds xyz.now table.now f g }
{
    if in_plane(xyz, table, f, mf, g) {
        return false;
    }
    let n = count(table, f);
    for j in 0..n {
        if folds_at(xyz, table, f, mf, g, mg, corner(xyz, table, f, j)) {
            return true;
        }
    }
    false
}
