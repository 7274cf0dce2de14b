// The rows of a loop table as polygons: corners, normal and plane. Assumes a row whose vertices the coordinates have.
ghost use Rattle.std.specs.Prelude.{◌≡◌, ◌+◌, ◌*◌, ◌<◌, ◌≤◌, length};
ghost use Rattle.lists.specs.Around.{wrap};
ghost use Rattle.paper.specs.Numbers.{row_bytes};
ghost use Rattle.paper.specs.Points.{dot, minus};
ghost use Rattle.paper.specs.Polygon.{normal, one_plane};
ghost use Rattle.polygon.specs.Sizes.{PlaneWithin};
ghost use Rattle.polygon.specs.Rings.{point_of, corner_count, ring, of_rows, corner_of, Row, CornerIn, FaceAndRow};

use super::points::{cross, dot, is_zero, minus, plus};
use lists::wide;
use paper::{Point, ROW};

pub fn point_at(xyz: &[i64], v: usize) -> Point
    requires { 3 * v + 2 < length xyz.now }
    ensures { result ≡ point_of xyz.now v }
{
    let i = 3 * v;
    Point {
        x: xyz[i],
        y: xyz[i + 1],
        z: xyz[i + 2],
    }
}

// The corner count of row r.
pub fn count(table: &[u8], r: usize) -> usize
    requires { row_bytes * r + row_bytes ≤ length table.now }
    ensures { result ≡ corner_count table.now r }
{
    wide(table[ROW * r])
}

fn round(n: usize, j: usize) -> usize
    requires { j < 2 * n }
    ensures { (result ≡ wrap n j) × (result < n) }
{
    if j < n { j } else { j - n }
}

// Corner j of row r, counted on past the last.
pub fn corner(xyz: &[i64], table: &[u8], r: usize, j: usize) -> Point
    requires { CornerIn xyz.now table.now r j }
    ensures { result ≡ corner_of (ring xyz.now table.now r) j }
{
    let k = round(count(table, r), j);
    point_at(xyz, wide(table[ROW * r + 1 + k]))
}

// The sum of the cross products of successive corners.
pub fn normal(xyz: &[i64], table: &[u8], r: usize) -> Point
    requires { Row xyz.now table.now r }
    ensures { result ≡ normal (ring xyz.now table.now r) }
{
    let n = count(table, r);
    let mut sum = Point { x: 0, y: 0, z: 0 };
    let mut a = corner(xyz, table, r, 0);
    for j in 0..n {
        let b = corner(xyz, table, r, j + 1);
        sum = plus(sum, cross(a, b));
        a = b;
    }
    sum
}

// On which side of the plane through o with normal m the point p lies.
pub fn plane_side(m: Point, o: Point, p: Point) -> i64
    requires { PlaneWithin m o p }
    ensures { result ≡ dot m (minus p o) }
{
    dot(m, minus(p, o))
}

// All corners of row h are in the plane of row g, whose normal is m.
pub fn in_plane(xyz: &[i64], table: &[u8], g: usize, m: Point, h: usize) -> bool
    requires { FaceAndRow xyz.now table.now g m h }
    ensures { result ≡ of_rows one_plane xyz.now table.now g h }
{
    let n = count(table, h);
    let o = corner(xyz, table, g, 0);
    for j in 0..n {
        let s = plane_side(m, o, corner(xyz, table, h, j));
        if !is_zero(s) {
            return false;
        }
    }
    true
}
