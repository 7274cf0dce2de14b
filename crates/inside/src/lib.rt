// Where a point of a polygon's plane lies: outside, on the border or inside. The point is p / d. Assumes that it is in the plane and
// no larger than a piercing point.
#![tactic(auto)]

ghost use Rattle.std.specs.Prelude.{◌≡◌, false, ◌&&◌};
ghost use Rattle.paper.specs.Points.{is_zero};
ghost use Rattle.paper.specs.Polygon.{axis, seen, turn, spans, between, under, meets_ray, placed, lies, over, is_inside};
ghost use Rattle.polygon.specs.Rings.{ring};
ghost use Rattle.inside.specs.Asked.{EndWithin, SideWithin, TurnWithin, FaceAndPoint};

use paper::{Axis, Flat, Point, Where};
use polygon::points::is_zero;
use polygon::rings::{corner, count};

// The first axis along which a plane with normal m is seen without loss.
fn axis_of(m: Point) -> Axis
    ensures { result ≡ axis m }
{
    if is_zero(m.x) {
        if is_zero(m.y) {
            Axis::AlongZ
        } else {
            Axis::AlongY
        }
    } else {
        Axis::AlongX
    }
}

fn seen(v: Axis, p: Point) -> Flat
    ensures { result ≡ seen v p }
{
    match v {
        Axis::AlongX => Flat { u: p.y, v: p.z },
        Axis::AlongY => Flat { u: p.x, v: p.z },
        Axis::AlongZ => Flat { u: p.x, v: p.y },
    }
}

// Twice the area of the triangle a, b, p / d, times d.
fn turn(a: Flat, b: Flat, p: Flat, d: i64) -> i64
    requires { TurnWithin a b p d }
    ensures { result ≡ turn a b p d }
{
    (b.u - a.u) * (p.v - d * a.v) - (b.v - a.v) * (p.u - d * a.u)
}

fn spans(a: i64, b: i64, p: i64) -> bool
    ensures { result ≡ spans a b p }
{
    (a <= p) & (p <= b) | (b <= p) & (p <= a)
}

fn between(a: Flat, b: Flat, p: Flat, d: i64) -> bool
    requires { SideWithin a b d }
    ensures { result ≡ between a b p d }
{
    spans(d * a.u, d * b.u, p.u) & spans(d * a.v, d * b.v, p.v)
}

// p / d is on the side from a to b, of which t is the turn: the box is asked only on the side's line.
fn touches(a: Flat, b: Flat, p: Flat, d: i64, t: i64) -> bool
    requires { SideWithin a b d }
    ensures { result ≡ (is_zero t && between a b p d) }
{
    if is_zero(t) {
        between(a, b, p, d)
    } else {
        false
    }
}

fn under(p: Flat, d: i64, a: Flat) -> bool
    requires { EndWithin a d }
    ensures { result ≡ under p d a }
{
    d * a.v <= p.v
}

fn meets_ray(low: bool, high: bool, t: i64) -> bool
    ensures { result ≡ meets_ray low high t }
{
    low & !high & (0 < t) | !low & high & (t < 0)
}

fn placed(odd: bool) -> Where
    ensures { result ≡ placed false odd }
{
    if odd { Where::Inside } else { Where::Outside }
}

// Where p / d lies in row r, whose normal is m.
pub fn lies(xyz: &[i64], table: &[u8], r: usize, m: Point, p: Point, d: i64) -> Where
    requires { FaceAndPoint xyz.now table.now r m p d }
    ensures { result ≡ lies (over p d) (ring xyz.now table.now r) }
{
    let n = count(table, r);
    let v = axis_of(m);
    let q = seen(v, p);
    let mut odd = false;
    let mut a = seen(v, corner(xyz, table, r, 0));
    for j in 0..n {
        let b = seen(v, corner(xyz, table, r, j + 1));
        let t = turn(a, b, q, d);
        if touches(a, b, q, d, t) {
            return Where::Border;
        }
        odd = odd ^ meets_ray(under(q, d, a), under(q, d, b), t);
        a = b;
    }
    placed(odd)
}

// Whether p / d is strictly inside row r, whose normal is m.
pub fn lies_inside(xyz: &[i64], table: &[u8], r: usize, m: Point, p: Point, d: i64) -> bool
    requires { FaceAndPoint xyz.now table.now r m p d }
    ensures { result ≡ is_inside (lies (over p d) (ring xyz.now table.now r)) }
{
    let w = lies(xyz, table, r, m, p, d);
    match w {
        Where::Outside => false,
        Where::Border => false,
        Where::Inside => true,
    }
}
