// Clash A: an edge pierces a loop strictly inside. Assumes a row of a loop table in range, with its normal.
#![tactic(auto)]

ghost use Rattle.std.specs.Prelude.{◌≡◌, pos, nat_abs};
ghost use Rattle.exact.specs.Size.{Within};
ghost use Rattle.paper.specs.Points.{plus, times};
ghost use Rattle.paper.specs.Clash.{opposite, pierced};
ghost use Rattle.polygon.specs.Sizes.{most_plane_side};
ghost use Rattle.polygon.specs.Rings.{ring};
ghost use Rattle.clash_pierce.specs.Asked.{MixWithin, FaceAndEdge};

use inside::lies_inside;
use paper::Point;

fn opposite(a: i64, b: i64) -> bool
    ensures { result ≡ opposite a b }
{
    (a < 0) & (0 < b) | (0 < a) & (b < 0)
}

fn size(z: i64) -> i64
    requires { Within most_plane_side z }
    ensures { result ≡ pos (nat_abs z) }
{
    if z < 0 { -z } else { z }
}

fn mix(s: i64, p: Point, t: i64, q: Point) -> Point
    requires { MixWithin s p t q }
    ensures { result ≡ plus (times s p) (times t q) }
{
    Point {
        x: s * p.x + t * q.x,
        y: s * p.y + t * q.y,
        z: s * p.z + t * q.z,
    }
}

// A: the edge from p to q, whose ends are at a and b from the plane of row g, pierces it strictly inside.
pub fn pierced(
    xyz: &[i64],
    table: &[u8],
    g: usize,
    m: Point,
    p: Point,
    q: Point,
    a: i64,
    b: i64,
) -> bool
    requires { FaceAndEdge xyz.now table.now g m p q a b }
    ensures { result ≡ pierced (ring xyz.now table.now g) p q a b }
{
    if !opposite(a, b) {
        return false;
    }
    let s = size(b);
    let t = size(a);
    lies_inside(xyz, table, g, m, mix(s, p, t, q), t + s)
}
