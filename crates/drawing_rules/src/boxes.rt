// The boxes of a drawing's edges, in a list of their lowest corners and one of their highest. Assumes a drawing in range.
ghost use Rattle.std.specs.Prelude.{◌≡◌, ◌+◌, ◌*◌, ◌<◌, length};
ghost use Rattle.paper.specs.Numbers.{most_edges};
ghost use Rattle.drawing_rules.specs.Asked.{ListsAndRooms, Boxed};
ghost use Rattle.drawing_rules.specs.Boxes.{box_in, point_put};

use super::ends::end_at;
use drawing_segments::{Span, span_of};
use paper::{MOST_EDGES, Point};
use polygon::rings::point_at;

// Room for a corner of each edge's box.
pub const CORNERS: usize = 3 * MOST_EDGES;

// Point k of the list becomes p.
fn put_point(list: &mut [i64], k: usize, p: Point)
    requires { 3 * k + 2 < length list.old }
    ensures { list.new ≡ point_put list.old k p }
{
    let i = 3 * k;
    let x = p.x;
    let y = p.y;
    let z = p.z;
    list[i] = x;
    list[i + 1] = y;
    list[i + 2] = z;
}

pub fn put_boxes(xyz: &[i64], v: usize, ends: &[u8], low: &mut [i64], high: &mut [i64])
    requires { ListsAndRooms xyz.now v ends.now low.old high.old }
    ensures { Boxed xyz.now ends.now low.new high.new }
{
    let n = ends.len() / 2;
    for e in 0..n {
        let s = span_of(end_at(xyz, v, ends, 2 * e), end_at(xyz, v, ends, 2 * e + 1));
        put_point(low, e, s.low);
        put_point(high, e, s.high);
    }
}

pub fn box_at(low: &[i64; CORNERS], high: &[i64; CORNERS], e: usize) -> Span
    requires { e < most_edges }
    ensures { result ≡ box_in low.now high.now e }
{
    Span {
        low: point_at(low, e),
        high: point_at(high, e),
    }
}
