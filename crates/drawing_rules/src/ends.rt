// The ends of a drawing's edges, by the lent lists. Assumes a drawing in range.
ghost use Rattle.std.specs.Prelude.{◌≡◌};
ghost use Rattle.drawing_rules.specs.Asked.{EndAt, TwoEdges};
ghost use Rattle.drawing_rules.specs.Meets.{end_in, joined_in};

use lists::wide;
use paper::Point;
use polygon::rings::point_at;

// The place of end k of the list.
pub fn end_at(xyz: &[i64], v: usize, ends: &[u8], k: usize) -> Point
    requires { EndAt xyz.now v ends.now k }
    ensures { result ≡ end_in xyz.now ends.now k }
{
    point_at(xyz, wide(ends[k]))
}

// Edges e and f have a common end.
pub fn are_joined(ends: &[u8], e: usize, f: usize) -> bool
    requires { TwoEdges ends.now e f }
    ensures { result ≡ joined_in ends.now e f }
{
    let a = ends[2 * e];
    let b = ends[2 * e + 1];
    let c = ends[2 * f];
    let d = ends[2 * f + 1];
    (a == c) | (a == d) | (b == c) | (b == d)
}
