// Whether a loop covers another. For one loop each edge's midpoint is asked at most once, and what was found is kept. Assumes the loops of
// a drawing that passed 3 to 14, with what is known of them.
#![tactic(auto)]

ghost use Rattle.std.specs.Prelude.{◌≡◌, ◌<◌};
ghost use Rattle.paper.specs.Drawing.{wire};
ghost use Rattle.paper.specs.Loops.{loops, covers_other};
ghost use Rattle.loop_cover.specs.Midpoints.{outside_of, RowAndEdge, AsksEdges, AskedOf, TriedOf};
ghost use Rattle.loop_cover.specs.Known.{FitsPlane, KnownLoop};
ghost use Rattle.paper.specs.Numbers.{most_loops};

use inside::lies;
use lists::wide;
use paper::{MOST_LOOPS, Point, Where};
use polygon::points::plus;
use polygon::rings::{normal, point_at};
use sets::{Set, Wide};

// Edges whose midpoint is known not to be outside, and edges whose midpoint is.
#[derive(Clone, Copy)]
pub struct Asked {
    pub held: Wide,
    pub outside: Wide,
}

// What was asked up to some loop, and whether that loop is covered.
#[derive(Clone, Copy)]
pub struct Tried {
    pub asked: Asked,
    pub covers: bool,
}

// The midpoint of edge e is outside row k, whose normal is m. A midpoint is the sum of two corners, over 2.
fn is_outside(xyz: &[i64], ends: &[u8], table: &[u8], k: usize, m: Point, e: usize) -> bool
    requires { RowAndEdge xyz.now ends.now table.now k m e }
    ensures { result ≡ outside_of xyz.now ends.now table.now k e }
{
    let a = point_at(xyz, wide(ends[2 * e]));
    let b = point_at(xyz, wide(ends[2 * e + 1]));
    let w = lies(xyz, table, k, m, plus(a, b), 2);
    match w {
        Where::Outside => true,
        Where::Border => false,
        Where::Inside => false,
    }
}

// Asks those of the edges that are not known to be held, in order, up to the first that is outside.
fn ask(xyz: &[i64], ends: &[u8], table: &[u8], k: usize, m: Point, edges: Wide, f: Asked) -> Asked
    requires { AsksEdges xyz.now ends.now table.now k m edges f }
    ensures { AskedOf xyz.now ends.now table.now k edges f result }
{
    let mut held = f.held;
    let outside = f.outside;
    let mut open = edges.minus(held);
    while let Some(e) = open.pop_first() {
        if is_outside(xyz, ends, table, k, m, e) {
            return Asked {
                held: held,
                outside: outside.with(e),
            };
        }
        held = held.with(e);
    }
    Asked {
        held: held,
        outside: outside,
    }
}

// A loop in row k's plane that has these edges: it is covered where none of them is outside.
fn try_edges(
    xyz: &[i64],
    ends: &[u8],
    table: &[u8],
    k: usize,
    m: Point,
    edges: Wide,
    f: Asked,
) -> Tried
    requires { AsksEdges xyz.now ends.now table.now k m edges f }
    ensures { TriedOf xyz.now ends.now table.now k edges f result }
{
    let known = f.outside;
    if !edges.and(known).is_empty() {
        return Tried {
            asked: f,
            covers: false,
        };
    }
    let g = ask(xyz, ends, table, k, m, edges, f);
    let found = g.outside;
    Tried {
        asked: g,
        covers: edges.and(found).is_empty(),
    }
}

// Loop j is another than k, and its corners are in the plane.
fn fits(corners: &[u64; MOST_LOOPS], plane: Set, k: usize, j: usize) -> bool
    requires { j < most_loops }
    ensures { FitsPlane corners.now plane k j result }
{
    if k == j {
        return false;
    }
    let others = Set::at(corners, j);
    others.minus(plane).is_empty()
}

// Loop k covers another of the n loops.
pub fn covers_other(
    xyz: &[i64],
    ends: &[u8],
    table: &[u8],
    n: usize,
    corners: &[u64; MOST_LOOPS],
    sides: &[u64; MOST_LOOPS],
    planes: &[u64; MOST_LOOPS],
    k: usize,
) -> bool
    requires { KnownLoop xyz.now ends.now table.now n corners.now sides.now planes.now k }
    ensures { result ≡ covers_other (wire xyz.now ends.now)
        (loops (wire xyz.now ends.now)) k }
{
    let m = normal(xyz, table, k);
    let plane = Set::at(planes, k);
    let own = Wide::at(sides, k);
    let mut f = Asked {
        held: own,
        outside: Wide::none(),
    };
    for j in 0..n {
        if fits(corners, plane, k, j) {
            let edges = Wide::at(sides, j);
            let t = try_edges(xyz, ends, table, k, m, edges, f);
            if t.covers {
                return true;
            }
            f = t.asked;
        }
    }
    false
}
