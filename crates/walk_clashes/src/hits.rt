// The candidates that go through a candidate, as a set: those on edges that pierce it, and those with a vertex strictly inside it. Assumes
// a table of candidates of a drawing in range, with their normals.
ghost use Rattle.std.specs.Prelude.{◌≡◌, ◌+◌, ◌/◌, length};
ghost use Rattle.polygon.specs.Rings.{ring, point_of};
ghost use Rattle.clash_pierce.specs.Pierce.{pierce_at};
ghost use Rattle.walk_clashes.specs.Sorted.{Plane, VertexOfPlane, Sorted};
ghost use Rattle.walk_clashes.specs.Lent.{Crossing, EdgeLent, EdgeJoins, DownLent, DownStart, DownJoins};
ghost use Rattle.walk_clashes.specs.Lent.{PierceLent, Through, VertexLent, VertexJoins, EnterLent, Inside};
ghost use Rattle.walk_clashes.specs.Lent.{HitLent, Hits};

use super::NORMALS;
use clash_pierce::pierced;
use inside::lies_inside;
use lists::wide;
use loop_words::PAIRS;
use paper::{MOST_CANDIDATES, MOST_EDGES, MOST_VERTICES, Point};
use polygon::rings::{corner, plane_side, point_at};
use sets::{Set, Wide};

// Vertices by the side of a plane that they are on.
#[derive(Clone, Copy)]
pub struct Sides {
    pub above: Set,
    pub below: Set,
    pub flat: Set,
}

// Vertex v goes to the set of its side of the plane through o with normal m.
fn sort_vertex(xyz: &[i64], m: Point, o: Point, v: usize, s: Sides) -> Sides
    requires { VertexOfPlane xyz.now m o v }
    ensures { Sorted xyz.now m o v s → Sorted xyz.now m o (v + 1) result }
{
    let above = s.above;
    let below = s.below;
    let flat = s.flat;
    let z = plane_side(m, o, point_at(xyz, v));
    if 0 < z {
        return Sides {
            above: above.with(v),
            below: below,
            flat: flat,
        };
    }
    if z < 0 {
        return Sides {
            above: above,
            below: below.with(v),
            flat: flat,
        };
    }
    Sides {
        above: above,
        below: below,
        flat: flat.with(v),
    }
}

// All vertices.
fn sort_vertices(xyz: &[i64], m: Point, o: Point) -> Sides
    requires { Plane xyz.now m o }
    ensures { Sorted xyz.now m o (length xyz.now / 3) result }
{
    let n = xyz.len() / 3;
    let mut s = Sides {
        above: Set::none(),
        below: Set::none(),
        flat: Set::none(),
    };
    for v in 0..n {
        s = sort_vertex(xyz, m, o, v, s);
    }
    s
}

// The edge from vertex a to vertex b pierces row g, whose normal is m.
fn crosses(xyz: &[i64], rows: &[u8], g: usize, m: Point, a: usize, b: usize) -> bool
    requires { Crossing xyz.now rows.now g m a b }
    ensures { result ≡ pierce_at (ring xyz.now rows.now g)
        (point_of xyz.now a) (point_of xyz.now b) }
{
    let o = corner(xyz, rows, g, 0);
    let p = point_at(xyz, a);
    let q = point_at(xyz, b);
    pierced(
        xyz,
        rows,
        g,
        m,
        p,
        q,
        plane_side(m, o, p),
        plane_side(m, o, q),
    )
}

// The candidates on the edge from a to b join the set where it pierces row g.
fn join_edge(
    xyz: &[i64],
    rows: &[u8],
    number: &[u8; PAIRS],
    on: &[u64; MOST_EDGES],
    g: usize,
    m: Point,
    a: usize,
    b: usize,
    set: Wide,
) -> Wide
    requires { EdgeLent xyz.now rows.now number.now on.now g m a b }
    ensures { (w : EdgeLent xyz.now rows.now number.now on.now g m a b)
        → EdgeJoins w set result }
{
    if !crosses(xyz, rows, g, m, a, b) {
        return set;
    }
    let e = wide(number[MOST_VERTICES * a + b]);
    let faces = Wide::at(on, e);
    set.or(faces)
}

// The candidates on the edges from a to these vertices.
fn join_edges(
    xyz: &[i64],
    rows: &[u8],
    number: &[u8; PAIRS],
    on: &[u64; MOST_EDGES],
    g: usize,
    m: Point,
    a: usize,
    under: Set,
    set: Wide,
) -> Wide
    requires { DownStart xyz.now rows.now number.now on.now g m a under set }
    ensures { (w : DownLent xyz.now rows.now number.now on.now g m a under)
        → DownJoins w set result }
{
    let mut found = set;
    let mut open = under;
    while let Some(b) = open.pop_first() {
        found = join_edge(xyz, rows, number, on, g, m, a, b, found);
    }
    found
}

// The candidates on an edge that goes from above row g's plane to below it and pierces row g.
fn piercing(
    xyz: &[i64],
    rows: &[u8],
    near: &[u64; MOST_VERTICES],
    number: &[u8; PAIRS],
    on: &[u64; MOST_EDGES],
    g: usize,
    m: Point,
    s: Sides,
) -> Wide
    requires { PierceLent xyz.now rows.now near.now number.now on.now g m s }
    ensures { (w : PierceLent xyz.now rows.now near.now number.now
        on.now g m s) → Through w result }
{
    let below = s.below;
    let mut open = s.above;
    let mut found = Wide::none();
    while let Some(a) = open.pop_first() {
        let tied = Set::at(near, a);
        found = join_edges(xyz, rows, number, on, g, m, a, tied.and(below), found);
    }
    found
}

// The candidates with vertex v join the set where it is strictly inside row g.
fn join_vertex(
    xyz: &[i64],
    rows: &[u8],
    at: &[u64; MOST_VERTICES],
    g: usize,
    m: Point,
    v: usize,
    set: Wide,
) -> Wide
    requires { VertexLent xyz.now rows.now at.now g m v }
    ensures { (w : VertexLent xyz.now rows.now at.now g m v) → VertexJoins w set result }
{
    if !lies_inside(xyz, rows, g, m, point_at(xyz, v), 1) {
        return set;
    }
    let faces = Wide::at(at, v);
    set.or(faces)
}

// The candidates with one of these vertices, in row g's plane and none of its corners, strictly inside row g.
fn entering(
    xyz: &[i64],
    rows: &[u8],
    at: &[u64; MOST_VERTICES],
    g: usize,
    m: Point,
    asked: Set,
) -> Wide
    requires { EnterLent xyz.now rows.now at.now g m asked }
    ensures { (w : EnterLent xyz.now rows.now at.now g m asked) → Inside w result }
{
    let mut open = asked;
    let mut found = Wide::none();
    while let Some(v) = open.pop_first() {
        found = join_vertex(xyz, rows, at, g, m, v, found);
    }
    found
}

// The candidates that go through row g by rule A or B, of which only this way round is asked here.
pub fn hit_set(
    xyz: &[i64],
    rows: &[u8],
    near: &[u64; MOST_VERTICES],
    number: &[u8; PAIRS],
    on: &[u64; MOST_EDGES],
    at: &[u64; MOST_VERTICES],
    corners: &[u64; MOST_CANDIDATES],
    normals: &[i64; NORMALS],
    g: usize,
) -> Wide
    requires { HitLent xyz.now rows.now near.now number.now on.now at.now corners.now normals.now g }
    ensures { (w : HitLent xyz.now rows.now near.now number.now
        on.now at.now corners.now normals.now g) → Hits w result }
{
    let m = point_at(normals, g);
    let o = corner(xyz, rows, g, 0);
    let own = Set::at(corners, g);
    let s = sort_vertices(xyz, m, o);
    let flat = s.flat;
    let through = piercing(xyz, rows, near, number, on, g, m, s);
    through.or(entering(xyz, rows, at, g, m, flat.minus(own)))
}
