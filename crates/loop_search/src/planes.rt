// Planes: what the next vertex makes of a path in one line, and the vertices of the plane that it fixes. Assumes points in range.
ghost use Rattle.std.specs.Prelude.{Bool, List, map, ◌≡◌};
ghost use Rattle.lists.specs.Lists.{upto};
ghost use Rattle.sets.specs.Sets.{Is};
ghost use Rattle.fast_search.specs.Rows.{some_of};
ghost use Rattle.loop_search.specs.Lines.{level_in, PlaneIn, PlaneAndSet, TurnAt, TurnIs};

use lists::wide;
use paper::{MOST_CORNERS, Point};
use polygon::points::{cross, is_origin, is_zero, minus};
use polygon::rings::{plane_side, point_at};
use sets::Set;

// What the next vertex makes of a path in one line: it stays in line; it fixes a plane in which no vertex can close it; it fixes a
// plane that may hold loops, with these vertices.
#[derive(Clone, Copy)]
pub enum Turn {
    Line,
    Dead,
    Plane(Set),
}

// Whether one of a set is in the plane through s across m.
fn any_level(xyz: &[i64], set: Set, s: Point, m: Point) -> bool
    requires { PlaneAndSet xyz.now s m set }
    ensures { (a : List Bool) → Is set a → result ≡ some_of (level_in xyz.now s m) 0 a }
{
    let mut left = set;
    while let Some(w) = left.pop_first() {
        if is_zero(plane_side(m, s, point_at(xyz, w))) {
            return true;
        }
    }
    false
}

// The vertices in the plane through s across m.
fn plane_of(xyz: &[i64], v: usize, s: Point, m: Point) -> Set
    requires { PlaneIn xyz.now v s m }
    ensures { Is result (map (level_in xyz.now s m) (upto v)) }
{
    let mut plane = Set::none();
    for w in 0..v {
        if is_zero(plane_side(m, s, point_at(xyz, w))) {
            plane = plane.with(w);
        }
    }
    plane
}

// What w makes of the path. `ends` are the free vertices where a loop may end.
pub fn turned(xyz: &[i64], v: usize, path: &[u8; MOST_CORNERS], w: usize, ends: Set) -> Turn
    requires { TurnAt xyz.now v path.now w ends }
    ensures { (a : List Bool) → Is ends a → TurnIs xyz.now v path.now w a result }
{
    let s = point_at(xyz, wide(path[0]));
    let way = minus(point_at(xyz, wide(path[1])), s);
    let m = cross(way, minus(point_at(xyz, w), s));
    if is_origin(m) {
        return Turn::Line;
    }
    if any_level(xyz, ends, s, m) {
        return Turn::Plane(plane_of(xyz, v, s, m));
    }
    Turn::Dead
}
