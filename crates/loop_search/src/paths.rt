// Paths whose plane is fixed: the search goes deeper only through free neighbours in the plane, and only as far as one of the free
// vertices can close the path. Assumes a path of vertices that there are, followed by fill.
ghost use Rattle.loop_search.specs.Rooms.{rooms};
ghost use Rattle.loop_search.specs.Paths.{PathAt, Onward, OnPath, PlaneSearched};
ghost use Rattle.paper.specs.Numbers.{most_vertices};

use super::rooms::take_if_closed;
use lists::wide;
use paper::{FILL, LOOP_ROOM, MOST_CORNERS, MOST_LOOPS, MOST_VERTICES};
use sets::Set;

// The free neighbours of the path's last vertex.
pub fn onward(near: &[u64; MOST_VERTICES], path: &[u8; MOST_CORNERS], len: usize, free: Set) -> Set
    requires { PathAt path.now len most_vertices }
    ensures { Onward near.now path.now len free result }
{
    let all = Set::at(near, wide(path[len - 1]));
    all.and(free)
}

// Takes in the loops that begin with the path. `free` are the vertices of its plane that it may still use, `closing` those where a
// loop may end; the path is left as it came.
pub fn in_plane(
    near: &[u64; MOST_VERTICES],
    path: &mut [u8; MOST_CORNERS],
    len: usize,
    free: Set,
    closing: Set,
    plane: Set,
    table: &mut [u8; LOOP_ROOM],
    planes: &mut [u64; MOST_LOOPS],
    count: usize,
) -> usize
    requires { OnPath (rooms table.old planes.old count) path.old len free }
    ensures { PlaneSearched near.now path.old len free closing plane
        (rooms table.old planes.old count) (rooms table.new planes.new result) path.new }
{
    let mut c = take_if_closed(table, planes, count, path, len, closing, plane);
    if MOST_CORNERS <= len {
        return c;
    }
    if closing.and(free).is_empty() {
        return c;
    }
    let mut left = onward(near, path, len, free);
    while let Some(w) = left.pop_first() {
        if MOST_LOOPS < c {
            return c;
        }
        path[len] = w as u8;
        c = in_plane(
            near,
            path,
            len + 1,
            free.without(w),
            closing,
            plane,
            table,
            planes,
            c,
        );
        path[len] = FILL;
    }
    c
}
