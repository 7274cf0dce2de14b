// Paths in one line: they are gone on with, but are no loops themselves, since no edge meets a vertex. Assumes a path of two vertices
// or more, followed by fill.
ghost use Rattle.loop_search.specs.Rooms.{rooms};
ghost use Rattle.loop_search.specs.Lines.{OnLineAt, OnLine, StepAt, Stepped};

use super::paths::{in_plane, onward};
use super::planes::{Turn, turned};
use lists::wide;
use paper::{FILL, LOOP_ROOM, MOST_CORNERS, MOST_LOOPS, MOST_VERTICES};
use sets::Set;

// Takes in the loops that go on from the first len vertices of the path, which are in one line, by way of the next.
#[cycle(on_line_step)]
fn step(
    xyz: &[i64],
    v: usize,
    near: &[u64; MOST_VERTICES],
    path: &mut [u8; MOST_CORNERS],
    len: usize,
    free: Set,
    closing: Set,
    table: &mut [u8; LOOP_ROOM],
    planes: &mut [u64; MOST_LOOPS],
    count: usize,
) -> usize
    requires { StepAt (rooms table.old planes.old count) xyz.now v path.old len free closing }
    ensures { Stepped xyz.now near.now path.old len free closing
        (rooms table.old planes.old count) (rooms table.new planes.new result) path.new }
{
    let w = wide(path[len]);
    let rest = free.without(w);
    let t = turned(xyz, v, path, w, closing.and(free));
    match t {
        Turn::Line => on_line(
            xyz,
            v,
            near,
            path,
            len + 1,
            rest,
            closing,
            table,
            planes,
            count,
        ),
        Turn::Dead => count,
        Turn::Plane(plane) => in_plane(
            near,
            path,
            len + 1,
            rest.and(plane),
            closing,
            plane,
            table,
            planes,
            count,
        ),
    }
}

// Takes in the loops that begin with the path, which is in one line. `free` are the vertices that it may still use, `closing` those
// where a loop may end; the path is left as it came.
#[cycle(on_line_step)]
pub fn on_line(
    xyz: &[i64],
    v: usize,
    near: &[u64; MOST_VERTICES],
    path: &mut [u8; MOST_CORNERS],
    len: usize,
    free: Set,
    closing: Set,
    table: &mut [u8; LOOP_ROOM],
    planes: &mut [u64; MOST_LOOPS],
    count: usize,
) -> usize
    requires { OnLineAt (rooms table.old planes.old count) xyz.now v path.old len free closing }
    ensures { OnLine xyz.now near.now path.old len free closing
        (rooms table.old planes.old count) (rooms table.new planes.new result) path.new }
{
    if MOST_CORNERS <= len {
        return count;
    }
    if closing.and(free).is_empty() {
        return count;
    }
    let mut c = count;
    let mut left = onward(near, path, len, free);
    while let Some(w) = left.pop_first() {
        if MOST_LOOPS < c {
            return c;
        }
        path[len] = w as u8;
        c = step(xyz, v, near, path, len, free, closing, table, planes, c);
        path[len] = FILL;
    }
    c
}
