// The loop search: all loops of a drawing in their normal form and order, each with the vertices in its plane. The search goes through
// words, of free vertices, of the plane's, and of those where a loop may end; it recurs only deeper into a path. Assumes a drawing in
// range; where it has passed 11 and 13 the loops found are the drawing's.
#![tactic(auto)]

mod lines;
mod paths;
mod planes;
mod rooms;

ghost use Rattle.std.specs.Prelude.{◌≡◌};
ghost use Rattle.paper.specs.Drawing.{Wire};
ghost use Rattle.loop_search.specs.Rooms.{rooms, Found};
ghost use Rattle.loop_search.specs.Starts.{StartAt, Started, SearchAt, ClearDrawing};

use lines::on_line;
use paper::{FILL, LOOP_ROOM, MOST_CORNERS, MOST_LOOPS, MOST_VERTICES};
use sets::Set;

// Takes in the loops that start at s. "Then go to the lower of its two neighbours": a loop may end at those neighbours that are left.
fn starting_at(
    xyz: &[i64],
    v: usize,
    near: &[u64; MOST_VERTICES],
    path: &mut [u8; MOST_CORNERS],
    s: usize,
    table: &mut [u8; LOOP_ROOM],
    planes: &mut [u64; MOST_LOOPS],
    count: usize,
) -> usize
    requires { StartAt (rooms table.old planes.old count) xyz.now v path.old s }
    ensures { Started xyz.now near.now s (rooms table.old planes.old count)
        (rooms table.new planes.new result) path.old path.new }
{
    let higher = Set::lowest_of(v).minus(Set::lowest_of(s + 1));
    let mut later = Set::at(near, s).and(higher);
    let mut c = count;
    path[0] = s as u8;
    while let Some(w) = later.pop_first() {
        path[1] = w as u8;
        c = on_line(
            xyz,
            v,
            near,
            path,
            2,
            higher.without(w),
            later,
            table,
            planes,
            c,
        );
        path[1] = FILL;
    }
    path[0] = FILL;
    c
}

// All loops: the table gets their rows, `planes` the words of the vertices in their planes, the first 128 of them; the answer is how
// many there are, 129 for more.
pub fn search(
    xyz: &[i64],
    v: usize,
    near: &[u64; MOST_VERTICES],
    table: &mut [u8; LOOP_ROOM],
    planes: &mut [u64; MOST_LOOPS],
) -> usize
    requires { SearchAt xyz.now v table.old planes.old }
    ensures { (d : Wire) → ClearDrawing d xyz.now v near.now
        → Found d table.old planes.old table.new planes.new result }
{
    let mut path = [FILL; MOST_CORNERS];
    let mut c = 0;
    let mut s = 0;
    while s < v {
        c = starting_at(xyz, v, near, &mut path, s, table, planes, c);
        s += 1;
    }
    c
}
