// The rooms of the search: a loop's row goes into the table, its plane into the list of words. Assumes rooms of the documented sizes.
ghost use Rattle.std.specs.Prelude.{◌≡◌, take};
ghost use Rattle.std.proofs.Math.Seq.{paste};
ghost use Rattle.paper.specs.Numbers.{row_bytes};
ghost use Rattle.paper.specs.Loops.{row};
ghost use Rattle.loop_search.specs.Rooms.{rooms};
ghost use Rattle.loop_search.specs.Paths.{RowAt, RoomsAndPath, Taken, Ended};

use lists::wide;
use paper::{LOOP_ROOM, MOST_CORNERS, MOST_LOOPS, ROW};
use sets::Set;

// Writes the row of the path of len vertices at byte `at`: the path is fill from len on.
fn put_row(table: &mut [u8; LOOP_ROOM], at: usize, path: &[u8; MOST_CORNERS], len: usize)
    requires { RowAt table.old at path.now len }
    ensures { table.new ≡ paste table.old at (row (take len path.now)) row_bytes }
{
    table[at] = len as u8;
    for i in 0..MOST_CORNERS {
        table[at + 1 + i] = path[i];
    }
}

// Takes the path in as a loop; the 129th is only counted.
fn take_in(
    table: &mut [u8; LOOP_ROOM],
    planes: &mut [u64; MOST_LOOPS],
    count: usize,
    path: &[u8; MOST_CORNERS],
    len: usize,
    plane: Set,
) -> usize
    requires { RoomsAndPath (rooms table.old planes.old count) path.now len }
    ensures { Taken (rooms table.old planes.old count)
        (rooms table.new planes.new result) path.now len plane }
{
    if MOST_LOOPS <= count {
        return MOST_LOOPS + 1;
    }
    put_row(table, ROW * count, path, len);
    Set::put(planes, count, plane);
    count + 1
}

// Takes the path in where a loop may end at its last vertex.
pub fn take_if_closed(
    table: &mut [u8; LOOP_ROOM],
    planes: &mut [u64; MOST_LOOPS],
    count: usize,
    path: &[u8; MOST_CORNERS],
    len: usize,
    closing: Set,
    plane: Set,
) -> usize
    requires { RoomsAndPath (rooms table.old planes.old count) path.now len }
    ensures { Ended (rooms table.old planes.old count)
        (rooms table.new planes.new result) path.now len closing plane }
{
    if closing.has(wide(path[len - 1])) {
        return take_in(table, planes, count, path, len, plane);
    }
    count
}
