// Of each loop its corners and its sides, as sets of vertices and of edges. Assumes a table of loops of a drawing whose edges are
// numbered.
#![tactic(auto)]

ghost use Rattle.paper.specs.Drawing.{edges_of};
ghost use Rattle.loop_words.specs.Numbered.{RisingEnds, EdgesNumbered};
ghost use Rattle.loop_words.specs.Drawn.{RowDrawn, RowWords, DrawnTable, WithRoom, LoopWords};

use lists::wide;
use paper::{MOST_LOOPS, MOST_VERTICES, ROW};
use sets::{Set, Wide};

// An entry for each pair of vertices.
pub const PAIRS: usize = MOST_VERTICES * MOST_VERTICES;

// The numbers of edges by their ends, whichever comes first. Entries of pairs that no edge joins are 0.
pub fn number_edges(ends: &[u8]) -> [u8; PAIRS]
    requires { RisingEnds ends.now }
    ensures { EdgesNumbered result (edges_of ends.now) }
{
    let mut number = [0u8; PAIRS];
    let n = ends.len() / 2;
    for e in 0..n {
        let a = wide(ends[2 * e]);
        let b = wide(ends[2 * e + 1]);
        number[MOST_VERTICES * a + b] = e as u8;
        number[MOST_VERTICES * b + a] = e as u8;
    }
    number
}

#[derive(Clone, Copy)]
pub struct Words {
    pub corners: Set,
    pub sides: Wide,
}

// The words of row k: a side goes from the corner before, so the first is that from the last corner.
fn row_words(table: &[u8], k: usize, number: &[u8; PAIRS]) -> Words
    requires { RowDrawn table.now k number.now }
    ensures { (w : RowDrawn table.now k number.now) → RowWords w.drawing w.loop result }
{
    let first = ROW * k;
    let len = wide(table[first]);
    let mut a = wide(table[first + len]);
    let mut corners = Set::none();
    let mut sides = Wide::none();
    for i in 0..len {
        let b = wide(table[first + 1 + i]);
        let e = wide(number[MOST_VERTICES * a + b]);
        corners = corners.with(b);
        sides = sides.with(e);
        a = b;
    }
    Words {
        corners: corners,
        sides: sides,
    }
}

// The words of the first n rows.
pub fn loop_words(
    table: &[u8],
    n: usize,
    number: &[u8; PAIRS],
    corners: &mut [u64; MOST_LOOPS],
    sides: &mut [u64; MOST_LOOPS],
)
    requires { WithRoom table.now n number.now corners.old sides.old }
    ensures { (w : DrawnTable table.now n number.now)
        → LoopWords w corners.old corners.new sides.old sides.new }
{
    for k in 0..n {
        let w = row_words(table, k, number);
        Set::put(corners, k, w.corners);
        Wide::put(sides, k, w.sides);
    }
}
