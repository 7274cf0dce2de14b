// Of each edge the words of candidates: of those that have it, and of those that run it upwards. Assumes a table of candidates of a
// drawing whose edges are numbered.
#![tactic(auto)]

ghost use Rattle.walk_edges.specs.Marks.{RowRoom, RowOf, Marks, EdgeMarkRoom, DrawnCandidates, EdgeWords};

use lists::wide;
use loop_words::PAIRS;
use paper::{MOST_EDGES, MOST_VERTICES, ROW};
use sets::Wide;

// Candidate k is marked on each of its edges: a side goes from the corner before, so the first is that from the last corner.
fn mark_sides(
    rows: &[u8],
    k: usize,
    number: &[u8; PAIRS],
    on: &mut [u64; MOST_EDGES],
    up: &mut [u64; MOST_EDGES],
)
    requires { RowRoom rows.now k number.now on.old up.old }
    ensures { (w : RowOf rows.now k number.now)
        → Marks w on.old on.new up.old up.new }
{
    let first = ROW * k;
    let len = wide(rows[first]);
    let mut a = wide(rows[first + len]);
    for i in 0..len {
        let b = wide(rows[first + 1 + i]);
        let e = wide(number[MOST_VERTICES * a + b]);
        Wide::mark(on, e, k);
        if a < b {
            Wide::mark(up, e, k);
        }
        a = b;
    }
}

// The words of edges, of the candidates in the first n rows.
pub fn edge_words(
    rows: &[u8],
    n: usize,
    number: &[u8; PAIRS],
    on: &mut [u64; MOST_EDGES],
    up: &mut [u64; MOST_EDGES],
)
    requires { EdgeMarkRoom rows.now n number.now on.old up.old }
    ensures { (w : DrawnCandidates rows.now n number.now)
        → EdgeWords w on.new up.new }
{
    for k in 0..n {
        mark_sides(rows, k, number, on, up);
    }
}
