// The words and numbers of a drawing's candidates that the walk is lent, each made once. Assumes the candidates' rows and words.
ghost use Rattle.walk_tables.specs.Words.{walk_tables};
ghost use Rattle.walk_input.specs.Words.{CandidatesListed, WordsAt, WordsMade};

use loop_words::PAIRS;
use paper::{FACE_ROOM, MOST_CANDIDATES, MOST_EDGES, MOST_VERTICES};
use walk_clashes::marks::vertex_words;
use walk_clashes::{NORMALS, clash_words, put_parts};
use walk_edges::edge_words;

pub fn put_words(
    xyz: &[i64],
    rows: &[u8; FACE_ROOM],
    n: usize,
    near: &[u64; MOST_VERTICES],
    number: &[u8; PAIRS],
    corners: &[u64; MOST_CANDIDATES],
    sides: &[u64; MOST_CANDIDATES],
    on: &mut [u64; MOST_EDGES],
    up: &mut [u64; MOST_EDGES],
    clashes: &mut [u64; MOST_CANDIDATES],
    sixes: &mut [i64; MOST_CANDIDATES],
)
    requires { WordsAt xyz.now rows.now n near.now number.now corners.now
        (walk_tables on.old up.old sides.now clashes.old sixes.old) }
    ensures { (l : CandidatesListed xyz.now rows.now n near.now number.now
        corners.now sides.now)
        → WordsMade l sixes.old
        (walk_tables on.new up.new sides.now clashes.new sixes.new) }
{
    let mut at = [0u64; MOST_VERTICES];
    let mut normals = [0i64; NORMALS];
    edge_words(rows, n, number, on, up);
    vertex_words(corners, n, &mut at);
    put_parts(xyz, rows, n, &mut normals, sixes);
    clash_words(
        xyz, rows, n, near, number, on, &at, corners, sides, &normals, clashes,
    );
}
