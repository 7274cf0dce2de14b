// The candidates' normals and parts of six volumes, and of each candidate the word of those that it clashes with. Assumes a table of the
// candidates of a drawing that passed 3 to 14, and what is known of them.
#![tactic(auto)]

mod folds;
mod hits;
pub mod marks;

ghost use Rattle.std.specs.Prelude.{◌≡◌};
ghost use Rattle.paper.specs.Solids.{face_six};
ghost use Rattle.polygon.specs.Rings.{ring, FaceRow};
ghost use Rattle.walk_clashes.specs.Faces.{DrawnFaces, PointRoom, PointPut, PartRoom, PartsOf};
ghost use Rattle.walk_clashes.specs.Clashes.{CandidateLent, SetOf, ClashLent, ClashRoom, ClashMasks};

use folds::fold_set;
use hits::hit_set;
use loop_words::PAIRS;
use marks::mark_both;
use paper::{MOST_CANDIDATES, MOST_EDGES, MOST_VERTICES, Point};
use polygon::points::dot;
use polygon::rings::{corner, normal};
use sets::Wide;

// Three numbers for each candidate: its normal.
pub const NORMALS: usize = 3 * MOST_CANDIDATES;

// Row k's part of six volumes, where m is its normal: a corner times the normal.
fn six_of(xyz: &[i64], rows: &[u8], k: usize, m: Point) -> i64
    requires { FaceRow xyz.now rows.now k m }
    ensures { result ≡ face_six (ring xyz.now rows.now k) }
{
    dot(corner(xyz, rows, k, 0), m)
}

// The normal of candidate k goes into the list.
fn put_normal(normals: &mut [i64; NORMALS], k: usize, m: Point)
    requires { PointRoom normals.old k m }
    ensures { PointPut k m normals.old normals.new }
{
    let i = 3 * k;
    let x = m.x;
    let y = m.y;
    let z = m.z;
    normals[i] = x;
    normals[i + 1] = y;
    normals[i + 2] = z;
}

// The normals of the candidates in the first n rows, and their parts of six volumes.
pub fn put_parts(
    xyz: &[i64],
    rows: &[u8],
    n: usize,
    normals: &mut [i64; NORMALS],
    sixes: &mut [i64; MOST_CANDIDATES],
)
    requires { PartRoom xyz.now rows.now n normals.old sixes.old }
    ensures { (w : DrawnFaces xyz.now rows.now n)
        → PartsOf w normals.new sixes.old sixes.new }
{
    for k in 0..n {
        let m = normal(xyz, rows, k);
        put_normal(normals, k, m);
        sixes[k] = six_of(xyz, rows, k, m);
    }
}

// The candidates that go through candidate g, and of those that follow it and are not known to clash those that fold with it.
fn clash_set(
    xyz: &[i64],
    rows: &[u8],
    n: usize,
    near: &[u64; MOST_VERTICES],
    number: &[u8; PAIRS],
    on: &[u64; MOST_EDGES],
    at: &[u64; MOST_VERTICES],
    corners: &[u64; MOST_CANDIDATES],
    sides: &[u64; MOST_CANDIDATES],
    normals: &[i64; NORMALS],
    g: usize,
    known: Wide,
) -> Wide
    requires { CandidateLent xyz.now rows.now near.now number.now on.now at.now corners.now sides.now normals.now
        n g }
    ensures { (w : ClashLent xyz.now rows.now near.now number.now on.now
        at.now corners.now sides.now normals.now n) → SetOf w g known result }
{
    let through = hit_set(xyz, rows, near, number, on, at, corners, normals, g);
    let folding = fold_set(xyz, rows, n, corners, sides, normals, g, known.or(through));
    through.or(folding)
}

// Of each candidate in the first n rows those that it clashes with.
pub fn clash_words(
    xyz: &[i64],
    rows: &[u8],
    n: usize,
    near: &[u64; MOST_VERTICES],
    number: &[u8; PAIRS],
    on: &[u64; MOST_EDGES],
    at: &[u64; MOST_VERTICES],
    corners: &[u64; MOST_CANDIDATES],
    sides: &[u64; MOST_CANDIDATES],
    normals: &[i64; NORMALS],
    words: &mut [u64; MOST_CANDIDATES],
)
    requires { ClashRoom xyz.now rows.now near.now number.now on.now at.now corners.now sides.now normals.now n
        words.old }
    ensures { (w : ClashLent xyz.now rows.now near.now number.now on.now
        at.now corners.now sides.now normals.now n) → ClashMasks w words.new }
{
    for g in 0..n {
        let known = Wide::at(words, g);
        let set = clash_set(
            xyz, rows, n, near, number, on, at, corners, sides, normals, g, known,
        );
        mark_both(words, set, g);
    }
}
