// The candidates that fold with a candidate: rule C, asked only of those that share enough corners. Assumes a table of candidates of a
// drawing in range, with their normals and the words of their corners and sides.
ghost use Rattle.std.specs.Prelude.{◌≡◌};
ghost use Rattle.sets.specs.Sets.{size, wides};
ghost use Rattle.fast_tables.specs.Hits.{share_enough};
ghost use Rattle.walk_clashes.specs.Folds.{PairLent, PairFolds, PairJoins, FoldStart, FoldLent, FoldsAfter};

use super::NORMALS;
use clash_fold::folds;
use paper::{LEAST_CORNERS, MOST_CANDIDATES};
use polygon::rings::{count, point_at};
use sets::{Set, Wide};

// Two candidates with these corners and sides in common share three corners, or two that are no common side.
fn may_fold(shared: Set, common: Wide) -> bool
    ensures { result ≡ share_enough (size shared) (wides.size common) }
{
    if shared.is_empty() {
        return false;
    }
    let more = shared.without(shared.lowest());
    if more.is_empty() {
        return false;
    }
    let third = more.without(more.lowest());
    if third.is_empty() {
        return common.is_empty();
    }
    true
}

// Rows g and j, of which g has more than three corners, fold into one another.
fn folds_with(
    xyz: &[i64],
    rows: &[u8],
    corners: &[u64; MOST_CANDIDATES],
    sides: &[u64; MOST_CANDIDATES],
    normals: &[i64; NORMALS],
    g: usize,
    j: usize,
) -> bool
    requires { PairLent xyz.now rows.now corners.now sides.now normals.now g j }
    ensures { (w : PairLent xyz.now rows.now corners.now sides.now
        normals.now g j) → PairFolds w result }
{
    let shared = Set::at(corners, g).and(Set::at(corners, j));
    let common = Wide::at(sides, g).and(Wide::at(sides, j));
    if !may_fold(shared, common) {
        return false;
    }
    if count(rows, j) <= LEAST_CORNERS {
        return false;
    }
    folds(xyz, rows, g, point_at(normals, g), j, point_at(normals, j))
}

// Row j joins the set where it folds with row g and is not known to clash.
fn join_fold(
    xyz: &[i64],
    rows: &[u8],
    corners: &[u64; MOST_CANDIDATES],
    sides: &[u64; MOST_CANDIDATES],
    normals: &[i64; NORMALS],
    g: usize,
    j: usize,
    known: Wide,
    set: Wide,
) -> Wide
    requires { PairLent xyz.now rows.now corners.now sides.now normals.now g j }
    ensures { (w : PairLent xyz.now rows.now corners.now sides.now
        normals.now g j) → PairJoins w known set result }
{
    if known.has(j) {
        return set;
    }
    if !folds_with(xyz, rows, corners, sides, normals, g, j) {
        return set;
    }
    set.with(j)
}

// Of the n candidates those after g that fold with it and are not known to clash with it.
pub fn fold_set(
    xyz: &[i64],
    rows: &[u8],
    n: usize,
    corners: &[u64; MOST_CANDIDATES],
    sides: &[u64; MOST_CANDIDATES],
    normals: &[i64; NORMALS],
    g: usize,
    known: Wide,
) -> Wide
    requires { FoldStart xyz.now rows.now corners.now sides.now normals.now n g }
    ensures { (w : FoldLent xyz.now rows.now corners.now sides.now
        normals.now n) → FoldsAfter w g known result }
{
    let mut found = Wide::none();
    if count(rows, g) <= LEAST_CORNERS {
        return found;
    }
    for j in g + 1..n {
        found = join_fold(xyz, rows, corners, sides, normals, g, j, known, found);
    }
    found
}
