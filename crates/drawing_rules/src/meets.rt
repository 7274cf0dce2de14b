// Rule 13, EdgeMeets: an edge shares a point with a vertex or an edge other than at its own end vertices. Each pair of edges is asked
// once, boxes first; as every vertex is an end of an edge, no vertex is. Assumes a drawing in range that has passed 11 and 12.
ghost use Rattle.std.specs.Prelude.{◌≡◌, Bool, List, [], ◌∷◌, ◌<◌};
ghost use Rattle.paper.specs.Numbers.{most_edges};
ghost use Rattle.paper.specs.Refusals as No;
ghost use Rattle.paper.specs.Refusals.{check, first_of};
ghost use Rattle.paper.specs.Drawing.{Wire, wire, edge_meets};
ghost use Rattle.sets.specs.Sets.{wides};
ghost use Rattle.fast_meets.specs.Pairs.{mark, later_marked, offenders};
ghost use Rattle.drawing_rules.specs.Asked.{PassedSoFar, EdgesBoxed, EdgeBoxed, PairBoxed, TwoMarks};
ghost use Rattle.drawing_rules.specs.Meets.{both_at, Lowest13};

use super::boxes::{CORNERS, box_at, put_boxes};
use super::ends::{are_joined, end_at};
use drawing_segments::{Both, are_apart, both_meet};
use paper::{Number, Refusal};
use paper_values::refused;
use sets::Wide;

// Whether e meets f, and f e, each off its own ends.
fn pair(
    xyz: &[i64],
    v: usize,
    ends: &[u8],
    low: &[i64; CORNERS],
    high: &[i64; CORNERS],
    e: usize,
    f: usize,
) -> Both
    requires { PairBoxed xyz.now v ends.now low.now high.now e f }
    ensures { result ≡ both_at (wire xyz.now ends.now) e f }
{
    if are_apart(box_at(low, high, e), box_at(low, high, f)) {
        return Both {
            first: false,
            second: false,
        };
    }
    let a = end_at(xyz, v, ends, 2 * e);
    let b = end_at(xyz, v, ends, 2 * e + 1);
    let c = end_at(xyz, v, ends, 2 * f);
    let d = end_at(xyz, v, ends, 2 * f + 1);
    both_meet(a, b, c, d, are_joined(ends, e, f))
}

// The set, with k where it offends.
fn mark(hit: Wide, k: usize, offends: bool) -> Wide
    requires { k < most_edges }
    ensures { (w : List Bool) → wides.Is hit w → wides.Is result (mark offends k w) }
{
    if offends { hit.with(k) } else { hit }
}

// The set, with those of e and f that offend: of most pairs, neither.
fn mark_both(hit: Wide, e: usize, f: usize, both: Both) -> Wide
    requires { TwoMarks e f }
    ensures { (w : List Bool) → wides.Is hit w → wides.Is result (mark both.second f (mark both.first e w)) }
{
    if !(both.first | both.second) {
        return hit;
    }
    mark(mark(hit, e, both.first), f, both.second)
}

// The set, with what e and the later edges make offend.
fn meets(
    xyz: &[i64],
    v: usize,
    ends: &[u8],
    low: &[i64; CORNERS],
    high: &[i64; CORNERS],
    e: usize,
    hit: Wide,
) -> Wide
    requires { EdgeBoxed xyz.now v ends.now low.now high.now e }
    ensures { (w : List Bool) → wides.Is hit w
        → wides.Is result (later_marked (wire xyz.now ends.now) e w) }
{
    let n = ends.len() / 2;
    let mut met = hit;
    for f in e + 1..n {
        met = mark_both(met, e, f, pair(xyz, v, ends, low, high, e, f));
    }
    met
}

// The edges that offend.
fn offenders(
    xyz: &[i64],
    v: usize,
    ends: &[u8],
    low: &[i64; CORNERS],
    high: &[i64; CORNERS],
) -> Wide
    requires { EdgesBoxed xyz.now v ends.now low.now high.now }
    ensures { wides.Is result (offenders (wire xyz.now ends.now)) }
{
    let n = ends.len() / 2;
    let mut hit = Wide::none();
    for e in 0..n {
        hit = meets(xyz, v, ends, low, high, e, hit);
    }
    hit
}

// The lowest of them.
fn lowest(hit: Wide) -> Result<(), Refusal>
    ensures { (d : Wire) → wides.Is hit (offenders d) → Lowest13 d result }
{
    if hit.count() == 0 {
        return Ok(());
    }
    refused(Number::EDGE_MEETS, hit.lowest())
}

pub fn edge_meets(xyz: &[i64], v: usize, ends: &[u8]) -> Result<(), Refusal>
    requires { PassedSoFar xyz.now v ends.now }
    ensures { result ≡ first_of (check No.EdgeMeets (edge_meets (wire xyz.now ends.now)) ∷ []) }
{
    let mut low = [0i64; CORNERS];
    let mut high = [0i64; CORNERS];
    put_boxes(xyz, v, ends, &mut low, &mut high);
    lowest(offenders(xyz, v, ends, &low, &high))
}
