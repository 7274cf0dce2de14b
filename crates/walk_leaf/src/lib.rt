// The tests (ii) to (v) of a selection that has (i). No ones are counted: one alone, or none, is asked for. Assumes at most 64 candidates
// and 64 edges.
#![tactic(auto)]

pub mod faces;

ghost use Rattle.std.specs.Prelude.{◌≡◌, ◌≤◌, eqb};
ghost use Rattle.sets.specs.Sets.{wides};
ghost use Rattle.paper.specs.Numbers.{most_edges};
ghost use Rattle.walk_tables.specs.Words.{SmallSixes, walk_tables};
ghost use Rattle.walk_leaf.specs.Tests.{WayIs, OrientedIs, ClearIs, PartAt, PartIs, Weighs, WeighedIs};
ghost use Rattle.walk_leaf.specs.Tests.{Judging, Judges};

use faces::from_face;
use paper::{MOST_CANDIDATES, MOST_EDGES};
use sets::Wide;

// A solid: the faces that are turned against their normal form, and six volumes.
#[derive(Clone, Copy)]
pub struct Judged {
    pub turned: Wide,
    pub six: u64,
}

fn is_one(x: Wide) -> bool
    ensures { result ≡ eqb (wides.size x) 1 }
{
    if x.is_empty() {
        return false;
    }
    x.without(x.lowest()).is_empty()
}

// Whether an edge is run once each way by the faces taken: `up` are those whose normal form runs it upwards.
pub fn once_each_way(mask: Wide, up: Wide, taken: Wide, turned: Wide) -> bool
    ensures { WayIs mask up taken turned result }
{
    let mine = mask.and(taken);
    let runs = up.unlike(turned);
    if is_one(mine.and(runs)) {
        return is_one(mine.minus(runs));
    }
    false
}

fn oriented(
    on: &[u64; MOST_EDGES],
    up: &[u64; MOST_EDGES],
    m: usize,
    taken: Wide,
    turned: Wide,
) -> bool
    requires { m ≤ most_edges }
    ensures { OrientedIs on.now up.now m taken turned result }
{
    for e in 0..m {
        let mask = Wide::at(on, e);
        if !once_each_way(mask, Wide::at(up, e), taken, turned) {
            return false;
        }
    }
    true
}

fn clear(clashes: &[u64; MOST_CANDIDATES], taken: Wide) -> bool
    ensures { ClearIs clashes.now taken result }
{
    let mut left = taken;
    while let Some(k) = left.pop_first() {
        let clashing = Wide::at(clashes, k).and(taken);
        if !clashing.is_empty() {
            return false;
        }
    }
    true
}

// A face's part of six volumes, the other way round where it is turned.
fn part(sixes: &[i64; MOST_CANDIDATES], k: usize, turned: bool) -> i64
    requires { PartAt sixes.now k }
    ensures { PartIs sixes.now k turned result }
{
    let z = sixes[k];
    if turned {
        return -z;
    }
    z
}

// Six volumes of the faces taken, with these directions.
pub fn weight(sixes: &[i64; MOST_CANDIDATES], taken: Wide, turned: Wide) -> i64
    requires { SmallSixes sixes.now }
    ensures { Weighs sixes.now taken turned result }
{
    let mut sum: i64 = 0;
    let mut left = taken;
    while let Some(k) = left.pop_first() {
        sum = sum + part(sixes, k, turned.has(k));
    }
    sum
}

// Six volumes is above zero with these directions, or with all of them turned.
fn weighed(sixes: &[i64; MOST_CANDIDATES], taken: Wide, turned: Wide) -> Option<Judged>
    requires { SmallSixes sixes.now }
    ensures { WeighedIs sixes.now taken turned result }
{
    let v = weight(sixes, taken, turned);
    if 0 < v {
        return Some(Judged {
            turned,
            six: v as u64,
        });
    }
    if v < 0 {
        return Some(Judged {
            turned: taken.minus(turned),
            six: (-v) as u64,
        });
    }
    None
}

// Whether a selection with (i) is a solid: "With nothing undecided, test (ii) to (v)".
pub fn judge(
    on: &[u64; MOST_EDGES],
    up: &[u64; MOST_EDGES],
    m: usize,
    sides: &[u64; MOST_CANDIDATES],
    clashes: &[u64; MOST_CANDIDATES],
    sixes: &[i64; MOST_CANDIDATES],
    taken: Wide,
) -> Option<Judged>
    requires { Judging m sixes.now }
    ensures { Judges
        (walk_tables on.now up.now sides.now clashes.now sixes.now)
        m taken result }
{
    if taken.is_empty() {
        return None;
    }
    let g = from_face(on, up, sides, taken, taken.lowest());
    let turned = g.turned;
    if !taken.minus(g.reached).is_empty() {
        return None;
    }
    if !oriented(on, up, m, taken, turned) {
        return None;
    }
    if !clear(clashes, taken) {
        return None;
    }
    weighed(sixes, taken, turned)
}
