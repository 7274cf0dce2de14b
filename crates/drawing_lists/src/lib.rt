// What a drawing's two lists are refused for, lent or read off a sheet: 8, 9 and 10 here, with 5 of lent ones in lend. Nothing is
// assumed of them.
#![tactic(auto)]

pub mod lend;

ghost use Rattle.std.specs.Prelude.{◌≡◌, ◌+◌, ◌*◌, ◌/◌, ◌<◌, length};
ghost use Rattle.lists.specs.Lists.{lowest};
ghost use Rattle.lists.specs.Found.{found};
ghost use Rattle.paper.specs.Refusals.{first_of};
ghost use Rattle.paper.specs.Sheet.{far, far_at, wrong, wrong_at, edge_above, low_at, edge_checks, content_checks};

use paper::{Number, Refusal};
use paper_values::refused;

fn is_far(z: i64) -> bool
    ensures { result ≡ far z }
{
    z < -paper::FARTHEST || paper::FARTHEST < z
}

// The lowest place of a coordinate out of range.
fn first_far(xyz: &[i64]) -> Option<usize>
    ensures { found result ≡ lowest (far_at xyz.now) (length xyz.now) }
{
    for (i, z) in xyz.iter().enumerate() {
        if is_far(*z) {
            return Some(i);
        }
    }
    None
}

fn is_wrong(v: usize, a: u8, b: u8) -> bool
    ensures { result ≡ wrong v a b }
{
    if v <= a as usize {
        return true;
    }
    if v <= b as usize {
        return true;
    }
    b <= a
}

// The lowest edge with an end that is no vertex below v, or whose ends do not rise.
fn first_wrong(v: usize, ends: &[u8]) -> Option<usize>
    ensures { found result ≡ lowest (wrong_at v ends.now) (length ends.now / 2) }
{
    let n = ends.len() / 2;
    for e in 0..n {
        if is_wrong(v, ends[2 * e], ends[2 * e + 1]) {
            return Some(e);
        }
    }
    None
}

fn is_edge_above(a0: u8, b0: u8, a: u8, b: u8) -> bool
    ensures { result ≡ edge_above a0 b0 a b }
{
    if a0 < a {
        return true;
    }
    if a0 == a {
        return b0 < b;
    }
    false
}

// Whether edge e has an edge before it that it is not above.
fn is_low(ends: &[u8], e: usize) -> bool
    requires { e < length ends.now / 2 }
    ensures { result ≡ low_at ends.now e }
{
    if e == 0 {
        return false;
    }
    let b = e - 1;
    !is_edge_above(
        ends[2 * b],
        ends[2 * b + 1],
        ends[2 * b + 2],
        ends[2 * b + 3],
    )
}

// The lowest edge that is not above the edge before it.
fn first_low(ends: &[u8]) -> Option<usize>
    ensures { found result ≡ lowest (low_at ends.now) (length ends.now / 2) }
{
    let n = ends.len() / 2;
    for e in 0..n {
        if is_low(ends, e) {
            return Some(e);
        }
    }
    None
}

// Refusals 9 and 10.
fn edges(v: usize, ends: &[u8]) -> Result<(), Refusal>
    ensures { result ≡ first_of (edge_checks v ends.now) }
{
    match first_wrong(v, ends) {
        Some(e) => refused(Number::BAD_EDGE, e),
        None => match first_low(ends) {
            Some(e) => refused(Number::EDGE_ORDER, e),
            None => Ok(()),
        },
    }
}

// Refusals 8, 9 and 10 of a drawing with v vertices.
pub fn content(v: usize, xyz: &[i64], ends: &[u8]) -> Result<(), Refusal>
    ensures { result ≡ first_of (content_checks v xyz.now ends.now) }
{
    match first_far(xyz) {
        Some(i) => refused(Number::BAD_COORDINATE, i),
        None => edges(v, ends),
    }
}
