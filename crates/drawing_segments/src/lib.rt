// The tests of rule 13 on two segments: boxes that are apart, and which of the two without its ends meets the other. Assumes points in
// range.
#![tactic(auto)]

ghost use Rattle.std.specs.Prelude.{◌≡◌};
ghost use Rattle.paper.specs.Drawing.{overlap, cuts_open};
ghost use Rattle.fast_meets.specs.Boxes.{lesser, greater, clear};
ghost use Rattle.fast_meets.specs.Theorems.{laps};
ghost use Rattle.drawing_segments.specs.Asked.{TwoSegments, AcrossWithin, SegmentPair};
ghost use Rattle.drawing_segments.specs.Ways.{span_of, spans_apart, both_meet, both_along, both_across, both_cut};

use paper::Point;
use polygon::points::{cross, dot, is_origin, is_zero, minus};

// The box of a segment, by its lowest and its highest corner.
#[derive(Clone, Copy)]
pub struct Span {
    pub low: Point,
    pub high: Point,
}

// Whether the first of two segments without its ends meets the second, and the second the first.
#[derive(Clone, Copy)]
pub struct Both {
    pub first: bool,
    pub second: bool,
}

fn lower(a: i64, b: i64) -> i64
    ensures { result ≡ lesser a b }
{
    if a <= b { a } else { b }
}

fn higher(a: i64, b: i64) -> i64
    ensures { result ≡ greater a b }
{
    if a <= b { b } else { a }
}

pub fn span_of(a: Point, b: Point) -> Span
    ensures { result ≡ span_of a b }
{
    Span {
        low: Point {
            x: lower(a.x, b.x),
            y: lower(a.y, b.y),
            z: lower(a.z, b.z),
        },
        high: Point {
            x: higher(a.x, b.x),
            y: higher(a.y, b.y),
            z: higher(a.z, b.z),
        },
    }
}

// One of the spans from low to high and from l to h ends before the other begins.
fn clear(low: i64, high: i64, l: i64, h: i64) -> bool
    ensures { result ≡ clear low high l h }
{
    (h < low) | (high < l)
}

// All three axes at once, as no branch can be foreseen.
pub fn are_apart(s: Span, t: Span) -> bool
    ensures { result ≡ spans_apart s t }
{
    if clear(s.low.x, s.high.x, t.low.x, t.high.x) {
        return true;
    }
    if clear(s.low.y, s.high.y, t.low.y, t.high.y) {
        return true;
    }
    clear(s.low.z, s.high.z, t.low.z, t.high.z)
}

fn overlap(p: i64, q: i64, m: i64) -> bool
    ensures { result ≡ overlap p q m }
{
    !((p <= 0) & (q <= 0)) & !((m <= p) & (m <= q))
}

fn cuts_open(t: i64, s: i64, m: i64) -> bool
    ensures { result ≡ cuts_open t s m }
{
    (0 < t) & (t < m) & ((0 <= s) & (s <= m))
}

// Of segments in one line: c and d are neither both at or before a nor both at or after b.
fn laps(a: Point, b: Point, c: Point, d: Point) -> bool
    requires { TwoSegments a b c d }
    ensures { result ≡ laps a b c d }
{
    let p = minus(b, a);
    overlap(dot(p, minus(c, a)), dot(p, minus(d, a)), dot(p, p))
}

// Of segments of one direction.
fn along(a: Point, b: Point, c: Point, d: Point) -> Both
    requires { TwoSegments a b c d }
    ensures { result ≡ both_along a b c d }
{
    if !is_origin(cross(minus(b, a), minus(c, a))) {
        return Both {
            first: false,
            second: false,
        };
    }
    Both {
        first: laps(a, b, c, d),
        second: laps(c, d, a, b),
    }
}

// Of segments in one plane, of two directions p and q, whose cross product is n, the second starting at r from the start of the first.
fn cut(p: Point, q: Point, r: Point, n: Point) -> Both
    requires { AcrossWithin p q r n }
    ensures { result ≡ both_cut p q r n }
{
    let t = dot(cross(r, q), n);
    let s = dot(cross(r, p), n);
    let m = dot(n, n);
    Both {
        first: cuts_open(t, s, m),
        second: cuts_open(s, t, m),
    }
}

// The same of segments that may not be in one plane: most are not.
fn across(p: Point, q: Point, r: Point, n: Point) -> Both
    requires { AcrossWithin p q r n }
    ensures { result ≡ both_across p q r n }
{
    if !is_zero(dot(r, n)) {
        return Both {
            first: false,
            second: false,
        };
    }
    cut(p, q, r, n)
}

// Of the segments from a to b and from c to d; `joined` may be set where they have a common end, which spares a cut.
pub fn both_meet(a: Point, b: Point, c: Point, d: Point, joined: bool) -> Both
    requires { SegmentPair a b c d joined }
    ensures { result ≡ both_meet a b c d }
{
    let p = minus(b, a);
    let q = minus(d, c);
    let n = cross(p, q);
    if is_origin(n) {
        return along(a, b, c, d);
    }
    if joined {
        return Both {
            first: false,
            second: false,
        };
    }
    across(p, q, minus(c, a), n)
}
