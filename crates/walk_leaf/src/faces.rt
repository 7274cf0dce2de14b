// The faces of a selection, gone round once each: from one of them over its edges, then from each face that is reached so. Assumes nothing.
ghost use Rattle.std.specs.Prelude.{◌<◌};
ghost use Rattle.paper.specs.Numbers.{most_candidates};
ghost use Rattle.walk_leaf.specs.Faces.{TurnedAt, AtEdge, AroundFace, FromFace};

use paper::{MOST_CANDIDATES, MOST_EDGES};
use sets::Wide;

// The faces that are reached, those of them whose edges are still to be gone over, and those that are turned against their normal form.
#[derive(Clone, Copy)]
pub struct Going {
    pub reached: Wide,
    pub waiting: Wide,
    pub turned: Wide,
}

// Those turned after an edge of face f: the others on it are, where they run it as f does.
fn turned_at(up: Wide, turned: Wide, f: usize, other: Wide) -> Wide
    requires { f < most_candidates }
    ensures { TurnedAt up turned f other result }
{
    let runs = up.unlike(turned);
    let down = Wide::just(f).and(runs).is_empty();
    let other_down = other.and(runs).is_empty();
    if down ^ other_down {
        return turned;
    }
    turned.or(other)
}

// Over an edge of face f, where none of the others on it is reached yet: they are, and they wait.
fn at_edge(mask: Wide, up: Wide, taken: Wide, f: usize, g: Going) -> Going
    requires { f < most_candidates }
    ensures { AtEdge mask up taken f g result }
{
    let reached = g.reached;
    let waiting = g.waiting;
    let turned = g.turned;
    let other = mask.and(taken).without(f);
    if !reached.and(other).is_empty() {
        return g;
    }
    Going {
        reached: reached.or(other),
        waiting: waiting.or(other),
        turned: turned_at(up, turned, f, other),
    }
}

// Over all edges of face f, in order.
fn around_face(
    on: &[u64; MOST_EDGES],
    up: &[u64; MOST_EDGES],
    edges: Wide,
    taken: Wide,
    f: usize,
    g: Going,
) -> Going
    requires { f < most_candidates }
    ensures { AroundFace on.now up.now edges taken f g result }
{
    let mut going = g;
    let mut left = edges;
    while let Some(e) = left.pop_first() {
        let mask = Wide::at(on, e);
        going = at_edge(mask, Wide::at(up, e), taken, f, going);
    }
    going
}

// From face k until none waits.
pub fn from_face(
    on: &[u64; MOST_EDGES],
    up: &[u64; MOST_EDGES],
    sides: &[u64; MOST_CANDIDATES],
    taken: Wide,
    k: usize,
) -> Going
    requires { k < most_candidates }
    ensures { FromFace on.now up.now sides.now taken k result }
{
    let alone = Wide::just(k);
    let mut going = Going {
        reached: alone,
        waiting: alone,
        turned: Wide::none(),
    };
    while let Some(f) = going.waiting.pop_first() {
        let edges = Wide::at(sides, f);
        going = around_face(on, up, edges, taken, f, going);
    }
    going
}
