// The neighbour words of a drawing, and rules 12 and 14 on them: LooseVertex, on no edge; Apart, not reachable from vertex 0. Assumes at
// most 32 vertices, and ends in range.
#![tactic(auto)]

ghost use Rattle.std.specs.Prelude.{◌≡◌, [], ◌∷◌, ◌≤◌};
ghost use Rattle.paper.specs.Numbers.{most_vertices};
ghost use Rattle.paper.specs.Refusals as No;
ghost use Rattle.paper.specs.Refusals.{check, first_of};
ghost use Rattle.paper.specs.Drawing.{Wire, edges_of, loose_vertex, vertices_reached, apart};
ghost use Rattle.drawing_links.specs.Neighbours.{neighbour_words, FewEnds, Links};
ghost use Rattle.drawing_links.specs.Reach.{DigitsAre, Grown};

use lists::wide;
use paper::{MOST_VERTICES, Number, Refusal};
use paper_values::refused;
use sets::{Set, is_set};

// One word for each vertex: bit w of word u says whether an edge joins u and w.
pub fn neighbours(ends: &[u8], v: usize) -> [u64; MOST_VERTICES]
    requires { FewEnds ends.now v }
    ensures { result ≡ neighbour_words (edges_of ends.now) v }
{
    let mut near = [0u64; MOST_VERTICES];
    let n = ends.len() / 2;
    for e in 0..n {
        let a = wide(ends[2 * e]);
        let b = wide(ends[2 * e + 1]);
        Set::mark(&mut near, a, b);
        Set::mark(&mut near, b, a);
    }
    near
}

pub fn loose_vertex(near: &[u64; MOST_VERTICES], v: usize) -> Result<(), Refusal>
    requires { v ≤ most_vertices }
    ensures { (d : Wire) → Links near.now v d → result ≡ first_of (check No.LooseVertex (loose_vertex d) ∷ []) }
{
    for u in 0..v {
        if near[u] == 0 {
            return refused(Number::LOOSE_VERTEX, u);
        }
    }
    Ok(())
}

// The vertices of a set, and those that one edge more leads to.
fn further(near: &[u64; MOST_VERTICES], v: usize, set: u64) -> u64
    requires { v ≤ most_vertices }
    ensures { (d : Wire) → Links near.now v d → Grown set v d result }
{
    let mut more = set;
    for u in 0..v {
        if is_set(set, u) {
            more = more | near[u];
        }
    }
    more
}

// The vertices that edges lead to from vertex 0: once a step finds no more, no later one does.
fn vertices_reached(near: &[u64; MOST_VERTICES], v: usize) -> u64
    requires { v ≤ most_vertices }
    ensures { (d : Wire) → Links near.now v d → DigitsAre result v (vertices_reached d v) }
{
    let mut set = 1u64;
    for k in 0..v {
        let more = further(near, v, set);
        if more == set {
            return set;
        }
        set = more;
    }
    set
}

pub fn apart(near: &[u64; MOST_VERTICES], v: usize) -> Result<(), Refusal>
    requires { v ≤ most_vertices }
    ensures { (d : Wire) → Links near.now v d → result ≡ first_of (check No.Apart (apart d) ∷ []) }
{
    let set = vertices_reached(near, v);
    for w in 0..v {
        if !is_set(set, w) {
            return refused(Number::APART, w);
        }
    }
    Ok(())
}
