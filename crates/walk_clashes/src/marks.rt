// One bit that is set in the words of all numbers of a set, one way or both, and of each vertex the word of the candidates with it.
// Assumes that lists have a word for each.
ghost use Rattle.walk_clashes.specs.Marking.{MarkRoom, MarkedBy, BothRoom, BothBy};
ghost use Rattle.walk_clashes.specs.Marking.{CornersOf, CornerRoom, VertexWords};

use paper::{MOST_CANDIDATES, MOST_VERTICES};
use sets::{Set, Wide};

// Number k goes into the words of all in the set.
pub fn mark_all(words: &mut [u64], set: Set, k: usize)
    requires { MarkRoom words.old set k }
    ensures { MarkedBy set k words.old words.new }
{
    let mut open = set;
    while let Some(j) = open.pop_first() {
        Wide::mark(words, j, k);
    }
}

// Both ways: the set goes into the word of k too.
pub fn mark_both(words: &mut [u64; MOST_CANDIDATES], set: Wide, k: usize)
    requires { BothRoom words.old set k }
    ensures { BothBy set k words.old words.new }
{
    let own = Wide::at(words, k);
    Wide::put(words, k, own.or(set));
    mark_all(words, set, k);
}

// Of each vertex the candidates with it, from the words of n candidates' corners.
pub fn vertex_words(corners: &[u64; MOST_CANDIDATES], n: usize, at: &mut [u64; MOST_VERTICES])
    requires { CornerRoom corners.now n at.old }
    ensures { (w : CornersOf corners.now n) → VertexWords w at.new }
{
    for k in 0..n {
        let set = Set::at(corners, k);
        mark_all(at, set, k);
    }
}
