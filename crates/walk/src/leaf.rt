// A state with nothing undecided: tested, and stored where it is a solid and there is room. Assumes two taken on each edge.
ghost use Rattle.walk_tables.specs.Words.{walk_tables};
ghost use Rattle.walk.specs.Leaf.{Keeping, KeepsSolid};

use super::tally::Tally;
use paper::{MOST_CANDIDATES, MOST_EDGES, MOST_SOLIDS, Number, SET_WORDS, SOLID_ROOM, WORDS};
use sets::Set;
use walk_leaf::judge;

pub fn kept(
    on: &[u64; MOST_EDGES],
    up: &[u64; MOST_EDGES],
    m: usize,
    sides: &[u64; MOST_CANDIDATES],
    clashes: &[u64; MOST_CANDIDATES],
    sixes: &[i64; MOST_CANDIDATES],
    taken: Set,
    t: Tally,
    out: &mut [u64; SOLID_ROOM],
) -> Tally
    requires { Keeping m sixes.now t out.old }
    ensures { KeepsSolid
        (walk_tables on.now up.now sides.now clashes.now sixes.now)
        m taken t out.old result out.new }
{
    let Some(solid) = judge(on, up, m, sides, clashes, sixes, taken) else {
        return t;
    };
    let k = t.found;
    if MOST_SOLIDS <= k {
        return Tally {
            work: t.work,
            found: k,
            ended: Number::MANY.value,
        };
    }
    out[WORDS * k] = taken.word;
    out[WORDS * k + SET_WORDS] = solid.turned.word;
    out[WORDS * k + 2 * SET_WORDS] = solid.six;
    Tally {
        work: t.work,
        found: k + 1,
        ended: t.ended,
    }
}
