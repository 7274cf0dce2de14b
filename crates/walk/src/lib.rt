// The walk: of a state swept until nothing changes the test, or one assumption, the take branch first and then the reject branch, each from
// the state before it. Assumes the tables of at most 64 candidates and 64 edges.
#![tactic(auto)]

mod branch;
mod leaf;
pub mod tally;

ghost use Rattle.walk_tables.specs.Words.{walk_tables};
ghost use Rattle.walk.specs.Walk.{Walking, Walked, Searching, Searched};

use branch::{Branch, branches};
use leaf::kept;
use paper::{MOST_CANDIDATES, MOST_EDGES, SOLID_ROOM};
use sets::Wide;
use tally::Tally;
use walk_state::{State, settled};

fn walk(
    on: &[u64; MOST_EDGES],
    up: &[u64; MOST_EDGES],
    m: usize,
    sides: &[u64; MOST_CANDIDATES],
    clashes: &[u64; MOST_CANDIDATES],
    sixes: &[i64; MOST_CANDIDATES],
    b: Branch,
    limit: u64,
    t: Tally,
    out: &mut [u64; SOLID_ROOM],
) -> Tally
    requires { Walking m sixes.now b t out.old }
    ensures { Walked
        (walk_tables on.now up.now sides.now clashes.now sixes.now)
        m b limit t out.old result out.new }
{
    if t.ended != 0 {
        return t;
    }
    let Some(s) = settled(on, sides, b.state, b.changed) else {
        return t;
    };
    let taken = s.taken;
    if s.undecided.is_empty() {
        return kept(on, up, m, sides, clashes, sixes, taken, t, out);
    }
    let next = branches(on, m, sides, s, b.edge);
    let take = next.take;
    let reject = next.reject;
    let a = t.assumed(limit);
    let d = walk(on, up, m, sides, clashes, sixes, take, limit, a, out);
    let c = d.assumed(limit);
    walk(on, up, m, sides, clashes, sixes, reject, limit, c, out)
}

// The whole walk of n candidates on m edges: what it comes to, with a record in `out` for each solid.
pub fn search(
    on: &[u64; MOST_EDGES],
    up: &[u64; MOST_EDGES],
    m: usize,
    sides: &[u64; MOST_CANDIDATES],
    clashes: &[u64; MOST_CANDIDATES],
    sixes: &[i64; MOST_CANDIDATES],
    n: usize,
    limit: u64,
    out: &mut [u64; SOLID_ROOM],
) -> Tally
    requires { Searching m sixes.now n out.old }
    ensures { Searched
        (walk_tables on.now up.now sides.now clashes.now sixes.now)
        m n limit out.old result out.new }
{
    let state = State {
        taken: Wide::none(),
        undecided: Wide::lowest_of(n),
    };
    let all = Branch {
        state: state,
        changed: Wide::lowest_of(m),
        edge: 0,
    };
    let none = Tally {
        work: 0,
        found: 0,
        ended: 0,
    };
    walk(on, up, m, sides, clashes, sixes, all, limit, none, out)
}
