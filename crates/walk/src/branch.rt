// The two branches of an assumption, each from the state before it. Assumes a state with a candidate undecided.
ghost use Rattle.walk.specs.Branch.{Branching, Branches};

use paper::{MOST_CANDIDATES, MOST_EDGES};
use sets::Wide;
use walk_state::{State, first_open};

// Where a branch starts: its state, the edges on which a candidate was decided since they were last passed, and the edge of the
// last choice, below which none is undecided.
#[derive(Clone, Copy)]
pub struct Branch {
    pub state: State,
    pub changed: Wide,
    pub edge: usize,
}

#[derive(Clone, Copy)]
pub struct Both {
    pub take: Branch,
    pub reject: Branch,
}

// "find the lowest edge with an undecided candidate and, on it, the lowest such candidate"
pub fn branches(
    on: &[u64; MOST_EDGES],
    m: usize,
    sides: &[u64; MOST_CANDIDATES],
    s: State,
    from: usize,
) -> Both
    requires { Branching m s from }
    ensures { Branches on.now m sides.now s from result }
{
    let open = first_open(on, m, s.undecided, from);
    let edge = open.edge;
    let k = open.free.lowest();
    let changed = Wide::at(sides, k);
    let taking = s.with_taken(k);
    let rejecting = s.with_rejected(k);
    Both {
        take: Branch {
            state: taking,
            changed: changed,
            edge: edge,
        },
        reject: Branch {
            state: rejecting,
            changed: changed,
            edge: edge,
        },
    }
}
