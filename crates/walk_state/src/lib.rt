// The walk's state and the sweeps over it: those taken and those undecided as sets, one edge settled, edges swept again only where a
// candidate on them was decided, and the edge of the next assumption. Assumes at most 64 candidates and 64 edges.
#![tactic(auto)]

ghost use Rattle.std.specs.Prelude.{◌<◌};
ghost use Rattle.sets.specs.Kinds.{Has};
ghost use Rattle.sets.specs.Sets.{wides};
ghost use Rattle.paper.specs.Walk.{Taken, Rejected};
ghost use Rattle.walk_state.specs.State.{Decided, DecidedAll, SettledOn};
ghost use Rattle.walk_state.specs.Sweeps.{Gathered, MarksTurned, EdgePassed, SweptOut};
ghost use Rattle.walk_state.specs.Choice.{From, Opened};

use paper::{MOST_CANDIDATES, MOST_EDGES};
use sets::Wide;

#[derive(Clone, Copy)]
pub struct State {
    pub taken: Wide,
    pub undecided: Wide,
}

// What settling an edge leaves: the state, and the candidates that it decided.
#[derive(Clone, Copy)]
struct Change {
    pub state: State,
    pub decided: Wide,
}

impl State {
    pub fn with_taken(self, k: usize) -> State
        requires { Has wides self.undecided k }
        ensures { Decided self k Taken result }
    {
        State {
            taken: self.taken.with(k),
            undecided: self.undecided.without(k),
        }
    }

    pub fn with_rejected(self, k: usize) -> State
        requires { Has wides self.undecided k }
        ensures { Decided self k Rejected result }
    {
        let kept = self.taken;
        State {
            taken: kept,
            undecided: self.undecided.without(k),
        }
    }

    // All of a set are decided, and `taken` are those taken after it.
    fn with_decided(self, set: Wide, taken: Wide) -> Change
        ensures { DecidedAll self set taken result }
    {
        let state = State {
            taken: taken,
            undecided: self.undecided.minus(set),
        };
        Change {
            state: state,
            decided: set,
        }
    }

    // None where the edge is contradicted. On the edge M are taken, the ones of `on`, and L undecided, the ones of `free`. L is asked
    // where M is 0 and where M is 1. A rest has one fewer, so that each count is only told from 1 or from 2: a machine that has no
    // instruction for counts need not count further.
    fn settled_on(self, mask: Wide) -> Option<Change>
        ensures { SettledOn self mask result }
    {
        let taken = self.taken;
        let on = mask.and(taken);
        let free = mask.and(self.undecided);
        if 1 < on.count() {
            if 1 < on.rest().count() {
                return None;
            }
            return Some(self.with_decided(free, taken));
        }
        if on.count() < 1 {
            if free.count() < 2 {
                return None;
            }
            if free.rest().count() < 2 {
                return Some(self.with_decided(free, taken.or(free)));
            }
            return Some(self.with_decided(Wide::none(), taken));
        }
        if free.count() < 1 {
            return None;
        }
        if free.count() < 2 {
            return Some(self.with_decided(free, taken.or(free)));
        }
        Some(self.with_decided(Wide::none(), taken))
    }
}

// The edges to pass in this sweep, and those to pass in the next.
#[derive(Clone, Copy)]
struct Marks {
    pub ahead: Wide,
    pub later: Wide,
}

// The edges of all candidates of a set.
fn gathered(sides: &[u64; MOST_CANDIDATES], set: Wide) -> Wide
    ensures { Gathered sides.now set result }
{
    let mut all = Wide::none();
    let mut left = set;
    while let Some(k) = left.pop_first() {
        all = all.or(Wide::at(sides, k));
    }
    all
}

// If none is ahead, those left for later are.
fn turned(ahead: Wide, later: Wide) -> Marks
    ensures { MarksTurned ahead later result }
{
    if ahead.is_empty() {
        return Marks {
            ahead: later,
            later: Wide::none(),
        };
    }
    Marks {
        ahead: ahead,
        later: later,
    }
}

// The marks after the lowest edge ahead is passed and a set was decided on it: edges below it wait for the next sweep, and it itself is
// settled.
fn marked(sides: &[u64; MOST_CANDIDATES], m: Marks, decided: Wide) -> Marks
    requires { 0 < wides.size m.ahead }
    ensures { EdgePassed sides.now m decided result }
{
    let ahead = m.ahead;
    let later = m.later;
    let e = ahead.lowest();
    let after = ahead.rest();
    if decided.is_empty() {
        return turned(after, later);
    }
    let touched = gathered(sides, decided);
    let below = Wide::lowest_of(e);
    turned(
        after.or(touched.minus(below).without(e)),
        later.or(touched.and(below)),
    )
}

// "Sweep edges in order until a whole sweep changes nothing or a contradiction appears": none then.
pub fn settled(
    on: &[u64; MOST_EDGES],
    sides: &[u64; MOST_CANDIDATES],
    s: State,
    changed: Wide,
) -> Option<State>
    ensures { SweptOut on.now sides.now s changed result }
{
    let mut state = s;
    let mut marks = Marks {
        ahead: changed,
        later: Wide::none(),
    };
    while !marks.ahead.is_empty() {
        let e = marks.ahead.lowest();
        let change = state.settled_on(Wide::at(on, e))?;
        state = change.state;
        marks = marked(sides, marks, change.decided);
    }
    Some(state)
}

#[derive(Clone, Copy)]
pub struct Opening {
    pub edge: usize,
    pub free: Wide,
}

// The lowest edge from `from` on that has one undecided, and those undecided on it; m and all where there is none.
pub fn first_open(on: &[u64; MOST_EDGES], m: usize, undecided: Wide, from: usize) -> Opening
    requires { From m from }
    ensures { Opened on.now m undecided from result }
{
    for edge in from..m {
        let free = Wide::at(on, edge).and(undecided);
        if !free.is_empty() {
            return Opening { edge, free };
        }
    }
    Opening {
        edge: m,
        free: undecided,
    }
}
