// Refusals 23 and 24, edge by edge: EdgeCount, not in two faces of the list; Direction, both run one way. Assumes at most 64 edges.
ghost use Rattle.std.specs.Prelude.{◌≤◌};
ghost use Rattle.paper.specs.Numbers.{most_edges};
ghost use Rattle.paper.specs.Refusals as No;
ghost use Rattle.verdict_tests.specs.Tests.{ToldAt, Counting, Running, edge_count_of, direction_of};

use paper::{MOST_EDGES, Number, Refusal};
use paper_values::refused;
use sets::Wide;
use walk_leaf::once_each_way;

pub fn edge_count(on: &[u64; MOST_EDGES], m: usize, taken: Wide) -> Result<(), Refusal>
    requires { m ≤ most_edges }
    ensures { ToldAt (Counting on.now m taken) No.EdgeCount edge_count_of result }
{
    for e in 0..m {
        let mine = Wide::at(on, e).and(taken);
        if mine.count() != 2 {
            return refused(Number::EDGE_COUNT, e);
        }
    }
    Ok(())
}

pub fn direction(
    on: &[u64; MOST_EDGES],
    up: &[u64; MOST_EDGES],
    m: usize,
    taken: Wide,
    turned: Wide,
) -> Result<(), Refusal>
    requires { m ≤ most_edges }
    ensures { ToldAt (Running on.now up.now m taken turned) No.Direction direction_of result }
{
    for e in 0..m {
        let mask = Wide::at(on, e);
        if !once_each_way(mask, Wide::at(up, e), taken, turned) {
            return refused(Number::DIRECTION, e);
        }
    }
    Ok(())
}
