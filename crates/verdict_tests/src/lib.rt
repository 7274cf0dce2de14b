// Refusals 23 to 27 of a face list whose faces are candidates, each once: the tests (i) to (v) of the selection that it is, with the
// directions that it gives. Assumes at most 64 edges and candidates and 42 faces, and words that stand for the drawing's tables.
#![tactic(auto)]

mod edges;
mod faces;

ghost use Rattle.paper.specs.Refusals as No;
ghost use Rattle.walk_tables.specs.Words.{SmallSixes, walk_tables};
ghost use Rattle.verdict_tests.specs.Tests.{ToldAt, Weighing, inward_of, Testing, Tested};

use edges::{direction, edge_count};
use faces::{clash, pieces};
use paper::{MOST_CANDIDATES, MOST_EDGES, MOST_FACES, Number, Refusal};
use paper_values::refused;
use sets::Wide;
use walk_leaf::weight;

// 26: six volumes is not above zero.
fn inward(sixes: &[i64; MOST_CANDIDATES], taken: Wide, turned: Wide) -> Result<(), Refusal>
    requires { SmallSixes sixes.now }
    ensures { ToldAt (Weighing sixes.now taken turned) No.Inward inward_of result }
{
    if 0 < weight(sixes, taken, turned) {
        return Ok(());
    }
    refused(Number::INWARD, 0)
}

// 23 to 27 of a list whose faces are candidates, each once: `numbers` are those of its faces, in the list's order.
pub fn tested(
    on: &[u64; MOST_EDGES],
    up: &[u64; MOST_EDGES],
    m: usize,
    sides: &[u64; MOST_CANDIDATES],
    clashes: &[u64; MOST_CANDIDATES],
    sixes: &[i64; MOST_CANDIDATES],
    numbers: &[u8; MOST_FACES],
    count: usize,
    taken: Wide,
    turned: Wide,
) -> Result<(), Refusal>
    requires { Testing m sixes.now numbers.now count }
    ensures { Tested
        (walk_tables on.now up.now sides.now clashes.now sixes.now)
        m numbers.now count taken turned result }
{
    edge_count(on, m, taken)?;
    direction(on, up, m, taken, turned)?;
    pieces(on, up, sides, numbers, count, taken)?;
    inward(sixes, taken, turned)?;
    clash(clashes, numbers, count, taken)
}
