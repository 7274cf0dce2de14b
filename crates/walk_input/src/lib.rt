// The way from a drawing to the tables that the walk is lent, or to what refuses it: rules, loops, candidates, words. Assumes lists that
// passed 3 to 10.
#![tactic(auto)]

pub mod rows;
pub mod words;

ghost use Rattle.walk_tables.specs.Words.{walk_tables};
ghost use Rattle.walk_input.specs.Tables.{TablesAt, TabledIs};

use drawing_links::neighbours;
use drawing_rules::drawing_rules;
use loop_words::number_edges;
use paper::{FACE_ROOM, MOST_CANDIDATES, MOST_EDGES, MOST_LOOPS, Number, Refusal};
use paper_values::refused;
use rows::{Counts, candidate_rows};
use words::put_words;

// Refusals 11 to 16, or the candidates in rows with their tables.
pub fn tables(
    xyz: &[i64],
    ends: &[u8],
    rows: &mut [u8; FACE_ROOM],
    on: &mut [u64; MOST_EDGES],
    up: &mut [u64; MOST_EDGES],
    sides: &mut [u64; MOST_CANDIDATES],
    clashes: &mut [u64; MOST_CANDIDATES],
    sixes: &mut [i64; MOST_CANDIDATES],
) -> Result<Counts, Refusal>
    requires { TablesAt xyz.now ends.now rows.old (walk_tables on.old up.old sides.old clashes.old sixes.old) }
    ensures { TabledIs xyz.now ends.now rows.old rows.new
        (walk_tables on.new up.new sides.new clashes.new sixes.new) result }
{
    let near = neighbours(ends, xyz.len() / 3);
    drawing_rules(xyz, ends, &near)?;
    let number = number_edges(ends);
    let mut corners = [0u64; MOST_CANDIDATES];
    let c = candidate_rows(xyz, ends, &near, &number, rows, &mut corners, sides);
    if MOST_LOOPS < c.loops {
        return refused(Number::MANY_LOOPS, 0);
    }
    let n = c.candidates;
    if MOST_CANDIDATES < n {
        return refused(Number::MANY_CANDIDATES, 0);
    }
    put_words(
        xyz, rows, n, &near, &number, &corners, sides, on, up, clashes, sixes,
    );
    Ok(c)
}
