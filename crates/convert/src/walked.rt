// A drawing walked: what refuses it, 11 to 16, or its candidates in rows, what the walk came to, and three words for each solid.
// Assumes lists that passed 3 to 10.
ghost use Rattle.convert.specs.Walked.{WalkedAt, WalkedIs};

use paper::{FACE_ROOM, MOST_CANDIDATES, MOST_EDGES, Refusal, SOLID_ROOM};
use walk::search;
use walk::tally::Tally;
use walk_input::rows::Counts;
use walk_input::tables;

pub fn walk_drawing(
    xyz: &[i64],
    ends: &[u8],
    limit: u64,
    rows: &mut [u8; FACE_ROOM],
    out: &mut [u64; SOLID_ROOM],
) -> Result<(Counts, Tally), Refusal>
    requires { WalkedAt xyz.now ends.now rows.old out.old }
    ensures { WalkedIs xyz.now ends.now limit rows.old rows.new
        out.old out.new result }
{
    let mut on = [0u64; MOST_EDGES];
    let mut up = [0u64; MOST_EDGES];
    let mut sides = [0u64; MOST_CANDIDATES];
    let mut clashes = [0u64; MOST_CANDIDATES];
    let mut sixes = [0i64; MOST_CANDIDATES];
    let c = tables(
        xyz,
        ends,
        rows,
        &mut on,
        &mut up,
        &mut sides,
        &mut clashes,
        &mut sixes,
    )?;
    let m = ends.len() / 2;
    let n = c.candidates;
    let t = search(&on, &up, m, &sides, &clashes, &sixes, n, limit, out);
    Ok((c, t))
}
