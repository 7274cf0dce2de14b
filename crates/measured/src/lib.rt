// The stages of a conversion one by one, and a conversion as a whole, for a program that counts what each costs (tools/measure). No entry
// points: each asks what its stage asks, and promises what that promises.
#![tactic(auto)]

ghost use Rattle.std.specs.Prelude.{◌≡◌};
ghost use Rattle.paper.specs.Refusals.{first_of};
ghost use Rattle.paper.specs.Drawing.{wire, drawing_checks};
ghost use Rattle.paper.specs.Reading.{answer_says};
ghost use Rattle.paper_laws.specs.InRange.{InRange};
ghost use Rattle.loop_known.specs.Known.{LoopsKnown};
ghost use Rattle.candidates.specs.Keeps.{Keeps, Kept};
ghost use Rattle.walk_tables.specs.Words.{walk_tables};
ghost use Rattle.walk_input.specs.Words.{CandidatesListed, WordsAt, WordsMade};
ghost use Rattle.walk.specs.Walk.{Searching};
ghost use Rattle.measured.specs.Asked.{Loops};
ghost use Rattle.measured.specs.Costs.{WorkOf, cost_of, CostOf};

use loop_words::PAIRS;
use paper::{
    Conversion, FACE_ROOM, LOOP_ROOM, MOST_CANDIDATES, MOST_EDGES, MOST_LOOPS, MOST_VERTICES,
    Refusal, SOLID_ROOM,
};

fn number_of(answer: Result<(), Refusal>) -> u64
    ensures { result ≡ (answer_says answer).number }
{
    match answer {
        Err(r) => u64::from(r.number),
        Ok(()) => 0,
    }
}

// Rules 11 to 14, with the neighbour words: the number of the one that refuses the drawing, or 0.
#[unsafe(no_mangle)]
pub extern "C" fn measured_rules(xyz: &[i64], ends: &[u8]) -> u64
    requires { InRange xyz.now ends.now }
    ensures { result ≡ (answer_says (first_of (drawing_checks (wire xyz.now ends.now)))).number }
{
    let near = drawing_links::neighbours(ends, xyz.len() / 3);
    number_of(drawing_rules::drawing_rules(xyz, ends, &near))
}

// All loops with their words: how many, 129 for more than 128.
#[unsafe(no_mangle)]
pub extern "C" fn measured_loops(
    xyz: &[i64],
    ends: &[u8],
    near: &[u64; MOST_VERTICES],
    table: &mut [u8; LOOP_ROOM],
    planes: &mut [u64; MOST_LOOPS],
    corners: &mut [u64; MOST_LOOPS],
    sides: &mut [u64; MOST_LOOPS],
) -> usize
    requires { Loops xyz.now ends.now near.now table.old planes.old corners.old sides.old }
    ensures { LoopsKnown xyz.now ends.now result table.new planes.new corners.new
        sides.new }
{
    let number = loop_words::number_edges(ends);
    loop_known::known_loops(xyz, near, &number, table, planes, corners, sides)
}

// The candidates with their words: how many, 65 for more than 64.
#[unsafe(no_mangle)]
pub extern "C" fn measured_candidates(
    xyz: &[i64],
    ends: &[u8],
    table: &[u8],
    n: usize,
    corners: &[u64; MOST_LOOPS],
    sides: &[u64; MOST_LOOPS],
    planes: &[u64; MOST_LOOPS],
    rows: &mut [u8; FACE_ROOM],
    kept_corners: &mut [u64; MOST_CANDIDATES],
    kept_sides: &mut [u64; MOST_CANDIDATES],
) -> usize
    requires { Keeps xyz.now ends.now table.now n corners.now sides.now planes.now
        rows.old kept_corners.old kept_sides.old }
    ensures { Kept (wire xyz.now ends.now) result rows.old rows.new
        kept_corners.old kept_corners.new kept_sides.old kept_sides.new }
{
    candidates::candidates(
        xyz,
        ends,
        table,
        n,
        corners,
        sides,
        planes,
        rows,
        kept_corners,
        kept_sides,
    )
}

// The words of edges, the candidates that clash and their parts of six volumes.
#[unsafe(no_mangle)]
pub extern "C" fn measured_clashes(
    xyz: &[i64],
    rows: &[u8; FACE_ROOM],
    n: usize,
    near: &[u64; MOST_VERTICES],
    number: &[u8; PAIRS],
    corners: &[u64; MOST_CANDIDATES],
    sides: &[u64; MOST_CANDIDATES],
    on: &mut [u64; MOST_EDGES],
    up: &mut [u64; MOST_EDGES],
    clashes: &mut [u64; MOST_CANDIDATES],
    sixes: &mut [i64; MOST_CANDIDATES],
)
    requires { WordsAt xyz.now rows.now n near.now number.now corners.now
        (walk_tables on.old up.old sides.now clashes.old sixes.old) }
    ensures { (l : CandidatesListed xyz.now rows.now n near.now number.now
        corners.now sides.now)
        → WordsMade l sixes.old
        (walk_tables on.new up.new sides.now clashes.new sixes.new) }
{
    walk_input::words::put_words(
        xyz, rows, n, near, number, corners, sides, on, up, clashes, sixes,
    );
}

// The walk: how many assumptions it made.
#[unsafe(no_mangle)]
pub extern "C" fn measured_walk(
    on: &[u64; MOST_EDGES],
    up: &[u64; MOST_EDGES],
    m: usize,
    sides: &[u64; MOST_CANDIDATES],
    clashes: &[u64; MOST_CANDIDATES],
    sixes: &[i64; MOST_CANDIDATES],
    n: usize,
    limit: u64,
    out: &mut [u64; SOLID_ROOM],
) -> u64
    requires { Searching m sixes.now n out.old }
    ensures { WorkOf
        (walk_tables on.now up.now sides.now clashes.now sixes.now)
        m n limit out.old result out.new }
{
    let t = walk::search(on, up, m, sides, clashes, sixes, n, limit, out);
    t.work
}

// The work of a conversion's walk, or the number of what refuses it before.
fn cost(answer: Conversion) -> u64
    ensures { result ≡ cost_of answer }
{
    match answer {
        Conversion::One { work, .. } => work,
        Conversion::Several { work, .. } => work,
        Conversion::NoSolid { work, .. } => work,
        Conversion::Many { work, .. } => work,
        Conversion::TooLong { work, .. } => work,
        Conversion::Refused(r) => u64::from(r.number),
    }
}

// A conversion of lent lists: how many assumptions its walk made, or the number of 1 to 16 that refuses it.
#[unsafe(no_mangle)]
pub extern "C" fn measured_conversion(
    xyz: &[i64],
    ends: &[u8],
    limit: u64,
    faces: &mut [u8],
    solids: &mut [u64],
) -> u64
    ensures { CostOf xyz.now ends.now limit faces.old solids.old result faces.new
        solids.new }
{
    cost(convert::convert(xyz, ends, limit, faces, solids))
}
