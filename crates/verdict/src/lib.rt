// The face-list check: whether a list of faces that someone else sent names a solid of a drawing, with its directions. Nothing is
// assumed of any input.
#![tactic(auto)]

mod faces;

ghost use Rattle.std.specs.Prelude.{◌≡◌};
ghost use Rattle.paper.specs.Reading.{verdict_says};
ghost use Rattle.paper.specs.Verdict.{verdict_lists, verdict_sheet};
ghost use Rattle.paper_laws.specs.InRange.{PassedLists};
ghost use Rattle.walk_input.specs.Given.{coordinates_of, links_of, GivenDrawing};
ghost use Rattle.verdict.specs.Checked.{VerdictChecked};

use drawing_lists::lend::lent;
use faces::faces_checked;
use paper::{Drawing, FACE_ROOM, FILL, MOST_CANDIDATES, MOST_EDGES, Refusal};
use sheet_reader::read_sheet;
use walk_input::tables;

// Refusals 11 to 16, then 20 to 27, of lists that passed 3 to 10.
fn checked(xyz: &[i64], ends: &[u8], list: &[u8]) -> Result<(), Refusal>
    requires { PassedLists xyz.now ends.now }
    ensures { VerdictChecked xyz.now ends.now list.now result }
{
    let mut rows = [FILL; FACE_ROOM];
    let mut on = [0u64; MOST_EDGES];
    let mut up = [0u64; MOST_EDGES];
    let mut sides = [0u64; MOST_CANDIDATES];
    let mut clashes = [0u64; MOST_CANDIDATES];
    let mut sixes = [0i64; MOST_CANDIDATES];
    let c = tables(
        xyz,
        ends,
        &mut rows,
        &mut on,
        &mut up,
        &mut sides,
        &mut clashes,
        &mut sixes,
    )?;
    let v = xyz.len() / 3;
    let m = ends.len() / 2;
    faces_checked(
        list,
        v,
        &rows,
        c.candidates,
        &on,
        &up,
        m,
        &sides,
        &clashes,
        &sixes,
    )
}

// Checks a list against two lent lists: refusals 5, 8 to 16, then 20 to 27, or accepted.
pub fn check(xyz: &[i64], ends: &[u8], list: &[u8]) -> Result<(), Refusal>
    ensures result { result ≡ verdict_lists xyz.now ends.now list.now }
    ensures said { verdict_says result ≡ verdict_says (verdict_lists xyz.now ends.now list.now) }
{
    lent(xyz, ends)?;
    checked(xyz, ends, list)
}

// The same of a drawing by value, whose arrays have its lists in front.
fn drawing_checked(d: Drawing, list: &[u8]) -> Result<(), Refusal>
    requires { GivenDrawing d }
    ensures { VerdictChecked (coordinates_of d) (links_of d) list.now result }
{
    let xyz = d.xyz;
    let ends = d.ends;
    let m = 3 * d.vertices;
    let n = 2 * d.edges;
    checked(&xyz[..m], &ends[..n], list)
}

// Checks a list against a sheet: refusals 3 to 16, then 20 to 27, or accepted.
pub fn check_sheet(sheet: &[u8], list: &[u8]) -> Result<(), Refusal>
    ensures result { result ≡ verdict_sheet sheet.now list.now }
    ensures said { verdict_says result ≡ verdict_says (verdict_sheet sheet.now list.now) }
{
    let drawing = read_sheet(sheet)?;
    drawing_checked(drawing, list)
}
