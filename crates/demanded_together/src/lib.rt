// Public functions called one after the other, with what the one before left: the demands that speak of more than one call. Nothing is
// assumed of any input.
#![tactic(auto)]

ghost use Rattle.std.specs.Prelude.{◌≡◌, true, length, drop, ◌*◌, ◌≤◌};
ghost use Rattle.paper.specs.Numbers.{solid_words};
ghost use Rattle.paper.specs.Sheet.{sheet_as};
ghost use Rattle.paper.specs.FaceList.{solid_faces};
ghost use Rattle.paper_laws.specs.InRange.{Held};
ghost use Rattle.means_report.specs.Report.{solid_count};
ghost use Rattle.demands.specs.Input.{lent};
ghost use Rattle.demands.specs.Input as Input;
ghost use Rattle.demanded_together.specs.Together.{ReadsBack, WrittenFrom, WritesBack, Agrees, AcceptedAsSent};
ghost use Rattle.demanded_together.specs.Twice.{ConvertsTwice};

use convert::{convert, convert_sheet};
use faces_writer::write_faces;
use paper::{Conversion, Drawing, LIST_ROOM, Refusal, WORDS};
use sheet_reader::read_sheet;
use sheet_writer::write_sheet;
use verdict::{check, check_sheet};

// What is said of one drawing by its conversion and by the check of two face lists.
#[derive(Clone, Copy)]
pub struct Told {
    pub conversion: Conversion,
    pub first: Result<(), Refusal>,
    pub second: Result<(), Refusal>,
}

// What is said of two drawings by their conversions.
#[derive(Clone, Copy)]
pub struct Pair {
    pub first: Conversion,
    pub second: Conversion,
}

// A drawing is written out, and what was written is read.
pub fn written_and_read(xyz: &[i64], ends: &[u8], room: &mut [u8]) -> Result<Drawing, Refusal>
    ensures { ReadsBack xyz.now ends.now room.old (sheet_as result) room.new }
{
    match write_sheet(xyz, ends, room) {
        Ok(n) => read_sheet(&room[..n]),
        Err(f) => Err(f),
    }
}

// A drawing by value: its lists stand in front of its arrays.
fn drawing_written(d: Drawing, room: &mut [u8]) -> Result<usize, Refusal>
    requires { Held d }
    ensures { WrittenFrom d room.old result room.new }
{
    let xyz = d.xyz;
    let ends = d.ends;
    let m = 3 * d.vertices;
    let n = 2 * d.edges;
    write_sheet(&xyz[..m], &ends[..n], room)
}

// A sheet is read, and the drawing that was read is written out.
pub fn read_and_written(sheet: &[u8], room: &mut [u8]) -> Result<usize, Refusal>
    ensures { WritesBack sheet.now room.old result room.new }
{
    let drawing = read_sheet(sheet)?;
    drawing_written(drawing, room)
}

// A drawing is converted, and two face lists are checked against it.
pub fn converted_and_checked(
    xyz: &[i64],
    ends: &[u8],
    limit: u64,
    faces: &mut [u8],
    solids: &mut [u64],
    list: &[u8],
    other: &[u8],
) -> Told
    ensures { Agrees (lent xyz.now ends.now) limit faces.old solids.old
        list.now other.now faces.new solids.new result }
{
    Told {
        conversion: convert(xyz, ends, limit, faces, solids),
        first: check(xyz, ends, list),
        second: check(xyz, ends, other),
    }
}

// The same of a sheet.
pub fn sheet_converted_and_checked(
    sheet: &[u8],
    limit: u64,
    faces: &mut [u8],
    solids: &mut [u64],
    list: &[u8],
    other: &[u8],
) -> Told
    ensures { Agrees (Input.sheet sheet.now) limit faces.old solids.old list.now
        other.now faces.new solids.new result }
{
    Told {
        conversion: convert_sheet(sheet, limit, faces, solids),
        first: check_sheet(sheet, list),
        second: check_sheet(sheet, other),
    }
}

// T-13, "The body doesn't depend on where it was drawn": two drawings are converted, each in rooms of its own.
pub fn converted_twice(
    xyz: &[i64],
    ends: &[u8],
    limit: u64,
    faces: &mut [u8],
    solids: &mut [u64],
    other_xyz: &[i64],
    other_ends: &[u8],
    other_limit: u64,
    other_faces: &mut [u8],
    other_solids: &mut [u64],
) -> Pair
    ensures { ConvertsTwice (lent xyz.now ends.now)
        (lent other_xyz.now other_ends.now) limit other_limit
        faces.old solids.old other_faces.old other_solids.old
        faces.new solids.new other_faces.new other_solids.new result }
{
    Pair {
        first: convert(xyz, ends, limit, faces, solids),
        second: convert(
            other_xyz,
            other_ends,
            other_limit,
            other_faces,
            other_solids,
        ),
    }
}

// The same of two sheets.
pub fn sheets_converted_twice(
    sheet: &[u8],
    limit: u64,
    faces: &mut [u8],
    solids: &mut [u64],
    other_sheet: &[u8],
    other_limit: u64,
    other_faces: &mut [u8],
    other_solids: &mut [u64],
) -> Pair
    ensures { ConvertsTwice (Input.sheet sheet.now) (Input.sheet other_sheet.now) limit other_limit
        faces.old solids.old other_faces.old other_solids.old
        faces.new solids.new other_faces.new other_solids.new result }
{
    Pair {
        first: convert_sheet(sheet, limit, faces, solids),
        second: convert_sheet(other_sheet, other_limit, other_faces, other_solids),
    }
}

// The faces of solid i are written as a list, and the list is checked.
fn sent_and_checked(xyz: &[i64], ends: &[u8], rows: &[u8], solids: &[u64], i: usize) -> bool
    requires { solid_words * i ≤ length solids.now }
    ensures { AcceptedAsSent (lent xyz.now ends.now)
        (solid_faces rows.now (drop (solid_words * i) solids.now)) result }
{
    let mut room = [0u8; LIST_ROOM];
    let v = xyz.len() / 3;
    let e = ends.len() / 2;
    let solid = &solids[WORDS * i..];
    match write_faces(rows, solid, v, e, &mut room) {
        Err(_) => false,
        Ok(n) => check(xyz, ends, &room[..n]).is_ok(),
    }
}

// How many solids a conversion reports.
fn solids_in(c: Conversion) -> usize
    ensures { result ≡ solid_count c }
{
    match c {
        Conversion::One { .. } => 1,
        Conversion::Several { solids, .. } => solids,
        Conversion::NoSolid { .. } => 0,
        Conversion::Many { .. } => 0,
        Conversion::TooLong { .. } => 0,
        Conversion::Refused(_) => 0,
    }
}

// "Where the report lists n solids, each of the n is accepted": solid i is written as a face list, from the report's rows and its record,
// and the list is checked. It can only say yes.
pub fn reported_and_checked(
    xyz: &[i64],
    ends: &[u8],
    limit: u64,
    faces: &mut [u8],
    solids: &mut [u64],
    i: usize,
) -> bool
    ensures { result ≡ true }
{
    let said = convert(xyz, ends, limit, faces, solids);
    if solids_in(said) <= i {
        return true;
    }
    sent_and_checked(xyz, ends, faces, solids, i)
}
