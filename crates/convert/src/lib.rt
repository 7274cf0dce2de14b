// Conversion, the service's main job: a drawing to every solid that it allows. Nothing is assumed of any input.
#![tactic(auto)]

mod walked;

ghost use Rattle.std.specs.Prelude.{◌≡◌};
ghost use Rattle.paper.specs.Conversion.{convert_lists, convert_sheet};
ghost use Rattle.paper.specs.Reading.{conversion_says};
ghost use Rattle.walk_input.specs.Given.{coordinates_of, links_of};
ghost use Rattle.convert.specs.Converts.{at_exit, Entered, Converting, ConvertsLists, DrawingAt};

use drawing_lists::lend::lent;
use paper::{Conversion, Drawing, FACE_ROOM, FILL, MOST_WORK, Number, Refusal, SOLID_ROOM};
use paper_values::refused;
use report::concluded;
use sheet_reader::read_sheet;
use walked::walk_drawing;

// Refusals 1 and 2, by the sizes of the two rooms.
fn entered(limit: u64, faces: usize, solids: usize) -> Result<(), Refusal>
    ensures { Entered limit faces solids result }
{
    if faces < FACE_ROOM {
        return refused(Number::NO_ROOM, 0);
    }
    if solids < SOLID_ROOM {
        return refused(Number::NO_ROOM, 1);
    }
    if MOST_WORK < limit {
        return refused(Number::BAD_LIMIT, 0);
    }
    Ok(())
}

// Refusals 11 to 19, or a report, of lists that passed 1 to 10.
fn converted(
    xyz: &[i64],
    ends: &[u8],
    limit: u64,
    faces: &mut [u8],
    solids: &mut [u64],
) -> Conversion
    requires { Converting xyz.now ends.now faces.old solids.old }
    ensures { ConvertsLists xyz.now ends.now limit faces.old faces.new
        solids.old solids.new result }
{
    let mut rows = [FILL; FACE_ROOM];
    let mut out = [0u64; SOLID_ROOM];
    match walk_drawing(xyz, ends, limit, &mut rows, &mut out) {
        Err(r) => Conversion::Refused(r),
        Ok((c, t)) => concluded(c.loops, c.candidates, &rows, t, &out, faces, solids),
    }
}

// Converts two lent lists: refusals 1, 2, 5, 8 to 19, or a report in the two rooms.
pub fn convert(
    xyz: &[i64],
    ends: &[u8],
    limit: u64,
    faces: &mut [u8],
    solids: &mut [u64],
) -> Conversion
    ensures result { at_exit result faces.new solids.new
        ≡ convert_lists xyz.now ends.now limit faces.old solids.old }
    ensures said { conversion_says result ≡ conversion_says
        (convert_lists xyz.now ends.now limit faces.old solids.old).answer }
{
    if let Err(r) = entered(limit, faces.len(), solids.len()) {
        return Conversion::Refused(r);
    }
    if let Err(r) = lent(xyz, ends) {
        return Conversion::Refused(r);
    }
    converted(xyz, ends, limit, faces, solids)
}

// The same of a drawing by value, whose arrays have its lists in front.
fn drawing_converted(d: Drawing, limit: u64, faces: &mut [u8], solids: &mut [u64]) -> Conversion
    requires { DrawingAt d faces.old solids.old }
    ensures { ConvertsLists (coordinates_of d) (links_of d) limit faces.old faces.new solids.old
        solids.new result }
{
    let xyz = d.xyz;
    let ends = d.ends;
    let m = 3 * d.vertices;
    let n = 2 * d.edges;
    converted(&xyz[..m], &ends[..n], limit, faces, solids)
}

// Converts a sheet: refusals 1 to 19, or a report in the two rooms.
pub fn convert_sheet(sheet: &[u8], limit: u64, faces: &mut [u8], solids: &mut [u64]) -> Conversion
    ensures result { at_exit result faces.new solids.new
        ≡ convert_sheet sheet.now limit faces.old solids.old }
    ensures said { conversion_says result ≡ conversion_says
        (convert_sheet sheet.now limit faces.old solids.old).answer }
{
    if let Err(r) = entered(limit, faces.len(), solids.len()) {
        return Conversion::Refused(r);
    }
    match read_sheet(sheet) {
        Err(r) => Conversion::Refused(r),
        Ok(drawing) => drawing_converted(drawing, limit, faces, solids),
    }
}
