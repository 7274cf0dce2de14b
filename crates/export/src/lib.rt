// The interface for C and Rust, which `export_c` hands out under C's names: numbers and lent slices only. Nothing is assumed of any input.
// An answer is document 01's number, which is returned, 0 where nothing is refused; `said` gets it with its place and values, as far as it
// reaches.
#![tactic(auto)]

ghost use Rattle.paper.specs.Format.{edition_for, lent_edition};
ghost use Rattle.paper.specs.Conversion.{convert_lists, convert_sheet};
ghost use Rattle.paper.specs.FaceList.{sent_room};
ghost use Rattle.paper.specs.Reading.{sent_said, written_said, verdict_says};
ghost use Rattle.paper.specs.Sheet.{room_of};
ghost use Rattle.paper.specs.Verdict.{verdict_lists, verdict_sheet};
ghost use Rattle.faces_writer.specs.Send.{of_solid};
ghost use Rattle.export_words.specs.Words.{Tells, WritesAs, ConvertsAs};
ghost use Rattle.export_words.specs.Lists.{read_into, ReadsAs};
ghost use Rattle.export_words.specs.Volume.{AssessesAs};

use assess::{assess, assess_sheet};
use convert::{convert, convert_sheet};
use export_words::lent::handed;
use export_words::volume::show;
use export_words::words::{conversion_said, refusal_said, tell, verdict_said, written_said};
use faces_writer::write_faces;
use sheet_reader::read_sheet;
use sheet_writer::write_sheet;
use verdict::{check, check_sheet};

// Reads a sheet into two lent lists: 3 to 10, then 1 where a list is too short (0 coordinates, 1 ends). Values: vertices, edges.
pub fn nibgravel_read_sheet(sheet: &[u8], xyz: &mut [i64], ends: &mut [u8], said: &mut [u64]) -> u64
    ensures { ReadsAs (read_into sheet.now xyz.old ends.old) result
        xyz.new ends.new said.old said.new }
{
    match read_sheet(sheet) {
        Err(r) => tell(refusal_said(r), said),
        Ok(drawing) => handed(drawing, xyz, ends, said),
    }
}

// Writes a drawing's sheet: 5, 8, 9, 10, then 1. Value: its length.
pub fn nibgravel_write_sheet(xyz: &[i64], ends: &[u8], room: &mut [u8], said: &mut [u64]) -> u64
    ensures { WritesAs
        (written_said (lent_edition xyz.now ends.now) xyz.now ends.now room.old)
        (room_of (lent_edition xyz.now ends.now) xyz.now ends.now room.old)
        result room.new said.old said.new }
{
    tell(written_said(write_sheet(xyz, ends, room)), said)
}

// Writes a reported solid of a drawing of so many vertices and edges as a face list, from the report's rows and the solid's record: 20,
// then 1. Value: its length.
pub fn nibgravel_write_faces(
    rows: &[u8],
    solid: &[u64],
    vertices: usize,
    edges: usize,
    room: &mut [u8],
    said: &mut [u64],
) -> u64
    ensures { WritesAs
        (of_solid (sent_said (edition_for vertices edges)) rows.now solid.now room.old)
        (of_solid (sent_room (edition_for vertices edges)) rows.now solid.now room.old)
        result room.new said.old said.new }
{
    tell(
        written_said(write_faces(rows, solid, vertices, edges, room)),
        said,
    )
}

// Converts two lent lists: 1, 2, 5, 8 to 19. Values: loops, candidates; of a report also work, solids and, of one solid, six volumes.
pub fn nibgravel_convert(
    xyz: &[i64],
    ends: &[u8],
    limit: u64,
    faces: &mut [u8],
    solids: &mut [u64],
    said: &mut [u64],
) -> u64
    ensures { ConvertsAs (convert_lists xyz.now ends.now limit faces.old solids.old) result
        faces.new solids.new said.old said.new }
{
    tell(
        conversion_said(convert(xyz, ends, limit, faces, solids)),
        said,
    )
}

// Converts a sheet: 1 to 19. Values as above.
pub fn nibgravel_convert_sheet(
    sheet: &[u8],
    limit: u64,
    faces: &mut [u8],
    solids: &mut [u64],
    said: &mut [u64],
) -> u64
    ensures { ConvertsAs (convert_sheet sheet.now limit faces.old solids.old) result
        faces.new solids.new said.old said.new }
{
    tell(
        conversion_said(convert_sheet(sheet, limit, faces, solids)),
        said,
    )
}

// The reading of two lent lists, for which no rooms are lent: 0 with a volume in cubic metres, or why there is none.
pub fn nibgravel_assess(xyz: &[i64], ends: &[u8], limit: u64, volume: &mut [f64]) -> u64
    ensures { AssessesAs (convert_lists xyz.now ends.now limit) result
        volume.old volume.new }
{
    show(assess(xyz, ends, limit), volume)
}

// The reading of a sheet.
pub fn nibgravel_assess_sheet(sheet: &[u8], limit: u64, volume: &mut [f64]) -> u64
    ensures { AssessesAs (convert_sheet sheet.now limit) result volume.old volume.new }
{
    show(assess_sheet(sheet, limit), volume)
}

// Checks a face list against two lent lists: 5, 8 to 16, then 20 to 27. No values; 0 is "accepted".
pub fn nibgravel_check(xyz: &[i64], ends: &[u8], list: &[u8], said: &mut [u64]) -> u64
    ensures { Tells (verdict_says (verdict_lists xyz.now ends.now list.now)) result
        said.old said.new }
{
    tell(verdict_said(check(xyz, ends, list)), said)
}

// Checks a face list against a sheet: 3 to 16, then 20 to 27.
pub fn nibgravel_check_sheet(sheet: &[u8], list: &[u8], said: &mut [u64]) -> u64
    ensures { Tells (verdict_says (verdict_sheet sheet.now list.now)) result
        said.old said.new }
{
    tell(verdict_said(check_sheet(sheet, list)), said)
}
