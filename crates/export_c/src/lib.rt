// The interface for C and Rust under C's names: each function is that of `export`, with the same promise. Nothing is assumed of any input.
#![tactic(auto)]

ghost use Rattle.paper.specs.Format.{edition_for, lent_edition};
ghost use Rattle.paper.specs.Conversion.{convert_lists, convert_sheet};
ghost use Rattle.paper.specs.FaceList.{sent_room};
ghost use Rattle.paper.specs.Reading.{sent_said, written_said, verdict_says};
ghost use Rattle.paper.specs.Sheet.{room_of};
ghost use Rattle.paper.specs.Verdict.{verdict_lists, verdict_sheet};
ghost use Rattle.faces_writer.specs.Send.{of_solid};
ghost use Rattle.export_words.specs.Words.{Tells, WritesAs, ConvertsAs};
ghost use Rattle.export_words.specs.Lists.{read_into, ReadsAs};
ghost use Rattle.export_words.specs.Volume.{AssessesAs};

// Reads a sheet into two lent lists: 3 to 10, then 1 where a list is too short (0 coordinates, 1 ends). Values: vertices, edges.
#[unsafe(no_mangle)]
pub extern "C" fn nibgravel_read_sheet(
    sheet: &[u8],
    xyz: &mut [i64],
    ends: &mut [u8],
    said: &mut [u64],
) -> u64
    ensures { ReadsAs (read_into sheet.now xyz.old ends.old) result
        xyz.new ends.new said.old said.new }
{
    export::nibgravel_read_sheet(sheet, xyz, ends, said)
}

// Writes a drawing's sheet: 5, 8, 9, 10, then 1. Value: its length.
#[unsafe(no_mangle)]
pub extern "C" fn nibgravel_write_sheet(
    xyz: &[i64],
    ends: &[u8],
    room: &mut [u8],
    said: &mut [u64],
) -> u64
    ensures { WritesAs
        (written_said (lent_edition xyz.now ends.now) xyz.now ends.now room.old)
        (room_of (lent_edition xyz.now ends.now) xyz.now ends.now room.old)
        result room.new said.old said.new }
{
    export::nibgravel_write_sheet(xyz, ends, room, said)
}

// Writes a reported solid of a drawing of so many vertices and edges as a face list, from the report's rows and the solid's record: 20,
// then 1. Value: its length.
#[unsafe(no_mangle)]
pub extern "C" fn nibgravel_write_faces(
    rows: &[u8],
    solid: &[u64],
    vertices: usize,
    edges: usize,
    room: &mut [u8],
    said: &mut [u64],
) -> u64
    ensures { WritesAs
        (of_solid (sent_said (edition_for vertices edges)) rows.now solid.now room.old)
        (of_solid (sent_room (edition_for vertices edges)) rows.now solid.now room.old)
        result room.new said.old said.new }
{
    export::nibgravel_write_faces(rows, solid, vertices, edges, room, said)
}

// Converts two lent lists: 1, 2, 5, 8 to 19. Values: loops, candidates; of a report also work, solids and, of one solid, six volumes.
#[unsafe(no_mangle)]
pub extern "C" fn nibgravel_convert(
    xyz: &[i64],
    ends: &[u8],
    limit: u64,
    faces: &mut [u8],
    solids: &mut [u64],
    said: &mut [u64],
) -> u64
    ensures { ConvertsAs (convert_lists xyz.now ends.now limit faces.old solids.old) result
        faces.new solids.new said.old said.new }
{
    export::nibgravel_convert(xyz, ends, limit, faces, solids, said)
}

// Converts a sheet: 1 to 19. Values as above.
#[unsafe(no_mangle)]
pub extern "C" fn nibgravel_convert_sheet(
    sheet: &[u8],
    limit: u64,
    faces: &mut [u8],
    solids: &mut [u64],
    said: &mut [u64],
) -> u64
    ensures { ConvertsAs (convert_sheet sheet.now limit faces.old solids.old) result
        faces.new solids.new said.old said.new }
{
    export::nibgravel_convert_sheet(sheet, limit, faces, solids, said)
}

// The reading of two lent lists, for which no rooms are lent: 0 with a volume in cubic metres, or why there is none.
#[unsafe(no_mangle)]
pub extern "C" fn nibgravel_assess(xyz: &[i64], ends: &[u8], limit: u64, volume: &mut [f64]) -> u64
    ensures { AssessesAs (convert_lists xyz.now ends.now limit) result
        volume.old volume.new }
{
    export::nibgravel_assess(xyz, ends, limit, volume)
}

// The reading of a sheet.
#[unsafe(no_mangle)]
pub extern "C" fn nibgravel_assess_sheet(sheet: &[u8], limit: u64, volume: &mut [f64]) -> u64
    ensures { AssessesAs (convert_sheet sheet.now limit) result volume.old volume.new }
{
    export::nibgravel_assess_sheet(sheet, limit, volume)
}

// Checks a face list against two lent lists: 5, 8 to 16, then 20 to 27. No values; 0 is "accepted".
#[unsafe(no_mangle)]
pub extern "C" fn nibgravel_check(xyz: &[i64], ends: &[u8], list: &[u8], said: &mut [u64]) -> u64
    ensures { Tells (verdict_says (verdict_lists xyz.now ends.now list.now)) result
        said.old said.new }
{
    export::nibgravel_check(xyz, ends, list, said)
}

// Checks a face list against a sheet: 3 to 16, then 20 to 27.
#[unsafe(no_mangle)]
pub extern "C" fn nibgravel_check_sheet(sheet: &[u8], list: &[u8], said: &mut [u64]) -> u64
    ensures { Tells (verdict_says (verdict_sheet sheet.now list.now)) result
        said.old said.new }
{
    export::nibgravel_check_sheet(sheet, list, said)
}
