// The functions that a customer's program calls, once more: each hands on what the function of its name says, and its contract is not an
// equation with document 01's definitions but the customer's demand itself. Nothing is assumed of any input.
#![tactic(auto)]

ghost use Rattle.paper.specs.Format.{edition_for};
ghost use Rattle.paper.specs.FaceList.{solid_faces};
ghost use Rattle.demands.specs.Input.{lent};
ghost use Rattle.demands.specs.Input as Input;
ghost use Rattle.demanded.specs.Demanded.{Converts, Assesses, ReadAs, Checks, ReadsSheet, WritesSheet, ReadsFaces, Sends};

use paper::{Conversion, Drawing, FaceRows, Number, Refusal};

pub fn convert(
    xyz: &[i64],
    ends: &[u8],
    limit: u64,
    faces: &mut [u8],
    solids: &mut [u64],
) -> Conversion
    ensures { Converts (lent xyz.now ends.now) limit faces.old solids.old result
        faces.new solids.new }
{
    convert::convert(xyz, ends, limit, faces, solids)
}

pub fn convert_sheet(sheet: &[u8], limit: u64, faces: &mut [u8], solids: &mut [u64]) -> Conversion
    ensures { Converts (Input.sheet sheet.now) limit faces.old solids.old result
        faces.new solids.new }
{
    convert::convert_sheet(sheet, limit, faces, solids)
}

pub fn assess(xyz: &[i64], ends: &[u8], limit: u64) -> Result<f64, Number>
    ensures { Assesses (lent xyz.now ends.now) limit result }
{
    assess::assess(xyz, ends, limit)
}

pub fn assess_sheet(sheet: &[u8], limit: u64) -> Result<f64, Number>
    ensures { Assesses (Input.sheet sheet.now) limit result }
{
    assess::assess_sheet(sheet, limit)
}

pub fn reading(c: Conversion) -> Result<f64, Number>
    ensures { ReadAs c result }
{
    reading::reading(c)
}

pub fn check(xyz: &[i64], ends: &[u8], list: &[u8]) -> Result<(), Refusal>
    ensures { Checks (lent xyz.now ends.now) list.now result }
{
    verdict::check(xyz, ends, list)
}

pub fn check_sheet(sheet: &[u8], list: &[u8]) -> Result<(), Refusal>
    ensures { Checks (Input.sheet sheet.now) list.now result }
{
    verdict::check_sheet(sheet, list)
}

pub fn read_sheet(sheet: &[u8]) -> Result<Drawing, Refusal>
    ensures { ReadsSheet sheet.now result }
{
    sheet_reader::read_sheet(sheet)
}

pub fn write_sheet(xyz: &[i64], ends: &[u8], room: &mut [u8]) -> Result<usize, Refusal>
    ensures { WritesSheet xyz.now ends.now room.old result room.new }
{
    sheet_writer::write_sheet(xyz, ends, room)
}

pub fn read_faces(list: &[u8], vertices: usize) -> Result<FaceRows, Refusal>
    ensures { ReadsFaces vertices list.now result }
{
    faces_reader::read_faces(list, vertices)
}

pub fn write_faces(
    rows: &[u8],
    solid: &[u64],
    vertices: usize,
    edges: usize,
    room: &mut [u8],
) -> Result<usize, Refusal>
    ensures { Sends (edition_for vertices edges) (solid_faces rows.now solid.now) room.old result
        room.new }
{
    faces_writer::write_faces(rows, solid, vertices, edges, room)
}
