// The functions for C and Rust and the desk's text, once more: each hands on what the function of its name says, and its contract is the
// customer's demand itself, of the number returned and of what is left in all that was lent. Nothing is assumed of any input.
#![tactic(auto)]

ghost use Rattle.paper.specs.Format.{edition_for};
ghost use Rattle.paper.specs.FaceList.{solid_faces};
ghost use Rattle.demands.specs.Input.{lent};
ghost use Rattle.demands.specs.Input as Input;
ghost use Rattle.demanded.specs.Demanded.{WritesSheet, Sends};
ghost use Rattle.demanded_words.specs.Words.{ConvertsInWords, AssessesInWords, ChecksInWords, WritesInWords, ReadsInWords};
ghost use Rattle.demanded_words.specs.Text.{Prints};

use paper::Refusal;

pub fn read_sheet(sheet: &[u8], xyz: &mut [i64], ends: &mut [u8], said: &mut [u64]) -> u64
    ensures { ReadsInWords sheet.now xyz.old ends.old result xyz.new ends.new
        said.old said.new }
{
    export::nibgravel_read_sheet(sheet, xyz, ends, said)
}

pub fn write_sheet(xyz: &[i64], ends: &[u8], room: &mut [u8], said: &mut [u64]) -> u64
    ensures { WritesInWords (λ w. WritesSheet xyz.now ends.now room.old w room.new)
        room.old result room.new said.old said.new }
{
    export::nibgravel_write_sheet(xyz, ends, room, said)
}

pub fn write_faces(
    rows: &[u8],
    solid: &[u64],
    vertices: usize,
    edges: usize,
    room: &mut [u8],
    said: &mut [u64],
) -> u64
    ensures { WritesInWords
        (λ w. Sends (edition_for vertices edges) (solid_faces rows.now solid.now) room.old w
        room.new)
        room.old result room.new said.old said.new }
{
    export::nibgravel_write_faces(rows, solid, vertices, edges, room, said)
}

pub fn convert(
    xyz: &[i64],
    ends: &[u8],
    limit: u64,
    faces: &mut [u8],
    solids: &mut [u64],
    said: &mut [u64],
) -> u64
    ensures { ConvertsInWords (lent xyz.now ends.now) limit faces.old solids.old result
        faces.new solids.new said.old said.new }
{
    export::nibgravel_convert(xyz, ends, limit, faces, solids, said)
}

pub fn convert_sheet(
    sheet: &[u8],
    limit: u64,
    faces: &mut [u8],
    solids: &mut [u64],
    said: &mut [u64],
) -> u64
    ensures { ConvertsInWords (Input.sheet sheet.now) limit faces.old solids.old result
        faces.new solids.new said.old said.new }
{
    export::nibgravel_convert_sheet(sheet, limit, faces, solids, said)
}

pub fn assess(xyz: &[i64], ends: &[u8], limit: u64, volume: &mut [f64]) -> u64
    ensures { AssessesInWords (lent xyz.now ends.now) limit result
        volume.old volume.new }
{
    export::nibgravel_assess(xyz, ends, limit, volume)
}

pub fn assess_sheet(sheet: &[u8], limit: u64, volume: &mut [f64]) -> u64
    ensures { AssessesInWords (Input.sheet sheet.now) limit result volume.old volume.new }
{
    export::nibgravel_assess_sheet(sheet, limit, volume)
}

pub fn check(xyz: &[i64], ends: &[u8], list: &[u8], said: &mut [u64]) -> u64
    ensures { ChecksInWords (lent xyz.now ends.now) list.now result
        said.old said.new }
{
    export::nibgravel_check(xyz, ends, list, said)
}

pub fn check_sheet(sheet: &[u8], list: &[u8], said: &mut [u64]) -> u64
    ensures { ChecksInWords (Input.sheet sheet.now) list.now result said.old said.new }
{
    export::nibgravel_check_sheet(sheet, list, said)
}

pub fn desk_text(sheet: &[u8], room: &mut [u8]) -> Result<usize, Refusal>
    ensures { Prints sheet.now room.old result room.new }
{
    desk_text::desk_text(sheet, room)
}
