// A drawing's sheet, written to the start of a lent room: refusals 5, 8, 9, 10, then 1. Nothing is assumed of lists or room.
ghost use Rattle.std.specs.Prelude.{◌≡◌, false, map};
ghost use Rattle.pack.specs.Bits.{run, Put};
ghost use Rattle.paper.specs.Format.{coordinate_bits, on_sheet, head_bits};
ghost use Rattle.paper.specs.Sheet.{far, written_of, room_of};
ghost use Rattle.sheet_shape.specs.Narrow.{Narrow};
ghost use Rattle.sheet_writer.specs.Asked.{CoordinatesFit, NumbersFit, HeadRoom, Writable};
ghost use Rattle.sheet_writer.specs.Room.{sheet_in};

use drawing_lists::lend::lent;
use paper::{Format, Number, Refusal};
use paper_values::refused;
use sheet_shape::total_bits;

// A coordinate's number on the sheet.
fn to_field(z: i64) -> u64
    requires { far z ≡ false }
    ensures { result ≡ on_sheet z }
{
    (z + paper::FARTHEST) as u64
}

// Writes the coordinates into their fields from bit i on.
fn put_coordinates(xyz: &[i64], room: &mut [u8], i: usize)
    requires { CoordinatesFit xyz.now room.old i }
    ensures { Put room.old room.new i (run coordinate_bits (map on_sheet xyz.now)) }
{
    for k in 0..xyz.len() {
        pack::put(
            room,
            i + paper::COORDINATE_BITS * k,
            paper::COORDINATE_BITS,
            to_field(xyz[k]),
        );
    }
}

// Writes the numbers into the fields of w bits from bit i on.
fn put_numbers(list: &[u8], room: &mut [u8], i: usize, w: usize)
    requires { NumbersFit list.now room.old i w }
    ensures { Put room.old room.new i (run w list.now) }
{
    for k in 0..list.len() {
        pack::put(room, i + w * k, w, list[k] as u64);
    }
}

// Writes the edition and the counts.
fn put_head(f: Format, room: &mut [u8], v: usize, e: usize)
    requires { HeadRoom f room.old }
    ensures { Put room.old room.new 0 (head_bits f v e) }
{
    pack::put(room, 0, paper::EDITION_BITS, f.edition);
    pack::put(room, paper::EDITION_BITS, f.vertex_count_bits, v as u64);
    pack::put(
        room,
        paper::EDITION_BITS + f.vertex_count_bits,
        f.edge_count_bits,
        e as u64,
    );
}

// Writes the sheet of a drawing that fits, into room that is long enough.
fn put_sheet(f: Format, xyz: &[i64], ends: &[u8], room: &mut [u8], v: usize, e: usize)
    requires { Writable f xyz.now ends.now room.old v e }
    ensures { room.new ≡ sheet_in f xyz.now ends.now v e room.old }
{
    let first = paper::EDITION_BITS + f.vertex_count_bits + f.edge_count_bits;
    let bits = total_bits(f, v, e);
    put_head(f, room, v, e);
    put_coordinates(xyz, room, first);
    put_numbers(
        ends,
        room,
        first + paper::VERTEX_BITS * v,
        f.vertex_number_bits,
    );
    pack::put_fill(room, bits);
}

// Writes a drawing's sheet of one edition.
pub fn write(f: Format, xyz: &[i64], ends: &[u8], room: &mut [u8]) -> Result<usize, Refusal>
    requires { Narrow f }
    ensures answer { result ≡ written_of f xyz.now ends.now room.old }
    ensures kept { room.new ≡ room_of f xyz.now ends.now room.old }
{
    lent(xyz, ends)?;
    let v = xyz.len() / 3;
    let e = ends.len() / 2;
    let size = (total_bits(f, v, e) + 7) / 8;
    if room.len() < size {
        return refused(Number::NO_ROOM, 0);
    }
    put_sheet(f, xyz, ends, room, v, e);
    Ok(size)
}
