// A drawing from the bytes of a sheet, over an edition's layout: refusals 3 to 10. Nothing is assumed of the sheet.
ghost use Rattle.std.specs.Prelude.{◌≡◌, map, ◌<◌, ◌^◌};
ghost use Rattle.pack.specs.Bits.{fields_at};
ghost use Rattle.paper.specs.Format.{coordinate_bits, coordinate};
ghost use Rattle.paper.specs.Sheet.{sheet_as, sheet_of};
ghost use Rattle.sheet_shape.specs.Narrow.{FitsDrawing};
ghost use Rattle.sheet_reader.specs.Asked.{Coordinates, Numbers, Few, Readable};
ghost use Rattle.sheet_reader.specs.Kept.{held_xyz, held_ends, kept_of};

use drawing_lists::content;
use paper::{Drawing, Format, Refusal};
use sheet_shape::shape;

// A coordinate, from its number on the sheet.
fn to_coordinate(f: u64) -> i64
    requires { f < 2 ^ coordinate_bits }
    ensures { result ≡ coordinate f }
{
    f as i64 - paper::FARTHEST
}

// The n coordinates in the fields of s from bit i on, then zeros.
fn coordinates(s: &[u8], i: usize, n: usize) -> [i64; paper::COORDINATES]
    requires { Coordinates s.now i n }
    ensures { result ≡ held_xyz (map coordinate (fields_at s.now i coordinate_bits n)) }
{
    let mut xyz = [0i64; paper::COORDINATES];
    for k in 0..n {
        let z = to_coordinate(pack::field(
            s,
            i + paper::COORDINATE_BITS * k,
            paper::COORDINATE_BITS,
        ));
        xyz[k] = z;
    }
    xyz
}

// The n numbers in the fields of w bits of s from bit i on, then zeros.
fn numbers(s: &[u8], i: usize, w: usize, n: usize) -> [u8; paper::ENDS]
    requires { Numbers s.now i w n }
    ensures { result ≡ held_ends (fields_at s.now i w n) }
{
    let mut ends = [0u8; paper::ENDS];
    for k in 0..n {
        let f = pack::field(s, i + w * k, w);
        ends[k] = (f % 256) as u8;
    }
    ends
}

// The drawing, if it passes 8 to 10.
fn kept(
    v: usize,
    e: usize,
    xyz: [i64; paper::COORDINATES],
    ends: [u8; paper::ENDS],
) -> Result<Drawing, Refusal>
    requires { Few v e }
    ensures { sheet_as result ≡ kept_of v e xyz ends }
{
    let m = 3 * v;
    let n = 2 * e;
    content(v, &xyz[..m], &ends[..n])?;
    Ok(Drawing {
        vertices: v,
        edges: e,
        xyz,
        ends,
    })
}

// The drawing of a sheet that passes 3 to 7.
fn drawn(f: Format, s: &[u8]) -> Result<Drawing, Refusal>
    requires { Readable f s.now }
    ensures { sheet_as result ≡ sheet_of f s.now }
{
    let first = paper::EDITION_BITS + f.vertex_count_bits + f.edge_count_bits;
    let v = pack::field(s, paper::EDITION_BITS, f.vertex_count_bits) as usize;
    let e = pack::field(
        s,
        paper::EDITION_BITS + f.vertex_count_bits,
        f.edge_count_bits,
    ) as usize;
    let xyz = coordinates(s, first, 3 * v);
    let ends = numbers(
        s,
        first + paper::VERTEX_BITS * v,
        f.vertex_number_bits,
        2 * e,
    );
    kept(v, e, xyz, ends)
}

// Reads a sheet of one edition.
pub fn read(f: Format, s: &[u8]) -> Result<Drawing, Refusal>
    requires { FitsDrawing f }
    ensures { sheet_as result ≡ sheet_of f s.now }
{
    shape(f, s)?;
    drawn(f, s)
}
