// A reported solid, written as a face list to the start of a lent room: refusal 20, then 1. Nothing is assumed of rows, record or room.
ghost use Rattle.std.specs.Prelude.{◌≡◌, ℕ, ◌+◌, ◌≤◌, ◌<◌, ltb, length, get_or};
ghost use Rattle.pack.specs.Bits.{run, Put};
ghost use Rattle.lists.specs.Lists.{all};
ghost use Rattle.lists.specs.Found.{found};
ghost use Rattle.paper.specs.Numbers.{most_candidates};
ghost use Rattle.paper.specs.FaceList.{span, row_at, solid_faces, sent_of, sent_room};
ghost use Rattle.faces_reader.specs.Face.{Brief};
ghost use Rattle.faces_writer.specs.Send.{corners_at, way, row_alone, face_alone, PutFaces, corners_of, list_head, weight, list_in};
ghost use Rattle.faces_writer.specs.Asked.{CornerInRow, CornerFields, Candidate, SendsFrom, SendsOne, SendsList};

use paper::{Format, Number, Refusal};
use paper_values::refused;
use solid_words::{is_taken, is_turned};

// How many faces there are, and their bits.
#[derive(Clone, Copy)]
pub struct Extent {
    pub faces: usize,
    pub bits: usize,
}

// Whether the c numbers from place i on are below v.
fn are_under(v: u64, rows: &[u8], i: usize, c: usize) -> bool
    requires { i + c ≤ length rows.now }
    ensures { result ≡ all (λ x. ltb x v) (corners_at rows.now i c) }
{
    for j in 0..c {
        if v <= rows[i + j] as u64 {
            return false;
        }
    }
    true
}

// The corner count of candidate k, where it is a face.
fn row_fits(f: Format, rows: &[u8], k: usize) -> Option<usize>
    requires { k < most_candidates }
    ensures { found result ≡ corners_of f (row_at rows.now k) }
{
    let first = paper::ROW * k;
    if rows.len() < first + paper::ROW {
        return None;
    }
    let c = rows[first] as u64;
    if sheet_counts::is_outside(paper::LEAST_CORNERS as u64, paper::MOST_CORNERS as u64, c) {
        return None;
    }
    let n = c as usize;
    if are_under(f.most_vertices, rows, first + 1, n) {
        return Some(n);
    }
    None
}

// What candidate k weighs, where it fits: nothing where it is not taken.
fn weigh(f: Format, rows: &[u8], solid: &[u64], k: usize) -> Option<Extent>
    requires { Candidate f k }
    ensures { result ≡ weight f (face_alone rows.now solid.now k) }
{
    if is_taken(solid, k) {
        let c = row_fits(f, rows, k)?;
        return Some(Extent {
            faces: 1,
            bits: paper::CORNER_BITS + f.vertex_number_bits * c,
        });
    }
    Some(Extent { faces: 0, bits: 0 })
}

// What the solid's faces weigh, where all fit.
fn weigh_all(f: Format, rows: &[u8], solid: &[u64]) -> Option<Extent>
    requires { Brief f }
    ensures { result ≡ weight f (solid_faces rows.now solid.now) }
{
    let mut faces = 0;
    let mut bits = 0;
    for k in 0..paper::MOST_CANDIDATES {
        let one = weigh(f, rows, solid, k)?;
        faces += one.faces;
        bits += one.bits;
    }
    Some(Extent { faces, bits })
}

// Corner j of the c corners from place i on: against their order the first stays first.
fn corner(rows: &[u8], i: usize, c: usize, back: bool, j: usize) -> u64
    requires { CornerInRow rows.now i c j }
    ensures { result ≡ get_or (way back (corners_at rows.now i c)) j 0 }
{
    if back {
        if 0 < j {
            return rows[i + (c - j)] as u64;
        }
        return rows[i] as u64;
    }
    rows[i + j] as u64
}

// Writes these corners into the fields of w bits from bit b on.
fn put_corners(rows: &[u8], i: usize, c: usize, back: bool, room: &mut [u8], b: usize, w: usize)
    requires { CornerFields rows.now i c room.old b w }
    ensures { Put room.old room.new b (run w (way back (corners_at rows.now i c))) }
{
    for j in 0..c {
        pack::put(room, b + w * j, w, corner(rows, i, c, back, j));
    }
}

// Writes candidate k as a face at bit b, and answers the bit behind it.
fn put_face(f: Format, rows: &[u8], k: usize, back: bool, room: &mut [u8], b: usize) -> usize
    requires { SendsOne f k (row_alone rows.now k back) room.old b }
    ensures end { result ≡ b + span f (row_alone rows.now k back) }
    ensures put { PutFaces f (row_alone rows.now k back) room.old room.new b }
{
    let first = paper::ROW * k;
    let c = rows[first] as usize;
    pack::put(room, b, paper::CORNER_BITS, c as u64);
    put_corners(
        rows,
        first + 1,
        c,
        back,
        room,
        b + paper::CORNER_BITS,
        f.vertex_number_bits,
    );
    b + (paper::CORNER_BITS + f.vertex_number_bits * c)
}

// The same where it is taken; else nothing.
fn put_taken(f: Format, rows: &[u8], solid: &[u64], k: usize, room: &mut [u8], b: usize) -> usize
    requires { SendsOne f k (face_alone rows.now solid.now k) room.old b }
    ensures end { result ≡ b + span f (face_alone rows.now solid.now k) }
    ensures put { PutFaces f (face_alone rows.now solid.now k) room.old room.new b }
{
    if is_taken(solid, k) {
        return put_face(f, rows, k, is_turned(solid, k), room, b);
    }
    b
}

// Writes the solid's faces behind the head.
fn put_faces(f: Format, rows: &[u8], solid: &[u64], room: &mut [u8])
    requires { SendsFrom f (solid_faces rows.now solid.now) room.old (list_head f) }
    ensures { PutFaces f (solid_faces rows.now solid.now)
        room.old room.new (list_head f) }
{
    let mut b = paper::EDITION_BITS + f.face_count_bits;
    for k in 0..paper::MOST_CANDIDATES {
        b = put_taken(f, rows, solid, k, room, b);
    }
}

// Writes the list of n faces of b bits, all of which fit, into room that is long enough.
fn put_list(f: Format, rows: &[u8], solid: &[u64], room: &mut [u8], n: usize, b: usize)
    requires { SendsList f (solid_faces rows.now solid.now) room.old n b }
    ensures { room.new ≡ list_in f (solid_faces rows.now solid.now) room.old }
{
    pack::put(room, 0, paper::EDITION_BITS, f.edition);
    pack::put(room, paper::EDITION_BITS, f.face_count_bits, n as u64);
    put_faces(f, rows, solid, room);
    pack::put_fill(room, paper::EDITION_BITS + f.face_count_bits + b);
}

// Writes a reported solid as a list of one edition.
pub fn write(f: Format, rows: &[u8], solid: &[u64], room: &mut [u8]) -> Result<usize, Refusal>
    requires { Brief f }
    ensures answer { result ≡ sent_of f (solid_faces rows.now solid.now) room.old }
    ensures kept { room.new ≡ sent_room f (solid_faces rows.now solid.now) room.old }
{
    let Some(extent) = weigh_all(f, rows, solid) else {
        return refused(Number::SHELL_SHAPE, 0);
    };
    let n = extent.faces;
    let b = extent.bits;
    if sheet_counts::is_outside(paper::LEAST_FACES as u64, f.most_faces, n as u64) {
        return refused(Number::SHELL_SHAPE, 0);
    }
    let size = (paper::EDITION_BITS + f.face_count_bits + b + 7) / 8;
    if room.len() < size {
        return refused(Number::NO_ROOM, 0);
    }
    put_list(f, rows, solid, room, n, b);
    Ok(size)
}
