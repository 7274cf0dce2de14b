// A packed face list, read for a drawing of v vertices: refusal 20. Nothing is assumed of the list.
ghost use Rattle.std.specs.Prelude.{◌≡◌, ◌≤◌, ltb, get_or};
ghost use Rattle.std.proofs.Math.Seq.{paste};
ghost use Rattle.pack.specs.Bits.{fields_at};
ghost use Rattle.lists.specs.Lists.{all};
ghost use Rattle.lists.specs.Found.{found};
ghost use Rattle.paper.specs.Numbers.{row_bytes};
ghost use Rattle.paper.specs.Loops.{row};
ghost use Rattle.paper.specs.FaceList.{faces_as, faces_of};
ghost use Rattle.faces_reader.specs.Face.{Brief, count_of, face_at, closes_at};
ghost use Rattle.faces_reader.specs.Asked.{FaceFields, Cell, PutRow, FacePlace};

use paper::{FaceRows, Format, Number, Refusal};
use paper_values::refused;

// The face count, where the list begins as one of this edition.
fn count_in(f: Format, s: &[u8]) -> Option<usize>
    requires { Brief f }
    ensures { found result ≡ count_of f s.now }
{
    if s.len() < 2 {
        return None;
    }
    if pack::field(s, 0, paper::EDITION_BITS) != f.edition {
        return None;
    }
    let n = pack::field(s, paper::EDITION_BITS, f.face_count_bits);
    if sheet_counts::is_outside(paper::LEAST_FACES as u64, f.most_faces, n) {
        return None;
    }
    Some(n as usize)
}

// Whether the c numbers of w bits from bit i on are vertices below v.
fn are_below(v: usize, s: &[u8], i: usize, w: usize, c: usize) -> bool
    requires { FaceFields s.now i w c }
    ensures { result ≡ all (λ x. ltb x v) (fields_at s.now i w c) }
{
    for k in 0..c {
        if v <= pack::field(s, i + w * k, w) as usize {
            return false;
        }
    }
    true
}

// The corner count of the face that starts at bit `at`, where there is such a face.
fn face_at(f: Format, s: &[u8], at: usize, v: usize) -> Option<usize>
    requires { FacePlace f at }
    ensures { found result ≡ face_at f v s.now at }
{
    if s.len() < (at + paper::CORNER_BITS + 7) / 8 {
        return None;
    }
    let c = pack::field(s, at, paper::CORNER_BITS);
    if sheet_counts::is_outside(paper::LEAST_CORNERS as u64, paper::MOST_CORNERS as u64, c) {
        return None;
    }
    let n = c as usize;
    if s.len() < (at + paper::CORNER_BITS + f.vertex_number_bits * n + 7) / 8 {
        return None;
    }
    if are_below(v, s, at + paper::CORNER_BITS, f.vertex_number_bits, n) {
        return Some(n);
    }
    None
}

// Cell j of the row of the c numbers of w bits from bit i on.
fn cell(s: &[u8], i: usize, w: usize, c: usize, j: usize) -> u8
    requires { Cell s.now i w c j }
    ensures { result ≡ get_or (row (fields_at s.now i w c)) j 0 }
{
    if j == 0 {
        return c as u8;
    }
    if j <= c {
        return (pack::field(s, i + w * (j - 1), w) % 256) as u8;
    }
    paper::FILL
}

// Writes that row at byte `at`.
fn put_row(s: &[u8], i: usize, w: usize, c: usize, rows: &mut [u8], at: usize)
    requires { PutRow s.now i w c rows.old at }
    ensures { rows.new ≡ paste rows.old at (row (fields_at s.now i w c)) row_bytes }
{
    for j in 0..paper::ROW {
        rows[at + j] = cell(s, i, w, c, j);
    }
}

// Whether the list ends with the fill of n bits.
fn closes(s: &[u8], n: usize) -> bool
    requires { n ≤ 8192 }
    ensures { result ≡ closes_at s.now n }
{
    if s.len() != (n + 7) / 8 {
        return false;
    }
    pack::field(s, n, s.len() * 8 - n) == 0
}

// Reads a face list of one edition.
pub fn read(f: Format, s: &[u8], v: usize) -> Result<FaceRows, Refusal>
    requires { Brief f }
    ensures { faces_as result ≡ faces_of f v s.now }
{
    let Some(n) = count_in(f, s) else {
        return refused(Number::SHELL_SHAPE, 0);
    };
    let mut rows = [0u8; paper::ROWS];
    let mut at = paper::EDITION_BITS + f.face_count_bits;
    for k in 0..n {
        let Some(c) = face_at(f, s, at, v) else {
            return refused(Number::SHELL_SHAPE, 0);
        };
        put_row(
            s,
            at + paper::CORNER_BITS,
            f.vertex_number_bits,
            c,
            &mut rows,
            paper::ROW * k,
        );
        at = at + paper::CORNER_BITS + f.vertex_number_bits * c;
    }
    if closes(s, at) {
        return Ok(FaceRows { count: n, rows });
    }
    refused(Number::SHELL_SHAPE, 0)
}
