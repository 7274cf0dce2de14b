// Refusals 3 to 7, the shape of a sheet, over any edition's layout. Nothing is assumed of the sheet.
#![tactic(auto)]

ghost use Rattle.std.specs.Prelude.{◌≡◌};
ghost use Rattle.paper.specs.Refusals.{first_of};
ghost use Rattle.paper.specs.Format.{total};
ghost use Rattle.paper.specs.Sheet.{open_checks, close_checks, shape_checks};
ghost use Rattle.sheet_shape.specs.Narrow.{Narrow, NarrowCounts};

use paper::{Format, Number, Refusal};
use paper_values::refused;
use sheet_counts::counts;

// The bits before the fill.
pub fn total_bits(f: Format, v: usize, e: usize) -> usize
    requires { NarrowCounts f v e }
    ensures { result ≡ total f v e }
{
    paper::EDITION_BITS
        + f.vertex_count_bits
        + f.edge_count_bits
        + paper::VERTEX_BITS * v
        + 2 * f.vertex_number_bits * e
}

// Refusals 3 and 4.
fn opening(f: Format, s: &[u8]) -> Result<(), Refusal>
    ensures { result ≡ first_of (open_checks f s.now) }
{
    if s.len() < 3 {
        return refused(Number::SHEET_SHORT, 0);
    }
    if pack::field(s, 0, paper::EDITION_BITS) != f.edition {
        return refused(Number::SHEET_EDITION, 0);
    }
    Ok(())
}

// Refusals 6 and 7.
fn closing(f: Format, s: &[u8], v: usize, e: usize) -> Result<(), Refusal>
    requires { NarrowCounts f v e }
    ensures { result ≡ first_of (close_checks f s.now v e) }
{
    let bits = total_bits(f, v, e);
    if s.len() != (bits + 7) / 8 {
        return refused(Number::SHEET_LENGTH, 0);
    }
    if pack::field(s, bits, s.len() * 8 - bits) != 0 {
        return refused(Number::SHEET_PAD, 0);
    }
    Ok(())
}

// Refusals 3 to 7.
pub fn shape(f: Format, s: &[u8]) -> Result<(), Refusal>
    requires { Narrow f }
    ensures { result ≡ first_of (shape_checks f s.now) }
{
    opening(f, s)?;
    let v = pack::field(s, paper::EDITION_BITS, f.vertex_count_bits);
    let e = pack::field(
        s,
        paper::EDITION_BITS + f.vertex_count_bits,
        f.edge_count_bits,
    );
    counts(f, v, e)?;
    closing(f, s, v as usize, e as usize)
}
