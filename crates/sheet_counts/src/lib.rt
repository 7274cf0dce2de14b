// Refusal 5: counts outside an edition's limits. Nothing is assumed of them.
#![tactic(auto)]

ghost use Rattle.std.specs.Prelude.{◌≡◌};
ghost use Rattle.paper.specs.Refusals.{first_of};
ghost use Rattle.paper.specs.Format.{outside};
ghost use Rattle.paper.specs.Sheet.{count_checks};

use paper::{Format, Number, Refusal};
use paper_values::refused;

pub fn is_outside(lo: u64, hi: u64, n: u64) -> bool
    ensures { result ≡ outside lo hi n }
{
    if n < lo {
        return true;
    }
    hi < n
}

// Refusal 5.
pub fn counts(f: Format, v: u64, e: u64) -> Result<(), Refusal>
    ensures { result ≡ first_of (count_checks f v e) }
{
    if is_outside(paper::LEAST_VERTICES as u64, f.most_vertices, v) {
        return refused(Number::BAD_COUNT, 0);
    }
    if is_outside(paper::LEAST_EDGES as u64, f.most_edges, e) {
        return refused(Number::BAD_COUNT, 1);
    }
    Ok(())
}
