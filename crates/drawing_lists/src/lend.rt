// Refusals 5, 8, 9 and 10 of a drawing that is lent as two lists. Nothing is assumed of them.
ghost use Rattle.std.specs.Prelude.{◌≡◌, ◌<◌};
ghost use Rattle.paper.specs.Refusals.{first_of};
ghost use Rattle.paper.specs.Sheet.{bad_count, lent_checks};

use super::content;
use paper::{Number, Refusal};
use paper_values::refused;
use sheet_counts::is_outside;

// A list of n numbers that is no whole number of parts of k, or of too few or too many.
fn is_bad_count(k: usize, lo: u64, hi: u64, n: usize) -> bool
    requires { 0 < k }
    ensures { result ≡ bad_count k lo hi n }
{
    if n % k != 0 {
        return true;
    }
    is_outside(lo, hi, (n / k) as u64)
}

pub fn lent(xyz: &[i64], ends: &[u8]) -> Result<(), Refusal>
    ensures { result ≡ first_of (lent_checks xyz.now ends.now) }
{
    if is_bad_count(
        3,
        paper::LEAST_VERTICES as u64,
        paper::MOST_VERTICES as u64,
        xyz.len(),
    ) {
        return refused(Number::BAD_COUNT, 0);
    }
    if is_bad_count(
        2,
        paper::LEAST_EDGES as u64,
        paper::MOST_EDGES as u64,
        ends.len(),
    ) {
        return refused(Number::BAD_COUNT, 1);
    }
    content(xyz.len() / 3, xyz, ends)
}
