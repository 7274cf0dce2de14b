// A drawing that was read, handed over in two lent lists. Assumes a drawing by value whose arrays have its lists in front.
ghost use Rattle.paper_laws.specs.InRange.{Held};
ghost use Rattle.export_words.specs.Lists.{Handed};

use super::words::{counts_said, refusal_said, tell};
use paper::{Drawing, Number, Refusal};
use rooms::copy;

// Refusal 1 where a list is too short, or both lists and the counts.
pub fn handed(d: Drawing, xyz: &mut [i64], ends: &mut [u8], said: &mut [u64]) -> u64
    requires { Held d }
    ensures { Handed d xyz.old ends.old result xyz.new ends.new
        said.old said.new }
{
    let m = 3 * d.vertices;
    let n = 2 * d.edges;
    if xyz.len() < m {
        let short = refusal_said(Refusal {
            number: Number::NO_ROOM,
            place: 0,
        });
        return tell(short, said);
    }
    if ends.len() < n {
        let short = refusal_said(Refusal {
            number: Number::NO_ROOM,
            place: 1,
        });
        return tell(short, said);
    }
    let points = d.xyz;
    let links = d.ends;
    copy(&points, m, xyz);
    copy(&links, n, ends);
    tell(counts_said(d.vertices, d.edges), said)
}
