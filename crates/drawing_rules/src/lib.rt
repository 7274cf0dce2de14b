// The drawing rules that need no loops: refusals 11 to 14, the first that applies being the answer. Assumes a drawing in range and its
// neighbour words, which the loops need too.
#![tactic(auto)]

mod boxes;
mod ends;
mod meets;
mod places;

ghost use Rattle.std.specs.Prelude.{◌≡◌};
ghost use Rattle.paper.specs.Refusals.{first_of};
ghost use Rattle.paper.specs.Drawing.{wire, drawing_checks};
ghost use Rattle.drawing_rules.specs.Asked.{Linked};

use paper::{MOST_VERTICES, Refusal};

pub fn drawing_rules(xyz: &[i64], ends: &[u8], near: &[u64; MOST_VERTICES]) -> Result<(), Refusal>
    requires { Linked xyz.now ends.now near.now }
    ensures { result ≡ first_of (drawing_checks (wire xyz.now ends.now)) }
{
    let v = xyz.len() / 3;
    places::same_place(xyz, v)?;
    drawing_links::loose_vertex(near, v)?;
    meets::edge_meets(xyz, v, ends)?;
    drawing_links::apart(near, v)
}
