// Rule 11, SamePlace: two vertices at one point. Assumes points in range.
ghost use Rattle.std.specs.Prelude.{◌≡◌};
ghost use Rattle.paper_laws.specs.InRange.{Points};
ghost use Rattle.drawing_rules.specs.Asked.{VertexAt};
ghost use Rattle.drawing_rules.specs.Meets.{shared_in, Told11};

use paper::{Number, Refusal};
use paper_values::refused;
use polygon::points::same_point;
use polygon::rings::point_at;

// A later vertex is where u is. Of two at one point the lower has one.
fn shares(xyz: &[i64], v: usize, u: usize) -> bool
    requires { VertexAt xyz.now v u }
    ensures { result ≡ shared_in xyz.now v u }
{
    let p = point_at(xyz, u);
    for w in u + 1..v {
        if same_point(p, point_at(xyz, w)) {
            return true;
        }
    }
    false
}

pub fn same_place(xyz: &[i64], v: usize) -> Result<(), Refusal>
    requires { Points xyz.now v }
    ensures { Told11 xyz.now result }
{
    for u in 0..v {
        if shares(xyz, v, u) {
            return refused(Number::SAME_PLACE, u);
        }
    }
    Ok(())
}
