// Arithmetic on points, which also serve as directions. Assumes the sizes of specs/Sizes.antt, with which nothing overflows.
ghost use Rattle.std.specs.Prelude.{◌≡◌};
ghost use Rattle.paper.specs.Numbers.{farthest};
ghost use Rattle.paper.specs.Points.{plus, minus, cross, dot, det, is_zero, is_origin, same_point};
ghost use Rattle.polygon.specs.Sizes.{PointsWithin, DetWithin, most_step, most_normal};

use paper::Point;

pub fn is_zero(z: i64) -> bool
    ensures { result ≡ is_zero z }
{
    z == 0
}

pub fn plus(a: Point, b: Point) -> Point
    requires { PointsWithin most_normal a b }
    ensures { result ≡ plus a b }
{
    Point {
        x: a.x + b.x,
        y: a.y + b.y,
        z: a.z + b.z,
    }
}

// The direction to a from b.
pub fn minus(a: Point, b: Point) -> Point
    requires { PointsWithin farthest a b }
    ensures { result ≡ minus a b }
{
    Point {
        x: a.x - b.x,
        y: a.y - b.y,
        z: a.z - b.z,
    }
}

pub fn dot(a: Point, b: Point) -> i64
    requires { PointsWithin most_normal a b }
    ensures { result ≡ dot a b }
{
    a.x * b.x + a.y * b.y + a.z * b.z
}

pub fn cross(a: Point, b: Point) -> Point
    requires { PointsWithin most_step a b }
    ensures { result ≡ cross a b }
{
    Point {
        x: a.y * b.z - a.z * b.y,
        y: a.z * b.x - a.x * b.z,
        z: a.x * b.y - a.y * b.x,
    }
}

pub fn det(p: Point, q: Point, r: Point) -> i64
    requires { DetWithin p q r }
    ensures { result ≡ det p q r }
{
    dot(p, cross(q, r))
}

pub fn is_origin(p: Point) -> bool
    ensures { result ≡ is_origin p }
{
    is_zero(p.x) & is_zero(p.y) & is_zero(p.z)
}

pub fn same_point(p: Point, q: Point) -> bool
    requires { PointsWithin farthest p q }
    ensures { result ≡ same_point p q }
{
    is_origin(minus(p, q))
}
