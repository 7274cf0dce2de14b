// What code says of lists: a byte that is read as a place. What definitions say of lists is in specs/.
#![tactic(auto)]

ghost use Rattle.std.specs.Prelude.{◌≡◌};

// A byte of a list asks only for its index where it is widened by a call.
pub fn wide(x: u8) -> usize
    ensures { result ≡ x }
{
    x as usize
}
