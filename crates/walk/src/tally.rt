// What the walk has done so far: assumptions made, solids found, and why it ended: 0 not yet, 18 at a ninth solid, 19 at the limit.
// Assumes nothing.
ghost use Rattle.walk.specs.Tally.{Assumed};

use paper::Number;

#[derive(Clone, Copy)]
pub struct Tally {
    pub work: u64,
    pub found: usize,
    pub ended: u8,
}

impl Tally {
    // One more assumption, if the limit allows it.
    pub fn assumed(self, limit: u64) -> Tally
        ensures { Assumed limit self result }
    {
        if self.ended != 0 {
            return self;
        }
        if self.work < limit {
            return Tally {
                work: self.work + 1,
                found: self.found,
                ended: 0,
            };
        }
        Tally {
            work: self.work,
            found: self.found,
            ended: Number::TOO_LONG.value,
        }
    }
}
