// What the insurer sees of a conversion: a volume in cubic metres, or the number that says why there is none. Nothing is assumed.
#![tactic(auto)]

ghost use Rattle.std.specs.Prelude.{◌≡◌};
ghost use Rattle.paper.specs.Reading.{conversion_says, reading_of, reading_says, volume};
ghost use Rattle.reading.specs.Exact.{ExactVolume};
ghost use Rattle.reading.specs.Shown.{shown_of};

use paper::{Conversion, Number};

// Six volumes, in cubic centimetres, of a cubic metre.
const SIX_PER_CUBIC_METRE: u64 = 6000000;

// 2^53: up to here doubles have every whole number.
const MOST_EXACT: u64 = 9007199254740992;

// "The volume is six volumes divided by 6,000,000, both held exactly, rounded once." Numbers that a double may not hold are in no
// report; such a number is rounded first.
fn cubic_metres(six: u64) -> f64
    ensures { result ≡ volume six }
{
    let metre = SIX_PER_CUBIC_METRE as f64;
    if six > MOST_EXACT {
        return std::num::nearest_u64_to_f64(six) / metre;
    }
    six as f64 / metre
}

// The reading of a conversion's answer.
pub fn reading(c: Conversion) -> Result<f64, Number>
    ensures result { result ≡ reading_of c }
    ensures said { reading_says result ≡ shown_of (conversion_says c) }
    ensures exact { ExactVolume c result }
{
    match c {
        Conversion::One { six, .. } => Ok(cubic_metres(six)),
        Conversion::Several { .. } => Err(Number::AMBIGUOUS),
        Conversion::NoSolid { .. } => Err(Number::NO_SOLID),
        Conversion::Many { .. } => Err(Number::MANY),
        Conversion::TooLong { .. } => Err(Number::TOO_LONG),
        Conversion::Refused(r) => Err(r.number),
    }
}
