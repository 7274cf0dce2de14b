// A reading in a lent double, which is written only where a volume was assessed. Assumes nothing.
ghost use Rattle.paper.specs.Reading.{reading_says};
ghost use Rattle.export_words.specs.Volume.{Shows};

use paper::Number;

// The number that says why nothing was assessed, 0 where there is a volume.
pub fn show(r: Result<f64, Number>, volume: &mut [f64]) -> u64
    ensures { Shows (reading_says r) result volume.old volume.new }
{
    match r {
        Ok(v) => {
            if 0 < volume.len() {
                volume[0] = v;
            }
            0
        }
        Err(n) => u64::from(n),
    }
}
