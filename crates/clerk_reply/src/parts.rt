// Parts of a reply: what is said, and the reading, as words. Assumes an answer in words.
ghost use Rattle.std.specs.Prelude.{◌≡◌};
ghost use Rattle.export_words.specs.Words.{Telling};
ghost use Rattle.clerk_reply.specs.Replies.{reading_words};
ghost use Rattle.clerk_reply.specs.Held.{SaidAs};

use export_words::words::{MOST_SAID, Said, tell};
use paper::Conversion;
use reading::reading;

const READING_WORDS: usize = 2;

// What is said, with 0 in the rest.
pub fn said_words(s: Said) -> [u64; MOST_SAID]
    requires { Telling s }
    ensures { SaidAs s result }
{
    let mut words = [0u64; MOST_SAID];
    tell(s, &mut words);
    words
}

// The number that says why there is no volume and 0, or 0 and the volume's bits.
pub fn reading_words(c: Conversion) -> [u64; READING_WORDS]
    ensures { result ≡ reading_words c }
{
    match reading(c) {
        Ok(v) => [0, f64::to_bits(v)],
        Err(n) => [u64::from(n), 0],
    }
}
