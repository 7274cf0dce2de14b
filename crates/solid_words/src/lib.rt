// What a solid's record in a lent list says: a word that isn't there is 0. Nothing is assumed of any list.
#![tactic(auto)]

ghost use Rattle.std.specs.Prelude.{◌≡◌, ◌≤◌, get_or};
ghost use Rattle.sets.specs.Word.{dig};
ghost use Rattle.paper.specs.Numbers.{set_words};
ghost use Rattle.paper.specs.Record.{digits_at, taken_in, turned_in, six_in};

use paper::{SET_WORDS, WORD_BITS};

fn word_at(words: &[u64], i: usize) -> u64
    ensures { result ≡ get_or words.now i 0 }
{
    if i < words.len() {
        return words[i];
    }
    0
}

// Whether k is in the set whose words begin at word i.
fn is_in(words: &[u64], i: usize, k: usize) -> bool
    requires { i ≤ set_words }
    ensures { result ≡ dig (digits_at set_words i words.now) k }
{
    let j = k / WORD_BITS;
    if SET_WORDS <= j {
        return false;
    }
    sets::is_set(word_at(words, i + j), k % WORD_BITS)
}

// Whether the solid has candidate k; whether it is turned there.
pub fn is_taken(solid: &[u64], k: usize) -> bool
    ensures { result ≡ dig (taken_in solid.now) k }
{
    is_in(solid, 0, k)
}

pub fn is_turned(solid: &[u64], k: usize) -> bool
    ensures { result ≡ dig (turned_in solid.now) k }
{
    is_in(solid, SET_WORDS, k)
}

pub fn six(solid: &[u64]) -> u64
    ensures { result ≡ six_in solid.now }
{
    word_at(solid, 2 * SET_WORDS)
}
