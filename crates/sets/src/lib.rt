// Sets of numbers below 64: a bit of one word for each.
#![tactic(auto)]

ghost use Rattle.std.specs.Prelude.{◌≡◌, Bool, true, List, [], ◌≤◌, ◌<◌, eqb, length, replicate};
ghost use Rattle.sets.specs.Word.{digits, dig, both, either, less, only};
ghost use Rattle.sets.specs.Kinds.{Joint, Minus, Counted, Lowest, Dropped, Rest, Pops, SetAt};
ghost use Rattle.sets.specs.Sets.{room, Is, size, one_word, with_set, MarkedAt};

#[derive(Clone, Copy)]
pub struct Set {
    pub word: u64,
}

// A set of edges or of candidates.
pub type Wide = Set;

impl Set {
    pub fn and(self, y: Set) -> Set
        ensures { Joint one_word self y result both }
    {
        Set {
            word: self.word & y.word,
        }
    }

    pub fn or(self, y: Set) -> Set
        ensures { Joint one_word self y result either }
    {
        Set {
            word: self.word | y.word,
        }
    }

    // What is in self and not in y.
    pub fn minus(self, y: Set) -> Set
        ensures { Minus one_word self y result }
    {
        Set {
            word: self.word & !y.word,
        }
    }

    // What is in one and not in the other.
    pub fn unlike(self, y: Set) -> Set
        ensures { Joint one_word self y result (λ a b. either (less a b) (less b a)) }
    {
        Set {
            word: self.word ^ y.word,
        }
    }

    // How many are in the set.
    pub fn count(self) -> usize
        ensures { Counted one_word self result }
    {
        u64::count_ones(self.word) as usize
    }

    // Whether none is in the set: cheaper than the count.
    pub fn is_empty(self) -> bool
        ensures { result ≡ eqb (size self) 0 }
    {
        self.word == 0
    }

    pub fn lowest(self) -> usize
        requires { 0 < size self }
        ensures { Lowest one_word self result }
    {
        u64::trailing_zeros(self.word) as usize
    }

    // The set without its lowest: cheaper than `without`.
    pub fn rest(self) -> Set
        requires { 0 < size self }
        ensures { Rest one_word self result }
    {
        Set {
            word: self.word & (self.word - 1),
        }
    }

    // Takes the lowest out, if there is one.
    pub fn pop_first(&mut self) -> Option<usize>
        ensures { Pops one_word self.old self.new result }
    {
        if self.is_empty() {
            return None;
        }
        let k = self.lowest();
        *self = self.rest();
        Some(k)
    }

    pub fn with(self, k: usize) -> Set
        requires { k < room }
        ensures { (a : List Bool) → Is self a → Is result (either a (only k)) }
    {
        Set {
            word: self.word | (1u64 << k),
        }
    }

    pub fn without(self, k: usize) -> Set
        requires { k < room }
        ensures { Dropped one_word self k result }
    {
        Set {
            word: self.word & !(1u64 << k),
        }
    }

    pub fn none() -> Set
        ensures { Is result [] }
    {
        Set { word: 0 }
    }

    // The n lowest.
    pub fn lowest_of(n: usize) -> Set
        requires { n ≤ room }
        ensures { Is result (replicate n true) }
    {
        if n < 64 {
            return Set {
                word: (1u64 << n) - 1,
            };
        }
        Set { word: !0u64 }
    }

    // k alone.
    pub fn just(k: usize) -> Set
        requires { k < room }
        ensures { Is result (only k) }
    {
        Set { word: 1u64 << k }
    }

    pub fn has(self, k: usize) -> bool
        requires { k < room }
        ensures { (a : List Bool) → Is self a → result ≡ dig a k }
    {
        (self.word >> k) & 1 == 1
    }

    // The set at place k of a list of words.
    pub fn at(words: &[u64], k: usize) -> Set
        requires { k < length words.now }
        ensures { SetAt one_word words.now k result }
    {
        Set { word: words[k] }
    }

    // The set at place k is now this one.
    pub fn put(words: &mut [u64], k: usize, set: Set)
        requires { k < length words.old }
        ensures { words.new ≡ with_set words.old k set }
    {
        words[k] = set.word;
    }

    // i is now in the set at place k.
    pub fn mark(words: &mut [u64], k: usize, i: usize)
        requires { (k < length words.old) × (i < room) }
        ensures { MarkedAt words.old k i words.new }
    {
        words[k] = words[k] | 1u64 << i;
    }
}

// Whether digit k of a word is 1.
pub fn is_set(word: u64, k: usize) -> bool
    requires { k < room }
    ensures { result ≡ dig (digits room word) k }
{
    let set = Set { word: word };
    set.has(k)
}
