// Words as bytes: eight each, high byte first, and a signed number as its two's complement. Assumes that there is room for what is put,
// and that what is taken is there.
#![tactic(auto)]

ghost use Rattle.std.specs.Prelude.{◌≡◌, ◌<◌, ◌%◌};
ghost use Rattle.rooms.specs.Rooms.{copied};
ghost use Rattle.desk_lines.specs.Put.{Fits, Puts};
ghost use Rattle.clerk_words.specs.Words.{word_bytes, words_bytes, numbers_bytes, word_of, two_at, four_at, word_at, number_of, numbers_in};
ghost use Rattle.clerk_words.specs.Words.{word_size, Stand, NumbersThere};

use desk_lines::put_text;

pub const WORD_BYTES: usize = 8;

// 2^63: from here on a word stands for a number below 0.
const HALF: u64 = 9223372036854775808;

fn low_byte(x: u64) -> u8
    ensures { result ≡ x % 256 }
{
    (x % 256) as u8
}

fn word_bytes(word: u64) -> [u8; WORD_BYTES]
    ensures { result ≡ word_bytes word }
{
    [
        low_byte(word / 72057594037927936),
        low_byte(word / 281474976710656),
        low_byte(word / 1099511627776),
        low_byte(word / 4294967296),
        low_byte(word / 16777216),
        low_byte(word / 65536),
        low_byte(word / 256),
        low_byte(word),
    ]
}

// Each function that puts answers the place behind what it put.
fn put_word(word: u64, at: usize, room: &mut [u8]) -> usize
    requires { Fits at (word_bytes word) room.old }
    ensures { Puts room.old at (word_bytes word) room.new result }
{
    let bytes = word_bytes(word);
    put_text(&bytes, at, room)
}

pub fn put_words(words: &[u64], at: usize, room: &mut [u8]) -> usize
    requires { Fits at (words_bytes words.now) room.old }
    ensures { Puts room.old at (words_bytes words.now) room.new result }
{
    let mut next = at;
    for word in words {
        next = put_word(*word, next, room);
    }
    next
}

// The two's complement.
fn word_of(x: i64) -> u64
    ensures { result ≡ word_of x }
{
    if x < 0 { !((-1 - x) as u64) } else { x as u64 }
}

pub fn put_numbers(numbers: &[i64], at: usize, room: &mut [u8]) -> usize
    requires { Fits at (numbers_bytes numbers.now) room.old }
    ensures { Puts room.old at (numbers_bytes numbers.now) room.new result }
{
    let mut next = at;
    for number in numbers {
        next = put_word(word_of(*number), next, room);
    }
    next
}

// The number of two bytes from a place on, of four, and of eight.
pub fn two_at(bytes: &[u8], at: usize) -> u64
    requires { Stand 2 at bytes.now }
    ensures { (result ≡ two_at bytes.now at) × (result < 65536) }
{
    256 * u64::from(bytes[at]) + u64::from(bytes[at + 1])
}

fn four_at(bytes: &[u8], at: usize) -> u64
    requires { Stand 4 at bytes.now }
    ensures { (result ≡ four_at bytes.now at) × (result < 4294967296) }
{
    65536 * two_at(bytes, at) + two_at(bytes, at + 2)
}

pub fn word_at(bytes: &[u8], at: usize) -> u64
    requires { Stand word_size at bytes.now }
    ensures { result ≡ word_at bytes.now at }
{
    4294967296 * four_at(bytes, at) + four_at(bytes, at + 4)
}

// The number whose two's complement a word is.
fn number_of(word: u64) -> i64
    ensures { result ≡ number_of word }
{
    if word < HALF {
        word as i64
    } else {
        -1 - (!word) as i64
    }
}

// The first n numbers of bytes, written to the start of a room whose later places keep their contents.
pub fn take_numbers(bytes: &[u8], n: usize, room: &mut [i64])
    requires { NumbersThere n bytes.now room.old }
    ensures { room.new ≡ copied n (numbers_in n bytes.now) room.old }
{
    for i in 0..n {
        room[i] = number_of(word_at(bytes, WORD_BYTES * i));
    }
}
