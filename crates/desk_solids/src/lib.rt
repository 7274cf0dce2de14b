// The lines of a report's solids, put into a room behind one another. Assumes that there is room, and the words of the solids.
#![tactic(auto)]

ghost use Rattle.paper.specs.Desk.{solids_text};
ghost use Rattle.desk_lines.specs.Put.{Fits, Puts};
ghost use Rattle.desk_solids.specs.Solids.{face_text, words_text, line_text, SolidsAt};

use desk_lines::{put_field, put_pair, put_text};
use paper::{SET_WORDS, WORD_BITS, WORDS};
use solid_words::{is_taken, is_turned, six};

// The candidates that a record has a bit for.
const SET_BITS: usize = WORD_BITS * SET_WORDS;

// Each function answers the place behind what it put. Candidate k, where it is taken: "minus for a face run against normal form"
fn put_face(k: usize, solid: &[u64], at: usize, room: &mut [u8]) -> usize
    requires { Fits at (face_text k solid.now) room.old }
    ensures { Puts room.old at (face_text k solid.now) room.new result }
{
    if is_taken(solid, k) {
        if is_turned(solid, k) {
            return put_field(b" -", k as u64, at, room);
        }
        return put_field(b" +", k as u64, at, room);
    }
    at
}

fn put_faces(solid: &[u64], at: usize, room: &mut [u8]) -> usize
    requires { Fits at (words_text solid.now) room.old }
    ensures { Puts room.old at (words_text solid.now) room.new result }
{
    let mut next = at;
    for k in 0..SET_BITS {
        next = put_face(k, solid, next, room);
    }
    next
}

// "its number, six volumes and faces", from its record
fn put_solid(i: usize, solid: &[u64], at: usize, room: &mut [u8]) -> usize
    requires { Fits at (line_text i solid.now) room.old }
    ensures { Puts room.old at (line_text i solid.now) room.new result }
{
    let volumes = six(solid);
    let numbered = put_pair(b"solid ", i as u64, b" sixvolumes ", volumes, at, room);
    let named = put_text(b" faces", numbered, room);
    let faced = put_faces(solid, named, room);
    put_text(b"\n", faced, room)
}

// The lines of n solids.
pub fn put_solids(n: usize, words: &[u64], at: usize, room: &mut [u8]) -> usize
    requires { SolidsAt n words.now at room.old }
    ensures { Puts room.old at (solids_text 1 n words.now) room.new result }
{
    let mut next = at;
    for i in 0..n {
        next = put_solid(i + 1, &words[WORDS * i..], next, room);
    }
    next
}
