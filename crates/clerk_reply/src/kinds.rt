// A reply of each kind, put at the start of a room. Assumes that there is room for any, and an item of at most 1,024 bytes where it holds
// coordinates.
ghost use Rattle.std.specs.Prelude.{◌++◌};
ghost use Rattle.desk_lines.specs.Put.{Fits, Puts};
ghost use Rattle.clerk_words.specs.Words.{words_bytes, numbers_bytes};
ghost use Rattle.clerk_reply.specs.Replies.{hello_reply, read_reply, converted_reply, checked_reply, written_reply, text_reply};
ghost use Rattle.clerk_reply.specs.Replies.{hello_length, read_length, converted_length, said_length, written_length, sent_length};
ghost use Rattle.clerk_reply.specs.Replies.{text_length, LongEnough, Replies, MayReply};
ghost use Rattle.clerk_reply.specs.Requests.{sheet_reply, faces_reply, Lends};

use super::MOST_ITEM;
use super::parts::{reading_words, said_words};
use clerk_words::{WORD_BYTES, put_numbers, put_words, take_numbers, word_at};
use convert::convert_sheet;
use desk_lines::put_text;
use desk_text::{TEXT_ROOM, desk_text};
use export::{
    nibgravel_check_sheet, nibgravel_read_sheet, nibgravel_write_faces, nibgravel_write_sheet,
};
use export_words::words::{MOST_SAID, conversion_said, written_said};
use paper::{COORDINATES, ENDS, FACE_ROOM, LIST_ROOM, SHEET_ROOM, SOLID_ROOM};

// The most numbers that an item holds.
const ITEM_NUMBERS: usize = MOST_ITEM / WORD_BYTES;

// A solid's first two words.
const SOLID_BYTES: usize = WORD_BYTES * 2;

// Each function answers how many bytes it put.
pub fn put_hello(room: &mut [u8]) -> usize
    requires { LongEnough room.old }
    ensures { Replies hello_reply hello_length room.old room.new result }
{
    put_text(b"nibgravel pipe 1", 0, room)
}

// What is said, and bytes behind it.
fn put_said(said: &[u64], bytes: &[u8], room: &mut [u8]) -> usize
    requires { Fits 0 (words_bytes said.now ++ bytes.now) room.old }
    ensures { Puts room.old 0 (words_bytes said.now ++ bytes.now) room.new result }
{
    let next = put_words(said, 0, room);
    put_text(bytes, next, room)
}

fn put_drawing(said: &[u64], xyz: &[i64], ends: &[u8], room: &mut [u8]) -> usize
    requires { Fits 0 (words_bytes said.now ++ numbers_bytes xyz.now ++ ends.now) room.old }
    ensures { Puts room.old 0
        (words_bytes said.now ++ numbers_bytes xyz.now ++ ends.now) room.new result }
{
    let told = put_words(said, 0, room);
    let placed = put_numbers(xyz, told, room);
    put_text(ends, placed, room)
}

pub fn put_read(sheet: &[u8], room: &mut [u8]) -> usize
    requires { LongEnough room.old }
    ensures { Replies (read_reply sheet.now) read_length room.old room.new result }
{
    let mut xyz = [0i64; COORDINATES];
    let mut ends = [0u8; ENDS];
    let mut said = [0u64; MOST_SAID];
    nibgravel_read_sheet(sheet, &mut xyz, &mut ends, &mut said);
    put_drawing(&said, &xyz, &ends, room)
}

fn put_report(said: &[u64], shown: &[u64], faces: &[u8], solids: &[u64], room: &mut [u8]) -> usize
    requires { Fits 0 (words_bytes said.now ++ words_bytes shown.now ++ faces.now ++ words_bytes solids.now) room.old }
    ensures { Puts room.old 0
        (words_bytes said.now ++ words_bytes shown.now ++ faces.now ++ words_bytes solids.now)
        room.new result }
{
    let told = put_words(said, 0, room);
    let read = put_words(shown, told, room);
    let listed = put_text(faces, read, room);
    put_words(solids, listed, room)
}

pub fn put_converted(sheet: &[u8], limit: u64, room: &mut [u8]) -> usize
    requires { LongEnough room.old }
    ensures { Replies (converted_reply sheet.now limit) converted_length room.old room.new result }
{
    let mut faces = [0u8; FACE_ROOM];
    let mut solids = [0u64; SOLID_ROOM];
    let c = convert_sheet(sheet, limit, &mut faces, &mut solids);
    let said = said_words(conversion_said(c));
    let shown = reading_words(c);
    put_report(&said, &shown, &faces, &solids, room)
}

pub fn put_checked(sheet: &[u8], list: &[u8], room: &mut [u8]) -> usize
    requires { LongEnough room.old }
    ensures { Replies (checked_reply sheet.now list.now) said_length
        room.old room.new result }
{
    let mut said = [0u64; MOST_SAID];
    nibgravel_check_sheet(sheet, list, &mut said);
    put_words(&said, 0, room)
}

fn put_written(xyz: &[i64], ends: &[u8], room: &mut [u8]) -> usize
    requires { LongEnough room.old }
    ensures { Replies (written_reply xyz.now ends.now) written_length
        room.old room.new result }
{
    let mut sheet = [0u8; SHEET_ROOM];
    let mut said = [0u64; MOST_SAID];
    nibgravel_write_sheet(xyz, ends, &mut sheet, &mut said);
    put_said(&said, &sheet, room)
}

// No reply where the coordinates are not whole words.
pub fn put_sheet(first: &[u8], ends: &[u8], room: &mut [u8]) -> Option<usize>
    requires { Lends first.now room.old }
    ensures { MayReply (sheet_reply first.now ends.now) written_length
        room.old room.new result }
{
    if first.len() % WORD_BYTES != 0 {
        return None;
    }
    let n = first.len() / WORD_BYTES;
    let mut xyz = [0i64; ITEM_NUMBERS];
    take_numbers(first, n, &mut xyz);
    Some(put_written(&xyz[..n], ends, room))
}

// No reply where the solid has other than two words.
pub fn put_faces(rows: &[u8], solid: &[u8], room: &mut [u8]) -> Option<usize>
    requires { LongEnough room.old }
    ensures { MayReply (faces_reply rows.now solid.now) sent_length room.old
        room.new result }
{
    if solid.len() != SOLID_BYTES {
        return None;
    }
    let taken = word_at(solid, 0);
    let turned = word_at(solid, WORD_BYTES);
    let words = [taken, turned];
    let mut list = [0u8; LIST_ROOM];
    let mut said = [0u64; MOST_SAID];
    nibgravel_write_faces(rows, &words, 0, 0, &mut list, &mut said);
    Some(put_said(&said, &list, room))
}

pub fn put_desk(sheet: &[u8], room: &mut [u8]) -> usize
    requires { LongEnough room.old }
    ensures { Replies (text_reply sheet.now) text_length room.old room.new result }
{
    let mut text = [0u8; TEXT_ROOM];
    let said = said_words(written_said(desk_text(sheet, &mut text)));
    put_said(&said, &text, room)
}
