// The desk program's text of a sheet, written to the start of a lent room. Nothing is assumed of sheet or room.
#![tactic(auto)]

mod answer;

ghost use Rattle.std.specs.Prelude.{◌≡◌};
ghost use Rattle.paper.specs.Desk.{desk_text};
ghost use Rattle.paper.specs.Reading.{written_says};
ghost use Rattle.desk_lines.specs.Put.{Puts};
ghost use Rattle.desk_text.specs.Written.{written_text, text_said, text_room};
ghost use Rattle.desk_text.specs.Texts.{SheetCounted, RoomForText};

use answer::{SheetCounts, put_answer};
use convert::convert_sheet;
use paper::{
    EDITION_BITS, FACE_ROOM, MOST_SOLIDS, MOST_WORK, Number, Refusal, SET_WORDS, SOLID_ROOM,
    WORD_BITS,
};
use paper_values::{edition_of, refused};
use rooms::copy;

// No text is longer: a number has at most 20 digits, a candidate's at most 2 behind a blank and a sign, and the rest are the document's
// words. The lines before the solids' count, the count's, and a solid's.
const DIGIT_ROOM: usize = 20;

const HEAD_ROOM: usize = 32 + 5 * DIGIT_ROOM;

const COUNT_ROOM: usize = 8 + DIGIT_ROOM;

const LINE_ROOM: usize = 25 + 2 * DIGIT_ROOM + 4 * WORD_BITS * SET_WORDS;

pub const TEXT_ROOM: usize = HEAD_ROOM + COUNT_ROOM + LINE_ROOM * MOST_SOLIDS;

// The counts that stand in a sheet of three bytes or more; a shorter one is refused for that.
fn counted(sheet: &[u8]) -> SheetCounts
    ensures { SheetCounted sheet.now result }
{
    if sheet.len() < 3 {
        return SheetCounts {
            vertices: 0,
            edges: 0,
        };
    }
    let f = edition_of(sheet);
    let v = f.vertex_count_bits;
    let e = f.edge_count_bits;
    SheetCounts {
        vertices: pack::field(sheet, EDITION_BITS, v),
        edges: pack::field(sheet, EDITION_BITS + v, e),
    }
}

// The text, put into room that is long enough for any.
fn put_desk(sheet: &[u8], text: &mut [u8]) -> usize
    requires { RoomForText text.old }
    ensures { Puts text.old 0 (desk_text sheet.now) text.new result }
{
    let mut faces = [0u8; FACE_ROOM];
    let mut solids = [0u64; SOLID_ROOM];
    let answer = convert_sheet(sheet, MOST_WORK, &mut faces, &mut solids);
    let counts = counted(sheet);
    put_answer(counts, answer, &solids, text)
}

// Converts a sheet with limit 1,000,000 and writes what the desk program says of it: refusal 1 where the room is shorter than the text.
// Later room keeps its contents.
pub fn desk_text(sheet: &[u8], room: &mut [u8]) -> Result<usize, Refusal>
    ensures answer { result ≡ written_text (desk_text sheet.now) room.old }
    ensures said { written_says result ≡ text_said (desk_text sheet.now) room.old }
    ensures kept { room.new ≡ text_room (desk_text sheet.now) room.old }
{
    let mut text = [0u8; TEXT_ROOM];
    let n = put_desk(sheet, &mut text);
    if room.len() < n {
        return refused(Number::NO_ROOM, 0);
    }
    copy(&text, n, room);
    Ok(n)
}
