// The reply to a request of docs/PIPE.md, put at the start of a lent room. Assumes a request that is all there, with items of at most 1,024
// bytes, and room for any reply.
#![tactic(auto)]

mod kinds;
mod parts;
mod request;

ghost use Rattle.clerk_reply.specs.Replies.{MayReply};
ghost use Rattle.clerk_reply.specs.Requests.{reply_to, length_of, kind_in, answer_to, Lends, Asks};

use clerk_words::{WORD_BYTES, two_at, word_at};
use desk_text::TEXT_ROOM;
use export_words::words::MOST_SAID;
use kinds::{put_checked, put_converted, put_desk, put_faces, put_hello, put_read, put_sheet};
pub use request::Request;

// A request's kind, its limit and two lengths, and where these stand.
pub const HEAD: usize = 13;

const LIMIT_AT: usize = 1;

pub const FIRST_AT: usize = 9;

pub const SECOND_AT: usize = 11;

pub const MOST_ITEM: usize = 1024;

// The longest reply has the desk's text.
pub const REPLY_ROOM: usize = WORD_BYTES * MOST_SAID + TEXT_ROOM;

// Answers how many bytes the reply has, where there is one: an unknown kind has none.
pub fn reply(kind: u8, limit: u64, first: &[u8], second: &[u8], room: &mut [u8]) -> Option<usize>
    requires { Lends first.now room.old }
    ensures { MayReply (reply_to kind limit first.now second.now)
        (length_of kind) room.old room.new result }
{
    let request = Request::try_from(kind).ok()?;
    match request {
        Request::Hello => Some(put_hello(room)),
        Request::Read => Some(put_read(first, room)),
        Request::Converted => Some(put_converted(first, limit, room)),
        Request::Checked => Some(put_checked(first, second, room)),
        Request::Written => put_sheet(first, second, room),
        Request::Faces => put_faces(first, second, room),
        Request::Text => Some(put_desk(first, room)),
    }
}

// The reply to a whole request: its head, and both items behind it.
pub fn answer(request: &[u8], room: &mut [u8]) -> Option<usize>
    requires { Asks request.now room.old }
    ensures { MayReply (answer_to request.now) (length_of (kind_in request.now))
        room.old room.new result }
{
    let kind = request[0];
    let limit = word_at(request, LIMIT_AT);
    let middle = HEAD + two_at(request, FIRST_AT) as usize;
    let end = middle + two_at(request, SECOND_AT) as usize;
    reply(
        kind,
        limit,
        &request[HEAD..middle],
        &request[middle..end],
        room,
    )
}
