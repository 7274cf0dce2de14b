// The program that answers requests over a pipe: it reads them from standard input and writes the replies to standard output, as
// docs/PIPE.md says. Nothing is assumed of the input.
#![tactic(auto)]

ghost use Rattle.std.specs.Prelude.{◌≡◌, true, false, take, IfOk, IfSome};
ghost use Rattle.std.specs.Io.KnownBytes.{Consumes, Keeps};
ghost use Rattle.clerk.specs.Read.{RoomyRequest, RequestRooms, RequestStands, Serves, TakesOne};

use clerk_reply::{FIRST_AT, HEAD, MOST_ITEM, REPLY_ROOM, SECOND_AT, answer};
use clerk_words::two_at;
use std::io::{self, ErrorKind, Read, Write};

// A head and two items.
const REQUEST_ROOM: usize = HEAD + 2 * MOST_ITEM;

// 2^62: more requests than can be answered while a machine lasts. Every function is proved to end, and so has a bound on its turns.
const MOST_REQUESTS: u64 = 4611686018427387904;

// Whether the input had bytes enough to fill the room.
fn filled<R: Read>(input: &mut R, room: &mut [u8]) -> io::Result<bool>
    ensures { IfOk result (λ full. full ≡ true
        → Consumes (R.remaining input.old) (R.remaining input.new) room.new) }
{
    match input.read_exact(room) {
        Ok(()) => Ok(true),
        Err(e) if e.kind() == ErrorKind::UnexpectedEof => Ok(false),
        Err(e) => Err(e),
    }
}

// Answers the request's length; none where the input ends or an item is too long. The items are read only once their lengths are known, so
// that nothing is taken of the next request.
fn read_request<R: Read>(input: &mut R, room: &mut [u8]) -> io::Result<Option<usize>>
    requires { RoomyRequest room.old }
    ensures read { IfOk result (λ end. IfSome end (λ n. RequestStands room.new n)) }
    ensures taken { IfOk result (λ end. IfSome end
        (λ n. TakesOne (R.remaining input.old) (R.remaining input.new) (take n room.new))) }
{
    if !filled(input, &mut room[..HEAD])? {
        return Ok(None);
    }
    let first = two_at(room, FIRST_AT) as usize;
    let second = two_at(room, SECOND_AT) as usize;
    if first > MOST_ITEM {
        return Ok(None);
    }
    if second > MOST_ITEM {
        return Ok(None);
    }
    let end = HEAD + first + second;
    if !filled(input, &mut room[HEAD..end])? {
        return Ok(None);
    }
    Ok(Some(end))
}

// Whether a request came and its reply was written.
fn served<R: Read, W: Write>(
    input: &mut R,
    out: &mut W,
    request: &mut [u8],
    room: &mut [u8],
) -> io::Result<bool>
    requires { RequestRooms request.old room.old }
    ensures serves { IfOk result (λ more. more ≡ true
        → Serves (R.remaining input.old) (R.remaining input.new) (W.contents out.old)
        (W.contents out.new)) }
    ensures quiet { IfOk result (λ more. more ≡ false
        → Keeps (W.contents out.old) (W.contents out.new)) }
{
    let Some(end) = read_request(input, request)? else {
        return Ok(false);
    };
    match answer(&request[..end], room) {
        None => Ok(false),
        Some(n) => {
            out.write_all(&room[..n])?;
            out.flush()?;
            Ok(true)
        }
    }
}

fn main(rt: HostRuntime) -> io::Result<()> {
    let mut input = rt.stdin();
    let mut out = rt.stdout();
    let mut request = [0u8; REQUEST_ROOM];
    let mut room = [0u8; REPLY_ROOM];
    let mut left = MOST_REQUESTS;
    while left > 0 {
        if !served(&mut input, &mut out, &mut request, &mut room)? {
            return Ok(());
        }
        left -= 1;
    }
    Ok(())
}
