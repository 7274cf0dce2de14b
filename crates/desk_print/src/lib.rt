// What the desk program and its trial print of a sheet. Nothing is assumed of it.
#![tactic(auto)]

ghost use Rattle.std.specs.Prelude.{OnOk};
ghost use Rattle.std.specs.Io.KnownBytes.{Appends};
ghost use Rattle.paper.specs.Desk.{desk_text};

use desk_text::{TEXT_ROOM, desk_text};
use std::io::{self, Write};

pub fn print_all<W: Write>(out: &mut W, bytes: &[u8]) -> io::Result<()>
    ensures { OnOk result (Appends (W.contents out.old) (W.contents out.new) bytes.now) }
{
    out.write_all(bytes)
}

// The room is enough for any text (`enough` in desk_text/proofs), so the last arm is never taken.
pub fn print_text<W: Write>(out: &mut W, sheet: &[u8]) -> io::Result<()>
    ensures { OnOk result (Appends (W.contents out.old) (W.contents out.new)
        (desk_text sheet.now)) }
{
    let mut text = [0u8; TEXT_ROOM];
    match desk_text(sheet, &mut text) {
        Ok(n) => print_all(out, &text[..n]),
        Err(_) => print_all(out, b"no room for the text\n"),
    }
}
