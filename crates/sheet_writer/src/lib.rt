// Sheets, written at the rim of the service: nothing is assumed of any input.
#![tactic(auto)]

ghost use Rattle.std.specs.Prelude.{◌≡◌};
ghost use Rattle.paper.specs.Format.{lent_edition};
ghost use Rattle.paper.specs.Reading.{written_says, written_said};
ghost use Rattle.paper.specs.Sheet.{written_of, room_of};

mod write;

use paper::Refusal;

// Writes a drawing's sheet to the start of the room: refusals 5, 8, 9, 10, then 1. Later room keeps its contents.
pub fn write_sheet(xyz: &[i64], ends: &[u8], room: &mut [u8]) -> Result<usize, Refusal>
    ensures answer { result ≡ written_of (lent_edition xyz.now ends.now) xyz.now ends.now
        room.old }
    ensures said { written_says result ≡ written_said (lent_edition xyz.now ends.now) xyz.now
        ends.now room.old }
    ensures kept { room.new ≡ room_of (lent_edition xyz.now ends.now) xyz.now
        ends.now room.old }
{
    let f = paper_values::edition_for(xyz.len() / 3, ends.len() / 2);
    write::write(f, xyz, ends, room)
}
