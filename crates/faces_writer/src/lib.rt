// Face lists, written at the rim of the service: nothing is assumed of any input.
#![tactic(auto)]

ghost use Rattle.std.specs.Prelude.{◌≡◌};
ghost use Rattle.paper.specs.Format.{edition_for};
ghost use Rattle.paper.specs.FaceList.{sent_of, sent_room};
ghost use Rattle.paper.specs.Reading.{written_says, sent_said};
ghost use Rattle.faces_writer.specs.Send.{of_solid};

mod write;

use paper::Refusal;

// Writes a reported solid of a drawing of so many vertices and edges as a face list to the start of the room, from the report's rows and
// the solid's record: refusal 20, then 1. Later room keeps its contents.
pub fn write_faces(
    rows: &[u8],
    solid: &[u64],
    vertices: usize,
    edges: usize,
    room: &mut [u8],
) -> Result<usize, Refusal>
    ensures answer { result
        ≡ of_solid (sent_of (edition_for vertices edges)) rows.now solid.now room.old }
    ensures said { written_says result
        ≡ of_solid (sent_said (edition_for vertices edges)) rows.now solid.now room.old }
    ensures kept { room.new
        ≡ of_solid (sent_room (edition_for vertices edges)) rows.now solid.now room.old }
{
    write::write(
        paper_values::edition_for(vertices, edges),
        rows,
        solid,
        room,
    )
}
