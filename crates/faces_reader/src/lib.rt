// Face lists, read at the rim of the service: nothing is assumed of any input.
#![tactic(auto)]

ghost use Rattle.std.specs.Prelude.{◌≡◌};
ghost use Rattle.paper.specs.Format.{edition_of, edition_for};
ghost use Rattle.paper.specs.FaceList.{faces_as, faces_of};
ghost use Rattle.paper.specs.Reading.{answer_says, faces_said};

mod read;

use paper::{FaceRows, Refusal};

// Reads a packed face list for a drawing of so many vertices: refusal 20, and the faces by value, a row of 13 bytes for each.
pub fn read_faces(list: &[u8], vertices: usize) -> Result<FaceRows, Refusal>
    ensures result { faces_as result ≡ faces_of (edition_of list.now) vertices list.now }
    ensures said { answer_says (faces_as result).answer ≡ faces_said (edition_of list.now) vertices list.now }
{
    read::read(paper_values::edition_of(list), list, vertices)
}

// The same of a list that is sent for a drawing of so many vertices and edges: it has to be in that drawing's edition.
pub fn read_sent(list: &[u8], vertices: usize, edges: usize) -> Result<FaceRows, Refusal>
    ensures { faces_as result ≡ faces_of (edition_for vertices edges) vertices list.now }
{
    read::read(paper_values::edition_for(vertices, edges), list, vertices)
}
