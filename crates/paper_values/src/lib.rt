// Values of document 01's types that many crates make: a refusal, and the layout of an edition. Nothing is assumed.
#![tactic(auto)]

ghost use Rattle.std.specs.Prelude.{◌≡◌, Err};
ghost use Rattle.paper.specs.Format.{edition_one, edition_of, edition_for};

use paper::{Format, Number, Refusal};

// A refusal, whatever else would have come back.
pub fn refused<T>(number: Number, place: usize) -> Result<T, Refusal>
    ensures { result ≡ Err (record { number = number; place = place }) }
{
    Err(Refusal { number, place })
}

// Edition 1.
fn edition_one() -> Format
    ensures { result ≡ edition_one }
{
    Format {
        edition: 1,
        vertex_count_bits: paper::VERTEX_COUNT_BITS,
        edge_count_bits: paper::EDGE_COUNT_BITS,
        vertex_number_bits: paper::VERTEX_NUMBER_BITS,
        face_count_bits: paper::FACE_COUNT_BITS,
        most_vertices: paper::MOST_VERTICES as u64,
        most_edges: paper::MOST_EDGES as u64,
        most_faces: paper::MOST_FACES as u64,
    }
}

// The edition that a sheet or a face list says: there is one.
pub fn edition_of(_bytes: &[u8]) -> Format
    ensures { result ≡ edition_of _bytes.now }
{
    edition_one()
}

// The edition of a drawing of so many vertices and edges, and of its face lists: there is one.
pub fn edition_for(_vertices: usize, _edges: usize) -> Format
    ensures { result ≡ edition_for _vertices _edges }
{
    edition_one()
}
