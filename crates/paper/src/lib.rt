// Document 01's numbers and types: what every crate of the project hands to the next. The definitions are in specs/.
#![tactic(auto)]

ghost use Rattle.std.specs.Prelude.{◌≡◌};
ghost use Rattle.paper.specs.Refusals.{value_of};

// "Numbers": what a drawing may have and what is held at once.
pub const LEAST_VERTICES: usize = 4;

pub const MOST_VERTICES: usize = 32;

pub const LEAST_EDGES: usize = 6;

pub const MOST_EDGES: usize = 64;

pub const FARTHEST: i64 = 1000;

pub const LEAST_CORNERS: usize = 3;

pub const MOST_CORNERS: usize = 12;

pub const MOST_LOOPS: usize = 128;

pub const MOST_CANDIDATES: usize = 64;

pub const MOST_SOLIDS: usize = 8;

pub const MOST_WORK: u64 = 1000000;

pub const LEAST_FACES: usize = 4;

pub const MOST_FACES: usize = 42;

// Lists by value: three coordinates for each vertex, two ends for each edge, a row for each face.
pub const COORDINATES: usize = 3 * MOST_VERTICES;

pub const ENDS: usize = 2 * MOST_EDGES;

pub const ROWS: usize = ROW * MOST_FACES;

// "The drawing sheet": the widths that all editions share.
pub const EDITION_BITS: usize = 4;

pub const COORDINATE_BITS: usize = 11;

pub const VERTEX_BITS: usize = 3 * COORDINATE_BITS;

pub const CORNER_BITS: usize = 4;

// Edition 1's own widths.
pub const VERTEX_COUNT_BITS: usize = 6;

pub const EDGE_COUNT_BITS: usize = 7;

pub const VERTEX_NUMBER_BITS: usize = 5;

pub const FACE_COUNT_BITS: usize = 6;

// The longest sheet and the longest face list, in bytes: all that stands in front of the drawing or the faces, these, and fill.
const SHEET_HEAD: usize = EDITION_BITS + VERTEX_COUNT_BITS + EDGE_COUNT_BITS;

pub const SHEET_ROOM: usize = (SHEET_HEAD
    + VERTEX_BITS * MOST_VERTICES
    + VERTEX_NUMBER_BITS * ENDS
    + 7)
    / 8;

const FACE_BITS: usize = CORNER_BITS + VERTEX_NUMBER_BITS * MOST_CORNERS;

pub const LIST_ROOM: usize = (EDITION_BITS + FACE_COUNT_BITS + FACE_BITS * MOST_FACES + 7) / 8;

// A report's room: 13 bytes for each candidate; for each solid the words of two sets, and six volumes.
pub const ROW: usize = 13;

pub const SET_WORDS: usize = 1;

pub const WORD_BITS: usize = 64;

pub const WORDS: usize = 2 * SET_WORDS + 1;

pub const FACE_ROOM: usize = ROW * MOST_CANDIDATES;

pub const SOLID_ROOM: usize = WORDS * MOST_SOLIDS;

pub const FILL: u8 = 255;

// The loop table's room: 13 bytes for each loop.
pub const LOOP_ROOM: usize = ROW * MOST_LOOPS;

// "What comes back": a number. What is handed a refusal takes it with any byte for its number; the table's have names.
#[derive(Clone, Copy, PartialEq, Eq)]
pub struct Number {
    pub value: u8,
}

// The table's numbers by their names; and 30 of the reading, where two to eight solids exist.
impl Number {
    pub const NO_ROOM: Number = Number { value: 1 };

    pub const BAD_LIMIT: Number = Number { value: 2 };

    pub const SHEET_SHORT: Number = Number { value: 3 };

    pub const SHEET_EDITION: Number = Number { value: 4 };

    pub const BAD_COUNT: Number = Number { value: 5 };

    pub const SHEET_LENGTH: Number = Number { value: 6 };

    pub const SHEET_PAD: Number = Number { value: 7 };

    pub const BAD_COORDINATE: Number = Number { value: 8 };

    pub const BAD_EDGE: Number = Number { value: 9 };

    pub const EDGE_ORDER: Number = Number { value: 10 };

    pub const SAME_PLACE: Number = Number { value: 11 };

    pub const LOOSE_VERTEX: Number = Number { value: 12 };

    pub const EDGE_MEETS: Number = Number { value: 13 };

    pub const APART: Number = Number { value: 14 };

    pub const MANY_LOOPS: Number = Number { value: 15 };

    pub const MANY_CANDIDATES: Number = Number { value: 16 };

    pub const NO_SOLID: Number = Number { value: 17 };

    pub const MANY: Number = Number { value: 18 };

    pub const TOO_LONG: Number = Number { value: 19 };

    pub const SHELL_SHAPE: Number = Number { value: 20 };

    pub const NOT_CANDIDATE: Number = Number { value: 21 };

    pub const FACE_TWICE: Number = Number { value: 22 };

    pub const EDGE_COUNT: Number = Number { value: 23 };

    pub const DIRECTION: Number = Number { value: 24 };

    pub const PIECES: Number = Number { value: 25 };

    pub const INWARD: Number = Number { value: 26 };

    pub const CLASH: Number = Number { value: 27 };

    pub const AMBIGUOUS: Number = Number { value: 30 };
}

impl From<Number> for u64 {
    ghost from_gives = { λ number value. value ≡ value_of number };

    fn from(number: Number) -> u64 {
        u64::from(number.value)
    }
}

// A refusal: a number of the table and its place.
#[derive(Clone, Copy)]
pub struct Refusal {
    pub number: Number,
    pub place: usize,
}

// An edition's layout of sheets and face lists: its number; the widths of the vertex count, the edge count, a vertex
// number and the face count; and the largest counts.
#[derive(Clone, Copy)]
pub struct Format {
    pub edition: u64,
    pub vertex_count_bits: usize,
    pub edge_count_bits: usize,
    pub vertex_number_bits: usize,
    pub face_count_bits: usize,
    pub most_vertices: u64,
    pub most_edges: u64,
    pub most_faces: u64,
}

// A drawing by value: three coordinates for each vertex, two vertex numbers for each edge, and 0 in unused entries.
#[derive(Clone, Copy)]
pub struct Drawing {
    pub vertices: usize,
    pub edges: usize,
    pub xyz: [i64; COORDINATES],
    pub ends: [u8; ENDS],
}

// The faces of a list by value: a row of 13 bytes for each face, and 0 in unused entries.
#[derive(Clone, Copy)]
pub struct FaceRows {
    pub count: usize,
    pub rows: [u8; ROWS],
}

// A point with whole coordinates, which also serves as a direction.
#[derive(Clone, Copy)]
pub struct Point {
    pub x: i64,
    pub y: i64,
    pub z: i64,
}

// A point seen along an axis.
#[derive(Clone, Copy)]
pub struct Flat {
    pub u: i64,
    pub v: i64,
}

#[derive(Clone, Copy)]
pub enum Axis {
    AlongX,
    AlongY,
    AlongZ,
}

// Where a point of a polygon's plane lies.
#[derive(Clone, Copy)]
pub enum Where {
    Outside,
    Border,
    Inside,
}

// The answer of a conversion: one solid, with its six volumes; two to eight; none; a ninth was met; the limit was met;
// or one of 1 to 16. The counts of loops and candidates and the work come with all but the last.
#[derive(Clone, Copy)]
pub enum Conversion {
    One {
        loops: usize,
        candidates: usize,
        work: u64,
        six: u64,
    },
    Several {
        loops: usize,
        candidates: usize,
        work: u64,
        solids: usize,
    },
    NoSolid {
        loops: usize,
        candidates: usize,
        work: u64,
    },
    Many {
        loops: usize,
        candidates: usize,
        work: u64,
    },
    TooLong {
        loops: usize,
        candidates: usize,
        work: u64,
    },
    Refused(Refusal),
}
