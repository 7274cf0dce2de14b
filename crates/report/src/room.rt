// A report written to the start of the two lent rooms; later room keeps its contents. Assumes that there is room.
ghost use Rattle.report.specs.Room.{Writing, Wrote};

use paper::{FACE_ROOM, ROW, SOLID_ROOM, WORDS};
use rooms::copy;

// "A report writes 13 bytes per candidate and three words per solid"
pub fn write_report(
    rows: &[u8; FACE_ROOM],
    n: usize,
    out: &[u64; SOLID_ROOM],
    found: usize,
    faces: &mut [u8],
    solids: &mut [u64],
)
    requires { Writing rows.now n out.now found faces.old solids.old }
    ensures { Wrote rows.now n out.now found faces.old faces.new
        solids.old solids.new }
{
    copy(rows, ROW * n, faces);
    copy(out, WORDS * found, solids);
}
