// A face list held against the candidates of a drawing that passed 3 to 16: refusals 20 to 27. Assumes their rows and tables.
ghost use Rattle.walk_tables.specs.Words.{walk_tables};
ghost use Rattle.verdict.specs.Checked.{ListAt, ListChecked};

use faces_reader::read_sent;
use paper::{FACE_ROOM, MOST_CANDIDATES, MOST_EDGES, MOST_FACES, Refusal};
use verdict_faces::named;
use verdict_tests::tested;

pub fn faces_checked(
    list: &[u8],
    v: usize,
    rows: &[u8; FACE_ROOM],
    n: usize,
    on: &[u64; MOST_EDGES],
    up: &[u64; MOST_EDGES],
    m: usize,
    sides: &[u64; MOST_CANDIDATES],
    clashes: &[u64; MOST_CANDIDATES],
    sixes: &[i64; MOST_CANDIDATES],
) -> Result<(), Refusal>
    requires { ListAt rows.now n m sixes.now }
    ensures { ListChecked list.now v rows.now n
        (walk_tables on.now up.now sides.now clashes.now sixes.now) m result }
{
    let faces = read_sent(list, v, m)?;
    let mut numbers = [0u8; MOST_FACES];
    let s = named(&faces.rows, faces.count, rows, n, &mut numbers)?;
    match tested(
        on,
        up,
        m,
        sides,
        clashes,
        sixes,
        &numbers,
        faces.count,
        s.taken,
        s.turned,
    ) {
        Ok(()) => Ok(()),
        Err(r) => Err(r),
    }
}
