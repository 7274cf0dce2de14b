// Which candidate each face of a list is, from any start and in either direction, and which faces are run against their normal form:
// refusals 21 and 22. Assumes rows of faces and of candidates, as the contracts say.
#![tactic(auto)]

mod form;
mod number;
pub mod selection;

ghost use Rattle.verdict_faces.specs.Named.{Naming, NamedIs};
ghost use Rattle.verdict_faces.specs.Passes.{Numbering, Takes, TakenAs};

use form::way_of;
use lists::wide;
use number::number_in;
use paper::{FACE_ROOM, MOST_FACES, Number, ROWS, Refusal};
use paper_values::refused;
use selection::Selection;
use sets::Wide;

// Writes the number of each face, up to one that is no candidate, and marks those that are run against their normal form.
fn number_faces(
    faces: &[u8; ROWS],
    count: usize,
    rows: &[u8; FACE_ROOM],
    n: usize,
    numbers: &mut [u8; MOST_FACES],
) -> Result<Wide, usize>
    requires { Naming faces.now count rows.now n numbers.old }
    ensures { Numbering faces.now count rows.now n numbers.old numbers.new result }
{
    let mut against = Wide::none();
    for i in 0..count {
        let way = way_of(faces, i);
        let k = number_in(faces, i, way, rows, n);
        if n <= k {
            return Err(i);
        }
        numbers[i] = k as u8;
        if !way.onward {
            against = against.with(k);
        }
    }
    Ok(against)
}

// Marks the numbers in turn, up to one that is marked already.
fn take_each(numbers: &[u8; MOST_FACES], count: usize) -> Result<Wide, usize>
    requires { Takes numbers.now count }
    ensures { TakenAs numbers.now count result }
{
    let mut taken = Wide::none();
    for i in 0..count {
        let k = wide(numbers[i]);
        if taken.has(k) {
            return Err(i);
        }
        taken = taken.with(k);
    }
    Ok(taken)
}

// 21 and 22, or the candidates of the faces, in list order in `numbers`.
pub fn named(
    faces: &[u8; ROWS],
    count: usize,
    rows: &[u8; FACE_ROOM],
    n: usize,
    numbers: &mut [u8; MOST_FACES],
) -> Result<Selection, Refusal>
    requires { Naming faces.now count rows.now n numbers.old }
    ensures { NamedIs faces.now count rows.now n numbers.old numbers.new result }
{
    match number_faces(faces, count, rows, n, numbers) {
        Err(i) => refused(Number::NOT_CANDIDATE, i),
        Ok(turned) => match take_each(numbers, count) {
            Err(i) => refused(Number::FACE_TWICE, i),
            Ok(taken) => Ok(Selection { taken, turned }),
        },
    }
}
