// The reading of a drawing, for which no rooms need be lent: what the insurer sees. Nothing is assumed of any input.
#![tactic(auto)]

ghost use Rattle.paper.specs.Conversion.{convert_lists, convert_sheet};
ghost use Rattle.assess.specs.Assessed.{Assessed};

use convert::{convert, convert_sheet};
use paper::{FACE_ROOM, Number, SOLID_ROOM};
use reading::reading;

// Of two lent lists.
pub fn assess(xyz: &[i64], ends: &[u8], limit: u64) -> Result<f64, Number>
    ensures { Assessed (convert_lists xyz.now ends.now limit) result }
{
    let mut faces = [0u8; FACE_ROOM];
    let mut solids = [0u64; SOLID_ROOM];
    reading(convert(xyz, ends, limit, &mut faces, &mut solids))
}

// Of a sheet.
pub fn assess_sheet(sheet: &[u8], limit: u64) -> Result<f64, Number>
    ensures { Assessed (convert_sheet sheet.now limit) result }
{
    let mut faces = [0u8; FACE_ROOM];
    let mut solids = [0u64; SOLID_ROOM];
    reading(convert_sheet(sheet, limit, &mut faces, &mut solids))
}
