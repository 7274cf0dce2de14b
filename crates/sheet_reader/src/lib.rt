// Sheets, read at the rim of the service: nothing is assumed of any input.
#![tactic(auto)]

ghost use Rattle.std.specs.Prelude.{◌≡◌};
ghost use Rattle.paper.specs.Format.{edition_of};
ghost use Rattle.paper.specs.Reading.{answer_says, sheet_said};
ghost use Rattle.paper.specs.Sheet.{sheet_as, read_sheet};

mod read;

use paper::{Drawing, Refusal};

// Reads a sheet: refusals 3 to 10, and the drawing by value.
pub fn read_sheet(sheet: &[u8]) -> Result<Drawing, Refusal>
    ensures result { sheet_as result ≡ read_sheet sheet.now }
    ensures said { answer_says (sheet_as result).answer ≡ sheet_said (edition_of sheet.now) sheet.now }
{
    read::read(paper_values::edition_of(sheet), sheet)
}
