// Reading a sheet of a call.
ghost use Rattle.sheets.specs.Sheet.{read_sheet};
ghost use Rattle.openings.specs.Refusals.{sheet_number};
ghost use Rattle.openings.specs.Openings.{Reads};

use crate::{Refusal, Which};
use sheets::Sheet;

// A sheet that is accepted, or its refusal. A match: with `map_err` the proof did not close (tried), since of the closure's answer nothing was known.
pub fn read(which: Which, sheet: &[u8]) -> Result<Sheet, Refusal>
    ensures { Reads (sheet_number which) (read_sheet sheet.now) result }
{
    match sheets::read(sheet) {
        Ok(accepted) => Ok(accepted),
        Err(refused) => Err(Refusal::Sheet(which, refused)),
    }
}
