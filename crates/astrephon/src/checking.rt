// Checking one sheet.
ghost use Rattle.std.specs.Prelude.{◌≡◌};
ghost use Rattle.astrephon.specs.Says.{says, fact_values};
ghost use Rattle.astrephon.specs.Check.{check_call};

use crate::{Facts, Refusal, Which};

// Whether the bytes are the sheet of a layout: its facts, or the first refusal in 01's order.
#[tactic(auto, unfolding(crate::specs::Check::check_of))]
pub fn check(sheet: &[u8]) -> Result<Facts, Refusal>
    ensures { says fact_values result ≡ check_call sheet.now }
{
    let accepted = openings::read(Which::First, sheet)?;
    Ok(Facts {
        displacement: accepted.layout.displacement,
        size: accepted.size,
        elements: accepted.layout.elements as u32,
    })
}
