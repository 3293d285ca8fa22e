// Carrying one element's bytes of a window between a file buffer and a packed one. Gather and scatter are two calls, each with theorems of its own.
ghost use Rattle.std.specs.Prelude.{◌≡◌};
ghost use Rattle.astrephon.specs.Says.{says, number_value, no_values};
ghost use Rattle.astrephon.specs.Carries.{packed_length_call, gather_call, scatter_call};

use crate::{FileOffset, Refusal};
use maps::Window;

// How many bytes of the window from a up to but not including b are the element's: the length of the packed buffer that `gather` and `scatter` ask for.
#[tactic(auto, unfolding(crate::specs::Carries::packed_length_of))]
pub fn packed_len(sheet: &[u8], element: u64, a: FileOffset, b: FileOffset) -> Result<u64, Refusal>
    ensures { says number_value result ≡ packed_length_call sheet.now element a.0 b.0 }
{
    let opening = openings::open_window(sheet, element, a, b)?;
    Ok(opening.count(a, b))
}

// Fills `packed` with the element's bytes of the window, in file order. `file` holds the window, from a on.
#[tactic(auto, unfolding(crate::specs::Carries::gather_of))]
pub fn gather(
    sheet: &[u8],
    element: u64,
    a: FileOffset,
    b: FileOffset,
    file: &[u8],
    packed: &mut [u8],
) -> Result<(), Refusal>
    ensures says { let outcome = gather_call sheet.now element a.0 b.0 file.now packed.old in
        says no_values result ≡ outcome.says }
    ensures leaves { let outcome = gather_call sheet.now element a.0 b.0 file.now packed.old in
        packed.new ≡ outcome.later }
{
    let opening = openings::open_buffers(sheet, element, a, b, file.len(), packed.len())?;
    let window = Window { start: a, end: b };
    moves::gather(&opening.subfile(), window, file, packed);
    Ok(())
}

// Puts the element's bytes of the window back into `file`, from `packed`. Bytes of other elements stay.
#[tactic(auto, unfolding(crate::specs::Carries::scatter_of))]
pub fn scatter(
    sheet: &[u8],
    element: u64,
    a: FileOffset,
    b: FileOffset,
    packed: &[u8],
    file: &mut [u8],
) -> Result<(), Refusal>
    ensures says { let outcome = scatter_call sheet.now element a.0 b.0 packed.now file.old in
        says no_values result ≡ outcome.says }
    ensures leaves { let outcome = scatter_call sheet.now element a.0 b.0 packed.now file.old in
        file.new ≡ outcome.later }
{
    let opening = openings::open_buffers(sheet, element, a, b, file.len(), packed.len())?;
    let window = Window { start: a, end: b };
    moves::scatter(&opening.subfile(), window, packed, file);
    Ok(())
}
