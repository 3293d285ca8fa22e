// Moving bytes from a tray of one sheet's layout to a tray of another's. Each is a call of its own, with theorems of its own.
ghost use Rattle.std.specs.Prelude.{◌≡◌};
ghost use Rattle.astrephon.specs.Says.{says, no_values};
ghost use Rattle.astrephon.specs.Moves.{move_call, pair_move_call};

use crate::{FileOffset, Refusal};
use maps::Window;

// Fills `tray2`, a tray of the second sheet's layout, with the bytes of `tray1`, a tray of the first's. Both are of the window from a up to but not
// including b.
#[tactic(auto, unfolding(crate::specs::Moves::move_of))]
pub fn move_tray(
    sheet1: &[u8],
    sheet2: &[u8],
    a: FileOffset,
    b: FileOffset,
    tray1: &[u8],
    tray2: &mut [u8],
) -> Result<(), Refusal>
    ensures says { let outcome = move_call sheet1.now sheet2.now a.0 b.0 tray1.now tray2.old in
        says no_values result ≡ outcome.says }
    ensures leaves { let outcome = move_call sheet1.now sheet2.now a.0 b.0 tray1.now tray2.old in
        tray2.new ≡ outcome.later }
{
    let both = openings::open_sheets(sheet1, sheet2)?;
    both.check_trays(a, b, tray1.len(), tray2.len())?;
    let one = both.one;
    let two = both.two;
    let window = Window { start: a, end: b };
    trays::move_tray(
        one.layout, one.size, two.layout, two.size, window, tray1, tray2,
    );
    Ok(())
}

// Writes to `tray2` only the bytes that element i of the first sheet and element j of the second share. Eight parameters: the call as docs/CALLS.md has it.
#[tactic(auto, unfolding(crate::specs::Moves::pair_move_of))]
pub fn move_pair(
    sheet1: &[u8],
    sheet2: &[u8],
    i: u64,
    j: u64,
    a: FileOffset,
    b: FileOffset,
    tray1: &[u8],
    tray2: &mut [u8],
) -> Result<(), Refusal>
    ensures says { let outcome = pair_move_call sheet1.now sheet2.now i j a.0 b.0 tray1.now tray2.old in
        says no_values result ≡ outcome.says }
    ensures leaves { let outcome = pair_move_call sheet1.now sheet2.now i j a.0 b.0 tray1.now tray2.old in
        tray2.new ≡ outcome.later }
{
    let both = openings::open_sheets(sheet1, sheet2)?;
    both.check_pair(i, j)?;
    both.check_trays(a, b, tray1.len(), tray2.len())?;
    let one = both.one;
    let two = both.two;
    let window = Window { start: a, end: b };
    trays::move_pair(
        one.layout, one.size, two.layout, two.size, i as usize, j as usize, window, tray1, tray2,
    );
    Ok(())
}
