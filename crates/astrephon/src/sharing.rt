// What two elements share: the runs of file offsets that are in both.
ghost use Rattle.std.specs.Prelude.{◌≡◌};
ghost use Rattle.astrephon.specs.Says.{says, number_value};
ghost use Rattle.astrephon.specs.Shares.{shared_runs_call};

use crate::{FileOffset, Refusal};
use maps::Window;

// The maximal runs of file offsets from a up to but not including b that are in element i of sheet 1 and in element j of sheet 2, ascending, four slots
// a run: its start, its length, the subfile offset of its start in each element. The call answers how many there are, and writes the list where it holds them all.
#[tactic(auto, unfolding(crate::specs::Shares::shared_runs_of))]
pub fn shared_runs(
    sheet1: &[u8],
    sheet2: &[u8],
    i: u64,
    j: u64,
    a: FileOffset,
    b: FileOffset,
    list: &mut [u64],
) -> Result<u64, Refusal>
    ensures says { let outcome = shared_runs_call sheet1.now sheet2.now i j a.0 b.0 list.old in
        says number_value result ≡ outcome.says }
    ensures leaves { let outcome = shared_runs_call sheet1.now sheet2.now i j a.0 b.0 list.old in
        list.new ≡ outcome.later }
{
    let pair = openings::open_pair(sheet1, sheet2, i, j, a, b)?;
    let one = pair.one.subfile();
    let two = pair.two.subfile();
    let window = Window { start: a, end: b };
    let room = list.len() as u64 / 4;
    let runs = runs::list_shared(&one, &two, window, list);
    if room < runs {
        return Err(Refusal::Room(runs));
    }
    Ok(runs)
}
