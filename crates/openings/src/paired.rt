// Opening two sheets, and an element of each of them for a window.
ghost use Rattle.std.specs.Prelude.{◌≡◌};
ghost use Rattle.sheets.specs.Sheet.{read_sheet};
ghost use Rattle.openings.specs.Refusals.{unless_fault};
ghost use Rattle.openings.specs.Offsets.{pair_tests, both_from};
ghost use Rattle.openings.specs.Buffers.{unless_trays};
ghost use Rattle.openings.specs.Openings.{accepted_as, OpensPair, OpensSheets, Verdict};

use crate::{Pair, Refusal, RefusedSheets, Sheets, opened, ranges};
use families::FileOffset;

// Opens two sheets. Both are read, also where the first is refused: what was read of each is the caller's in any case.
pub fn open_sheets(sheet1: &[u8], sheet2: &[u8]) -> Result<Sheets, RefusedSheets>
    ensures { OpensSheets (read_sheet sheet1.now) (read_sheet sheet2.now) result }
{
    let one = sheets::read(sheet1);
    let two = sheets::read(sheet2);
    match one {
        Ok(one) => match two {
            Ok(two) => Ok(Sheets { one, two }),
            Err(refused) => Err(RefusedSheets::Second { one, refused }),
        },
        Err(refused) => Err(RefusedSheets::First { refused, two }),
    }
}

impl Sheets {
    // Checks the indexes of an element of each.
    pub fn check_pair(&self, i: u64, j: u64) -> Result<(), Refusal>
        ensures { let m = self.now.one.layout.elements in
            Verdict (unless_fault (pair_tests m i self.now.two.layout.elements j)) result }
    {
        let m = self.one.layout.elements as u64;
        ranges::check_pair(m, i, self.two.layout.elements as u64, j)
    }

    // Where both have started: the larger displacement.
    pub fn displacement(&self) -> u32
        ensures { result ≡ both_from (accepted_as self.now.one) (accepted_as self.now.two) }
    {
        let one = self.one.layout.displacement;
        one.max(self.two.layout.displacement)
    }

    // Checks a window of both, and the lengths of two trays of it.
    pub fn check_trays(
        &self,
        a: FileOffset,
        b: FileOffset,
        one: usize,
        two: usize,
    ) -> Result<(), Refusal>
        ensures { Verdict (unless_trays (accepted_as self.now.one) (accepted_as self.now.two) a.0 b.0 one two) result }
    {
        ranges::check_trays(self.displacement(), a, b, one as u64, two as u64)
    }
}

// Opens element i of the first sheet and element j of the second for a window, from a up to but not including b.
pub fn open_pair(
    sheet1: &[u8],
    sheet2: &[u8],
    i: u64,
    j: u64,
    a: FileOffset,
    b: FileOffset,
) -> Result<Pair, Refusal>
    ensures { let one = read_sheet sheet1.now in let two = read_sheet sheet2.now in
        OpensPair one two i j a.0 b.0 result }
{
    let both = open_sheets(sheet1, sheet2)?;
    both.check_pair(i, j)?;
    ranges::check_range(crate::LIMIT, both.displacement(), a, b)?;
    Ok(Pair {
        one: opened::choose(both.one, i as usize),
        two: opened::choose(both.two, j as usize),
    })
}
