// What is checked of indexes, offsets and lengths.
ghost use Rattle.openings.specs.Refusals.{unless_fault};
ghost use Rattle.openings.specs.Offsets.{element_test, pair_tests, offset_tests, range_tests};
ghost use Rattle.openings.specs.Buffers.{buffer_tests, tray_tests};
ghost use Rattle.openings.specs.Openings.{Verdict};
ghost use Rattle.std.specs.Prelude.{[], ◌∷◌};

use crate::Refusal;
use families::FileOffset;

// Of the index of an element, where the sheet has n.
#[tactic(auto, using(crate::proofs::Faults::element_none, crate::proofs::Faults::element_there))]
pub fn check_element(n: u64, element: u64) -> Result<(), Refusal>
    ensures { Verdict (unless_fault (element_test n element ∷ [])) result }
{
    if n <= element {
        Err(Refusal::Element)
    } else {
        Ok(())
    }
}

// Of the indexes of a pair, where the sheets have m and n elements.
pub fn check_pair(m: u64, i: u64, n: u64, j: u64) -> Result<(), Refusal>
    ensures { Verdict (unless_fault (pair_tests m i n j)) result }
{
    check_element(m, i)?;
    check_element(n, j)
}

// Of one file offset, where the displacement is `from`.
#[tactic(auto, using(crate::proofs::Faults::offset_before, crate::proofs::Faults::offset_far, crate::proofs::Faults::offset_within))]
pub fn check_offset(from: u32, x: FileOffset) -> Result<(), Refusal>
    ensures { Verdict (unless_fault (offset_tests from x.0)) result }
{
    if x.0 < u64::from(from) {
        return Err(Refusal::Before);
    }
    if crate::LIMIT <= x.0 {
        return Err(Refusal::Far);
    }
    Ok(())
}

// Of an interval or a window from a to b, where b may be `most`. The ends stand apart here and in all calls: a `Window` (maps) is in order by its type,
// which is what is being checked.
#[tactic(auto, using(crate::proofs::Faults::range_back, crate::proofs::Faults::range_before, crate::proofs::Faults::range_far, crate::proofs::Faults::range_within))]
pub fn check_range(most: u64, from: u32, a: FileOffset, b: FileOffset) -> Result<(), Refusal>
    ensures { Verdict (unless_fault (range_tests most from a.0 b.0)) result }
{
    let start = a.0;
    let end = b.0;
    if end < start {
        return Err(Refusal::Window);
    }
    if start < u64::from(from) {
        return Err(Refusal::Before);
    }
    if most < end {
        Err(Refusal::Far)
    } else {
        Ok(())
    }
}

// Of the lengths of two buffers, each with the one that is due.
#[tactic(auto, using(crate::proofs::Faults::buffer_first, crate::proofs::Faults::buffer_second, crate::proofs::Faults::buffer_long))]
pub fn check_buffers(one: u64, due1: u64, two: u64, due2: u64) -> Result<(), Refusal>
    ensures { Verdict (unless_fault (buffer_tests one due1 two due2)) result }
{
    if one != due1 {
        return Err(Refusal::Buffer);
    }
    if two != due2 {
        Err(Refusal::Buffer)
    } else {
        Ok(())
    }
}

// Of a window and the lengths of two trays of it.
pub fn check_trays(
    from: u32,
    a: FileOffset,
    b: FileOffset,
    one: u64,
    two: u64,
) -> Result<(), Refusal>
    ensures { Verdict (unless_fault (tray_tests from a.0 b.0 one two)) result }
{
    check_range(crate::LIMIT, from, a, b)?;
    let bytes = b.0 - a.0;
    check_buffers(one, bytes, two, bytes)
}
