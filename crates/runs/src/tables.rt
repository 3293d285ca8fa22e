// A table of one period of a selection, and where a file offset stands in it.
ghost use Rattle.std.specs.Prelude.{◌≡◌, ◌&&◌, ◌≤◌, leb, length, replicate};
ghost use Rattle.counting.specs.Count.{bit};
ghost use Rattle.counting.specs.Gather.{tabulated};
ghost use Rattle.families.specs.Forest.{has, end_of};
ghost use Rattle.maps.specs.Selected.{families_of};
ghost use Rattle.runs.specs.Walking.{FitsTable, SideAt};

use crate::walks::Side;
use families::FileOffset;
use maps::Subfile;

// Whether a table of `room` places has one for every offset of the families and every place of a period.
pub fn fits(subfile: &Subfile, room: u64) -> bool
    ensures { result ≡ (leb (end_of (families_of subfile.now.selection subfile.now.families.now)) room && leb subfile.now.selection.period room) }
{
    subfile.siblings().end() <= room && u64::from(subfile.selection.period) <= room
}

// Writes 1 to every place of a table of zeros that the selection's families select.
pub fn fill(subfile: &Subfile, table: &mut [u8])
    requires fits { FitsTable subfile.now.selection subfile.now.families.now (length table.old) }
    requires zeros { table.old ≡ replicate (length table.old) 0 }
    ensures { table.new ≡ tabulated 0 (length table.old) (λ i. bit (has (families_of subfile.now.selection subfile.now.families.now) i)) }
{
    subfile.siblings().paint(table, 1);
}

// Where x stands in the selection.
pub fn side_at(subfile: &Subfile, x: FileOffset) -> Side
    requires { subfile.now.selection.from ≤ x.0 }
    ensures { SideAt subfile.now.selection subfile.now.families.now x.0 result }
{
    let s = subfile.selection;
    let past = x.0 - u64::from(s.from);
    Side {
        place: (past % u64::from(s.period)) as usize,
        rank: subfile.rank(x),
    }
}
